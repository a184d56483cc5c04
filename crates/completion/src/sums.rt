// Completed items by origin and left side: greatest first. Each sum is written, the Sum and then its Products as they come off, and then
// its pair is completed.
ghost use Rattle.std.specs.Prelude.{◌≡◌, ◌<◌};
ghost use Rattle.binary_heap.specs.Entry.{entries_in};
ghost use Rattle.binary_heap.specs.Sift.{entry_at};
ghost use Rattle.grammar.specs.inner.Decoded.{Chained};
ghost use Rattle.item.specs.Item.{item_at};
ghost use Rattle.completion.specs.Lent.{its_rules, pass_in, after, Kept};
ghost use Rattle.completion.specs.inner.Ready.{PassFits, UnitsFit, RulesRead};
ghost use Rattle.completion.specs.inner.Pending.{Grounds, Pending, Rooted};
ghost use Rattle.completion.specs.Sums.{greatest, is_of, summands, product_node, sum_ends, next_summand, pop_sum};
ghost use Rattle.completion.specs.Sums.{complete_sum, complete_all_sums};

use crate::Pair;
use crate::pass::{Full, Pass};
use binary_heap::entry;
use item::Item;
use node::Node;
use node::factor::long_right;

impl Pass<'_> {
    // The item of the greatest entry.
    fn greatest(&self) -> Item
        requires { PassFits (pass_in self.now) × (0 < self.now.queued) }
        ensures { result ≡ greatest (pass_in self.now) }
    {
        item::read(self.items, entry::read(self.queue, 0).place as usize)
    }

    // Whether the item of the entry at `pos` is of the origin and left side of a pair.
    fn is_of(&self, pair: Pair, pos: usize) -> bool
        requires { RulesRead (its_rules self.now) (pass_in self.now) × (pos < self.now.queued) }
        ensures { result ≡ is_of (its_rules self.now) pair.set pair.symbol
            (item_at self.now.items.now (entry_at (entries_in self.now.queue.now) pos).place) }
    {
        let item = item::read(self.items, entry::read(self.queue, pos).place as usize);
        item.origin as usize == pair.set && self.rules.left(item.rule as usize) == pair.symbol
    }

    // Whether the queue is empty, or its greatest entry is of another origin or left side.
    fn sum_ends(&self, pair: Pair) -> bool
        requires { RulesRead (its_rules self.now) (pass_in self.now) }
        ensures { result ≡ sum_ends (its_rules self.now) pair.set pair.symbol (pass_in self.now) }
    {
        self.queued == 0 || !self.is_of(pair, 0)
    }

    // How many entries of the queue are of the origin and left side of a pair. Each but the root has its parent among them, so that behind
    // the children of the last one found there is none.
    fn summands(&self, pair: Pair) -> u32
        requires rules_read { RulesRead (its_rules self.now) (pass_in self.now) × (0 < self.now.queued) }
        requires rooted { Rooted (its_rules self.now) pair.set pair.symbol (pass_in self.now) }
        ensures { result ≡ summands (its_rules self.now) pair.set pair.symbol (pass_in self.now) }
    {
        let mut number = 0;
        let mut end = 1;
        for pos in 0..self.queued {
            if pos == end {
                break;
            }
            if self.is_of(pair, pos) {
                number += 1;
                end = (2 * pos + 3).min(self.queued);
            }
        }
        number
    }

    // The summand of the greatest entry.
    fn greatest_product(&self) -> Node
        requires { PassFits (pass_in self.now) × (0 < self.now.queued) }
        ensures { result ≡ product_node self.now.items.now (entry_at (entries_in self.now.queue.now) 0) }
    {
        let entry = entry::read(self.queue, 0);
        let item = item::read(self.items, entry.place as usize);
        Node::Product {
            action: item.rule,
            left: item.handle,
            right: long_right(entry.right),
        }
    }

    // Takes the greatest entry off the queue, and writes its Product, unless something was refused before.
    fn next_summand(&mut self, before: Result<(), Full>) -> Result<(), Full>
        requires { PassFits (pass_in self.old) × (0 < self.old.queued) }
        ensures kept { Kept self.old self.new }
        ensures pass { after result self.new ≡ next_summand (after before self.old) }
    {
        let product = self.greatest_product();
        let queued = self.queued;
        // By itself, since `self.items` and `self.queue` are lent at once.
        let items = &mut *self.items;
        match binary_heap::pop(items, self.queue, queued) {
            None => before,
            Some((_, left)) => {
                self.queued = left;
                before?;
                self.append(product)
            }
        }
    }

    // Takes all entries of the origin and left side of a pair off the queue, which are its greatest, and writes their Products. They come off
    // where the store is full too: that is the specs' `pop_sum`.
    fn pop_sum(&mut self, pair: Pair, before: Result<(), Full>) -> Result<(), Full>
        requires { RulesRead (its_rules self.old) (pass_in self.old) }
        ensures kept { Kept self.old self.new }
        ensures pass { after result self.new ≡ pop_sum (its_rules self.old) pair.set pair.symbol (after before self.old) }
    {
        let mut now = before;
        // Which entries are left is asked anew after each: no count.
        while !self.sum_ends(pair) {
            now = self.next_summand(now);
        }
        now
    }

    // Takes one sum off the queue, writes it, and completes its pair.
    fn complete_sum(&mut self) -> Result<(), Full>
        requires { Grounds (its_rules self.old) self.old.starts.now self.old.rows.now
            × Pending (its_rules self.old) self.old.starts.now (pass_in self.old)
            × UnitsFit (pass_in self.old) × (0 < self.old.queued) × Chained self.old.rules.now.words self.old.rules.now.count }
        ensures kept { Kept self.old self.new }
        ensures pass { after result self.new ≡ complete_sum (its_rules self.old) self.old.starts.now self.old.rows.now (pass_in self.old) }
    {
        let greatest = self.greatest();
        let pair = Pair {
            set: greatest.origin as usize,
            symbol: self.rules.left(greatest.rule as usize),
            link: self.used as u32,
        };
        let sum = Node::Sum {
            count: self.summands(pair),
            nonterminal: pair.symbol as u32,
        };
        let begun = self.append(sum);
        self.pop_sum(pair, begun)?;
        self.complete(pair)
    }

    // Completes sum after sum, until the queue is empty or something is refused.
    pub fn complete_all_sums_entirely(&mut self) -> Result<(), Full>
        requires { Grounds (its_rules self.old) self.old.starts.now self.old.rows.now
            × Pending (its_rules self.old) self.old.starts.now (pass_in self.old)
            × UnitsFit (pass_in self.old) × Chained self.old.rules.now.words self.old.rules.now.count }
        ensures kept { Kept self.old self.new }
        ensures pass { after result self.new
            ≡ complete_all_sums (its_rules self.old) self.old.starts.now self.old.rows.now (pass_in self.old) }
    {
        // A sum queues entries too: no count.
        while self.queued > 0 {
            self.complete_sum()?;
        }
        Ok(())
    }
}
