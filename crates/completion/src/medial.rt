// Completing the items of a set whose second is a symbol.
ghost use Rattle.std.specs.Prelude.{◌≡◌, ◌-◌, ◌≤◌, ◌<◌, length};
ghost use Rattle.item.specs.Item.{HasPlace, rule_at};
ghost use Rattle.grammar.specs.Accepted.{max_rules};
ghost use Rattle.completion.specs.Lent.{its_rules, pass_in, after, Kept};
ghost use Rattle.completion.specs.inner.Search.{second_at, Searchable, FirstNotBelow, Found};
ghost use Rattle.completion.specs.inner.Ready.{Sound, IsSet};
ghost use Rattle.completion.specs.Complete.{complete_medial_items};

use crate::Pair;
use crate::pass::{Full, Pass};
use std::ops::Range;

impl Pass<'_> {
    // The second of the item at place `p`.
    fn second_at(&self, p: usize) -> usize
        requires { (self.now.rules.now.count ≤ max_rules) × HasPlace self.now.items.now p
            × (rule_at self.now.items.now p < length (its_rules self.now)) }
        ensures { result ≡ second_at (its_rules self.now) self.now.items.now p }
    {
        self.rules.second(item::rule(self.items, p) as usize)
    }

    // The first place from `from` on whose item's second is not below `x`, or `to`, by halves: before `low` all are below, from `high` on
    // none is.
    fn by_halves(&self, from: usize, to: usize, x: usize) -> usize
        requires { (self.now.rules.now.count ≤ max_rules) × Searchable (its_rules self.now) self.now.items.now from to }
        ensures { FirstNotBelow (its_rules self.now) self.now.items.now from to x result }
    {
        let mut low = from;
        let mut high = to;
        // A search by halves counts no index; `partition_point` is of a slice of items, and an item is three words.
        while low < high {
            let middle = low + (high - low) / 2;
            if self.second_at(middle) < x {
                low = middle + 1;
            } else {
                high = middle;
            }
        }
        low
    }

    // The same in steps that double, as most are found near `from`: before `low` all are below. Then by halves within the last step.
    fn first_not_below(&self, from: usize, to: usize, x: usize) -> usize
        requires { (self.now.rules.now.count ≤ max_rules) × Searchable (its_rules self.now) self.now.items.now from to }
        ensures { FirstNotBelow (its_rules self.now) self.now.items.now from to x result }
    {
        let mut low = from;
        // The steps double, so this counts no index.
        while low - from < to - low {
            let probe = low + (low - from);
            if self.second_at(probe) >= x {
                return self.by_halves(low, probe, x);
            }
            low = probe + 1;
        }
        self.by_halves(low, to, x)
    }

    // Where the items whose second is `x` stand among the places `from` to `to`, which rise by their seconds.
    pub fn medial_item_set_range(&self, from: usize, to: usize, x: usize) -> Range<usize>
        requires { (self.now.rules.now.count ≤ max_rules) × Searchable (its_rules self.now) self.now.items.now from to × (x < 65536) }
        ensures { Found (its_rules self.now) self.now.items.now from to x result.start (result.end - result.start) }
    {
        let first = self.first_not_below(from, to, x);
        let end = self.first_not_below(first, to, x + 1);
        first..end
    }

    // Queues each item of the set whose second is the symbol, with the link for its right factor.
    pub fn complete_medial_items(&mut self, pair: Pair) -> Result<(), Full>
        requires count_le_max_rules { (self.old.rules.now.count ≤ max_rules) × IsSet self.old.starts.now pair.set × (pair.symbol < 65536) }
        requires pass_fits { Sound self.old }
        ensures kept { Kept self.old self.new }
        ensures pass { after result self.new
            ≡ complete_medial_items (its_rules self.old) self.old.starts.now pair.set pair.symbol pair.link (pass_in self.old) }
    {
        let from = self.starts[pair.set] as usize;
        let to = self.starts[pair.set + 1] as usize;
        for place in self.medial_item_set_range(from, to, pair.symbol) {
            self.enqueue(place, pair.link)?;
        }
        Ok(())
    }
}
