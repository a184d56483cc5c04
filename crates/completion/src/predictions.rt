// Completing the rules that begin with a symbol and whose left side is predicted.
ghost use Rattle.std.specs.Prelude.{◌≡◌, ◌<◌, ◌^◌};
ghost use Rattle.grammar.specs.Accepted.{max_symbols};
ghost use Rattle.grammar.specs.inner.Decoded.{first_in, Chained};
ghost use Rattle.completion.specs.Lent.{its_rules, pass_in, after, Kept};
ghost use Rattle.completion.specs.inner.Ready.{RulesFit, HasRow, PassFits};
ghost use Rattle.completion.specs.Complete.{waits, complete_unary, complete_unary_predictions};
ghost use Rattle.completion.specs.Complete.{complete_binary, complete_binary_predictions};

use crate::Pair;
use crate::pass::{Full, Pass};
use grammar::rules::NONE;
use item::Item;
use node::factor::NO_FACTOR;

// The item of rule `r` with a pair behind it: of the pair's set for an origin, and with the link for its handle.
fn begun(pair: Pair, r: usize) -> Item
    requires { (pair.set < 2 ^ 32) × (r < 2 ^ 32) }
    ensures { (result.origin ≡ pair.set) × (result.rule ≡ r) × (result.handle ≡ pair.link) }
{
    Item {
        origin: pair.set as u32,
        rule: r as u32,
        handle: pair.link,
    }
}

impl Pass<'_> {
    // Whether rule `r`, which begins with the symbol, waits for it: its left side is predicted at the set.
    fn waits(&self, pair: Pair, r: usize) -> bool
        requires { RulesFit (its_rules self.now) × HasRow self.now.rows.now pair.set × (r < self.now.rules.now.count)
            × (first_in self.now.rules.now.words r ≡ pair.symbol) }
        ensures { result ≡ waits (its_rules self.now) self.now.rows.now pair.set pair.symbol r }
    {
        bits::has_at(self.rows, pair.set, self.rules.left(r))
    }

    // Stores and queues rule `r`, which begins with the symbol, if it waits for it alone.
    fn complete_unary(&mut self, pair: Pair, r: usize) -> Result<(), Full>
        requires { RulesFit (its_rules self.old) × HasRow self.old.rows.now pair.set × (r < self.old.rules.now.count)
            × PassFits (pass_in self.old) × (first_in self.old.rules.now.words r ≡ pair.symbol) }
        ensures kept { Kept self.old self.new }
        ensures pass { after result self.new ≡ complete_unary (its_rules self.old) self.old.rows.now
            pair.set pair.symbol pair.link r (pass_in self.old) }
    {
        if self.rules.second(r) != NONE || !self.waits(pair, r) {
            return Ok(());
        }
        let place = self.stored;
        self.store(begun(pair, r))?;
        // In the words of the queue all ones stand for no right factor.
        self.enqueue(place, NO_FACTOR)
    }

    // Stores and queues each rule that waits for the symbol alone.
    pub fn complete_unary_predictions(&mut self, pair: Pair) -> Result<(), Full>
        requires { RulesFit (its_rules self.old) × HasRow self.old.rows.now pair.set × PassFits (pass_in self.old)
            × Chained self.old.rules.now.words self.old.rules.now.count × (pair.symbol < max_symbols) }
        ensures kept { Kept self.old self.new }
        ensures pass { after result self.new ≡ complete_unary_predictions (its_rules self.old) self.old.rows.now
            pair.set pair.symbol pair.link (pass_in self.old) }
    {
        let mut r = self.rules.head(pair.symbol);
        // The rules of a chain are no range: each names the next. An iterator over it would be longer than both walks.
        while r < self.rules.count {
            self.complete_unary(pair, r)?;
            r = self.rules.next(r);
        }
        Ok(())
    }

    // Stores rule `r`, which begins with the symbol, if it waits for it and another symbol behind it.
    fn complete_binary(&mut self, pair: Pair, r: usize) -> Result<(), Full>
        requires { RulesFit (its_rules self.old) × HasRow self.old.rows.now pair.set × (r < self.old.rules.now.count)
            × (first_in self.old.rules.now.words r ≡ pair.symbol) }
        ensures kept { Kept self.old self.new }
        ensures pass { after result self.new ≡ complete_binary (its_rules self.old) self.old.rows.now
            pair.set pair.symbol pair.link r (pass_in self.old) }
        ensures queue { self.new.queue.now ≡ self.old.queue.now }
    {
        if self.rules.second(r) == NONE || !self.waits(pair, r) {
            return Ok(());
        }
        self.store(begun(pair, r))
    }

    // Stores each rule that waits for the symbol and another symbol behind it.
    pub fn complete_binary_predictions(&mut self, pair: Pair) -> Result<(), Full>
        requires { RulesFit (its_rules self.old) × HasRow self.old.rows.now pair.set
            × Chained self.old.rules.now.words self.old.rules.now.count × (pair.symbol < max_symbols) }
        ensures kept { Kept self.old self.new }
        ensures pass { after result self.new ≡ complete_binary_predictions (its_rules self.old) self.old.rows.now
            pair.set pair.symbol pair.link (pass_in self.old) }
        ensures queue { self.new.queue.now ≡ self.old.queue.now }
    {
        let mut r = self.rules.head(pair.symbol);
        // The chain again: a walk for both would take its step as a closure that is lent the pass, which is no plainer.
        while r < self.rules.count {
            self.complete_binary(pair, r)?;
            r = self.rules.next(r);
        }
        Ok(())
    }
}
