// A way to the rules that begin with one symbol, in number order: the first of each symbol, and the next of each rule.
ghost use Rattle.std.specs.Prelude.{◌≡◌, ℕ, ◌+◌, ◌≤◌, ◌<◌, length, get_or};
ghost use Rattle.grammar.specs.Accepted.{max_rules, max_symbols};
ghost use Rattle.grammar.specs.inner.Checking.{LowSymbols};
ghost use Rattle.grammar.specs.inner.Decoded.{first_in, nexts_at, all_words, FirstFrom, Chained, Links};

use crate::limits::{HEADS, NEXTS};
use crate::rules::Rules;

impl Rules {
    // Links the rules, from the last to the first. A word tells how many rules there are from the one on that it leads to, so that 0 leads
    // behind the last.
    pub fn link(&mut self)
        requires { (self.old.count ≤ max_rules) × LowSymbols self.old.words self.old.count × (length self.old.words ≡ all_words)
            × ((i : ℕ) → nexts_at ≤ i → get_or self.old.words i 0 ≡ 0) }
        ensures { Links self.old.count self.old.words self.new.words × (self.new.count ≡ self.old.count) }
    {
        for r in (0..self.count).rev() {
            let head = HEADS + self.first(r);
            self.words[NEXTS + r] = self.words[head];
            self.words[head] = (self.count - r) as u16;
        }
    }

    // The first rule that begins with `x`, or the count.
    pub fn head(&self, x: usize) -> usize
        requires { Chained self.now.words self.now.count × (x < max_symbols) }
        ensures { FirstFrom self.now.words self.now.count 0 x result }
    {
        self.count - usize::from(self.words[HEADS + x])
    }

    // The next rule behind `r` that begins as it does, or the count.
    pub fn next(&self, r: usize) -> usize
        requires { Chained self.now.words self.now.count × (r < self.now.count) × (self.now.count ≤ max_rules) }
        ensures { FirstFrom self.now.words self.now.count (r + 1) (first_in self.now.words r) result }
    {
        self.count - usize::from(self.words[NEXTS + r])
    }
}
