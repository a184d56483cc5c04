// Rules in words: left side, first and second of rule r at 3r, 3r + 1 and 3r + 2.
ghost use Rattle.std.specs.Prelude.{◌≡◌, ◌+◌, ◌*◌, ◌≤◌, ◌<◌, length, replicate};
ghost use Rattle.grammar.specs.Accepted.{max_rules};
ghost use Rattle.grammar.specs.File.{header_bytes, rule_bytes, symbols_of, tokens_of, rule_count_of};
ghost use Rattle.grammar.specs.inner.Checking.{Last};
ghost use Rattle.grammar.specs.inner.Decoded.{left_in, first_in, second_in, all_words, DecodedRules, Pushed};

use crate::Grammar;
use crate::file::{HEADER, RULE, rule_count, symbols, tokens, u16_at};
use crate::limits::{EACH, WORDS};

// What stands for the second symbol of a rule that has one symbol. No Option: the file, the words and the laws (`none`) have this number.
pub const NONE: usize = 65535;

// The words of the rules, and behind them those of their chains. And how many rules there are.
// No invariant bounds `count`: `left`, `first`, `second`, `last` and parse's `precedes` ask nothing of it, and the type
// may ask no more than they.
#[derive(Clone, Copy)]
pub struct Rules {
    pub words: [u16; WORDS],
    pub count: usize,
}

impl Rules {
    // No rule, and every word 0.
    pub fn new() -> Rules
        ensures { (result.words ≡ replicate all_words 0) × (result.count ≡ 0) }
    {
        Rules {
            words: [0; WORDS],
            count: 0,
        }
    }

    // The left side of rule `r`.
    pub fn left(&self, r: usize) -> usize
        requires { r < max_rules }
        ensures { (result ≡ left_in self.now.words r) × (result < 65536) }
    {
        usize::from(self.words[EACH * r])
    }

    // The first symbol of rule `r`.
    pub fn first(&self, r: usize) -> usize
        requires { r < max_rules }
        ensures { (result ≡ first_in self.now.words r) × (result < 65536) }
    {
        usize::from(self.words[EACH * r + 1])
    }

    // The second symbol of rule `r`, or `NONE`.
    pub fn second(&self, r: usize) -> usize
        requires { r < max_rules }
        ensures { (result ≡ second_in self.now.words r) × (result < 65536) }
    {
        usize::from(self.words[EACH * r + 2])
    }

    // The last symbol on the right of rule `r`: the second, or the first where there is no second.
    pub fn last(&self, r: usize) -> usize
        requires { r < max_rules }
        ensures { Last self.now.words r result }
    {
        let c = self.second(r);
        if c == NONE {
            return self.first(r);
        }
        c
    }

    // One rule more, behind the others.
    // Three numbers and no struct: the words stand one by one, and both callers have the three by themselves.
    pub fn push(&mut self, left: usize, first: usize, second: usize)
        requires { (self.old.count < max_rules) × (length self.old.words ≡ all_words)
            × (left < 65536) × (first < 65536) × (second < 65536) }
        ensures { Pushed self.old left first second self.new }
    {
        let at = EACH * self.count;
        self.words[at] = left as u16;
        self.words[at + 1] = first as u16;
        self.words[at + 2] = second as u16;
        self.count += 1;
    }
}

// The grammar of a file that is whole and has few enough rules.
pub fn decode(file: &[u8]) -> Grammar
    requires { (header_bytes + rule_bytes * rule_count_of file.now ≤ length file.now)
        × (rule_count_of file.now ≤ max_rules) }
    ensures rules { DecodedRules file.now result.rules.words × (result.rules.count ≡ rule_count_of file.now) }
    ensures numbers { (result.symbols ≡ symbols_of file.now) × (result.tokens ≡ tokens_of file.now) }
{
    let mut grammar = Grammar::new();
    grammar.symbols = symbols(file);
    grammar.tokens = tokens(file);
    for r in 0..rule_count(file) {
        let at = HEADER + RULE * r;
        grammar.rules.push(u16_at(file, at), u16_at(file, at + 2), u16_at(file, at + 4));
    }
    grammar
}
