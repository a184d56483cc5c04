// A grammar of the written form, its rules and their symbols, read in place.
ghost use Rattle.std.specs.Prelude.{◌≡◌, ℕ, List, ◌+◌, ◌*◌, ◌≤◌, ◌<◌, length as length_of};
ghost use Rattle.std.specs.Option.{MatchOption};
ghost use Rattle.std.specs.Iterator.{YieldsFirst, YieldsFirstBy, item_count};
ghost use Rattle.written.specs.Written.{WrittenRule as SpecRule};
ghost use Rattle.written.specs.Lists.{Each};
ghost use Rattle.translation.specs.inner.Symbols.{Narrow, LowRule};
ghost use Rattle.written.specs.Form.{Formed, RuleStands, RulesStand, written_of, tokens_in, end_in, start_in, longest};
ghost use Rattle.written.specs.Form.{symbols_at, rule_at, rules_at};

use crate::form;
use crate::form::{HEAD, HEADER};
use grammar::file::u16_at;
use std::marker::Model;

// Symbols in two bytes each, one behind the other. A clause sees those that are still to come.
#[derive(Drop)]
pub struct Symbols<'a> {
    bytes: &'a [u8],
    at: usize,
    left: usize,
}

impl<'a> Model for Symbols<'a> {
    ghost Value = { List ℕ };

    ghost view = { λ s. symbols_at s.bytes.now s.at s.left };

    ghost invariant = { λ s. s.at + 2 * s.left ≤ length_of s.bytes.now };
}

impl<'a> Symbols<'a> {
    // The `n` symbols at `at`.
    pub fn new(bytes: &'a [u8], at: usize, n: usize) -> Symbols<'a>
        requires { at + 2 * n ≤ length_of bytes.now }
        ensures { result ≡ symbols_at bytes.now at n }
    {
        Symbols { bytes, at, left: n }
    }
}

impl<'a> Iterator for Symbols<'a> {
    type Item = u16;

    ghost next_gives = { YieldsFirst (λ s. s) };

    ghost remaining = { item_count (λ s. s) };

    // Places are counted by hand here and in the rules' `next` alone: the specs name a symbol and a rule by its place in the bytes.
    fn next(&mut self) -> Option<u16> {
        if self.left == 0 {
            return None;
        }
        let x = u16_at(self.bytes, self.at) as u16;
        self.at += 2;
        self.left -= 1;
        Some(x)
    }
}

// A rule. A clause sees it as it is written.
#[derive(Drop)]
pub struct WrittenRule<'a> {
    bytes: &'a [u8],
    at: usize,
}

impl<'a> Model for WrittenRule<'a> {
    ghost Value = { SpecRule };

    ghost view = { λ r. rule_at r.bytes.now r.at };

    ghost invariant = { λ r. RuleStands r.bytes.now r.at };
}

impl<'a> WrittenRule<'a> {
    // The symbol on its left side.
    pub fn left(&self) -> u16
        ensures { result ≡ self.now.left }
    {
        u16_at(self.bytes, self.at) as u16
    }

    // Those on its right side, 16 at most.
    pub fn right(&self) -> Symbols<'a>
        ensures { (result ≡ self.now.right) × (length_of self.now.right ≤ longest) }
    {
        Symbols::new(self.bytes, self.at + HEAD, u16_at(self.bytes, self.at + 2))
    }
}

// Rules, one behind the other. A clause sees those that are still to come.
#[derive(Drop)]
pub struct WrittenRules<'a> {
    bytes: &'a [u8],
    at: usize,
    left: usize,
}

impl<'a> Model for WrittenRules<'a> {
    ghost Value = { List SpecRule };

    ghost view = { λ r. rules_at r.bytes.now r.at r.left };

    ghost invariant = { λ r. RulesStand r.bytes.now r.at r.left };
}

impl<'a> Iterator for WrittenRules<'a> {
    type Item = WrittenRule<'a>;

    ghost next_gives = { YieldsFirst (λ s. s) };

    ghost remaining = { item_count (λ s. s) };

    fn next(&mut self) -> Option<WrittenRule<'a>> {
        if self.left == 0 {
            return None;
        }
        let at = self.at;
        self.at = form::next(self.bytes, at);
        self.left -= 1;
        Some(WrittenRule {
            bytes: self.bytes,
            at,
        })
    }
}

// Bytes of the form. A clause sees the bytes.
#[derive(Drop)]
pub struct Written<'a> {
    bytes: &'a [u8],
}

impl<'a> Model for Written<'a> {
    ghost Value = { List ℕ };

    ghost view = { λ w. w.bytes.now };

    ghost invariant = { λ w. Formed w.bytes.now × Narrow w.bytes.now };
}

impl<'a> Written<'a> {
    // None where they are not of the form.
    pub fn read(bytes: &'a [u8]) -> Option<Written<'a>>
        ensures { MatchOption result (Formed bytes.now → ⊥) (λ written. (written ≡ bytes.now) × Formed written) }
    {
        if !form::formed(bytes) {
            return None;
        }
        Some(Written { bytes })
    }

    // T, the number of tokens.
    pub fn tokens(&self) -> usize
        ensures { (result ≡ tokens_in self.now) × (result < 65536) × Formed self.now }
    {
        form::tokens(self.bytes)
    }

    // T+M, the number of tokens and nonterminals.
    pub fn end(&self) -> usize
        ensures { (result ≡ end_in self.now) × (result < 131072) × Formed self.now × Narrow self.now }
    {
        form::end(self.bytes)
    }

    // S, the start symbol.
    pub fn start(&self) -> usize
        ensures { (result ≡ start_in self.now) × (result < 65536) }
    {
        form::start(self.bytes)
    }

    // The rules, in their order.
    pub fn rules(&self) -> WrittenRules<'a>
        ensures rules { result ≡ (written_of self.now).rules }
        ensures low { Each LowRule result }
        ensures few { length_of result < 65536 }
    {
        WrittenRules {
            bytes: self.bytes,
            at: HEADER,
            left: form::rule_count(self.bytes),
        }
    }
}
