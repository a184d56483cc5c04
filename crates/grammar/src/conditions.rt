// What the check asks of the header's numbers, of rule 0 and of each other rule.
ghost use Rattle.std.specs.Prelude.{◌≡◌, ◌+◌, ◌≤◌, ◌<◌};
ghost use Rattle.laws.specs.Decides.{Decides};
ghost use Rattle.grammar.specs.Accepted.{max_rules, max_symbols};
ghost use Rattle.grammar.specs.inner.Checking.{Sized, Wraps, Drawn, Adjoins, Precedes, Ruled, Met};
ghost use Rattle.grammar.specs.inner.Decoded.{left_in, first_in};

use crate::Grammar;
use crate::limits::{RULES, SYMBOLS};
use crate::marked::Marks;
use crate::rules::{NONE, Rules};

// Whether T ≥ 1, and N and R are within their limits.
pub fn sized(n: usize, t: usize, count: usize) -> bool
    requires { t < 65536 }
    ensures { Decides result (Sized n t count) }
{
    1 <= t && t + 3 <= n && n <= SYMBOLS && 1 <= count && count <= RULES
}

// Whether rule 0 is W ::= S end with S a nonterminal.
pub fn wraps(grammar: &Grammar) -> bool
    requires { grammar.now.tokens + 3 ≤ grammar.now.symbols }
    ensures { Decides result (Wraps grammar.now.rules.words grammar.now.symbols grammar.now.tokens) }
{
    let n = grammar.symbols;
    let start = grammar.rules.first(0);
    grammar.rules.left(0) == n - 2
        && grammar.rules.second(0) == n - 1
        && grammar.tokens <= start
        && start < n - 2
}

// Whether rule `r` has a nonterminal on the left and only symbols 0..N-3 on the right.
fn drawn(grammar: &Grammar, r: usize) -> bool
    requires { (grammar.now.tokens + 3 ≤ grammar.now.symbols) × (r < max_rules) }
    ensures { Decides result (Drawn grammar.now.rules.words grammar.now.symbols grammar.now.tokens r) }
{
    let wrapper = grammar.symbols - 2;
    let a = grammar.rules.left(r);
    let c = grammar.rules.second(r);
    grammar.tokens <= a
        && a < wrapper
        && grammar.rules.first(r) < wrapper
        && (c == NONE || c < wrapper)
}

// Whether rule `r` goes on its left side's block or begins it. The left sides of the rules below it are marked.
fn adjoins(rules: &Rules, met: &Marks, r: usize) -> bool
    requires { (0 < r) × (r < max_rules) × (left_in rules.now.words r < max_symbols) × Met rules.now.words r met.now }
    ensures { Decides result (Adjoins rules.now.words r) }
{
    let a = rules.left(r);
    rules.left(r - 1) == a || !met[a]
}

// Whether no rule of B stands up to rule `r`, where that is A ::= B alone. The left sides of the rules up to it are marked.
fn precedes(rules: &Rules, met: &Marks, r: usize) -> bool
    requires { (r < max_rules) × (first_in rules.now.words r < max_symbols) × Met rules.now.words (r + 1) met.now }
    ensures { Decides result (Precedes rules.now.words r) }
{
    rules.second(r) != NONE || !met[rules.first(r)]
}

// Whether every rule but rule 0 is so. Left sides are marked as they are met.
pub fn ruled(grammar: &Grammar) -> bool
    requires { (grammar.now.tokens + 3 ≤ grammar.now.symbols) × (grammar.now.symbols ≤ max_symbols) × (grammar.now.rules.count ≤ max_rules)
        × (left_in grammar.now.rules.words 0 < max_symbols) }
    ensures { Decides result (Ruled grammar.now.rules.words grammar.now.symbols grammar.now.tokens grammar.now.rules.count) }
{
    let rules = &grammar.rules;
    let mut met = [false; SYMBOLS];
    met[rules.left(0)] = true;
    for r in 1..rules.count {
        if !drawn(grammar, r) || !adjoins(rules, &met, r) {
            return false;
        }
        met[rules.left(r)] = true;
        if !precedes(rules, &met, r) {
            return false;
        }
    }
    true
}
