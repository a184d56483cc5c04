// Which symbols S reaches by the rules.
ghost use Rattle.std.specs.Prelude.{true, false, ◌+◌, ◌≤◌, ◌<◌};
ghost use Rattle.laws.specs.Decides.{Decides};
ghost use Rattle.grammar.specs.Accepted.{max_rules, max_symbols};
ghost use Rattle.grammar.specs.inner.Decoded.{decoded};
ghost use Rattle.grammar.specs.inner.Checking.{LowSymbols, Spreads, AllReachable};

use crate::Grammar;
use crate::limits::SYMBOLS;
use crate::marked::{Marks, all_marked, right_marked};
use crate::rules::Rules;

// Whether rule `r` marks its right side: the left side is marked, and the right side is not yet.
fn spreads(rules: &Rules, marks: &Marks, r: usize) -> bool
    requires { (r < max_rules) × LowSymbols rules.now.words (r + 1) }
    ensures { Decides result (Spreads rules.now.words marks.now r) }
{
    marks[rules.left(r)] && !right_marked(rules, marks, r)
}

// Whether every nonterminal is reachable from S: rounds over the rules, until a round marks nothing.
// The rounds of `all_productive` over another step: one function for both would take the step and what it keeps, and be no plainer.
pub fn all_reachable(grammar: &Grammar) -> bool
    requires { (grammar.now.tokens + 3 ≤ grammar.now.symbols) × (grammar.now.symbols ≤ max_symbols) × (0 < grammar.now.rules.count)
        × (grammar.now.rules.count ≤ max_rules) × LowSymbols grammar.now.rules.words grammar.now.rules.count }
    ensures { Decides result (AllReachable (decoded grammar.now)) }
{
    let rules = &grammar.rules;
    let mut marks = [false; SYMBOLS];
    marks[rules.first(0)] = true;
    // Rounds until one marks nothing: no count.
    loop {
        let mut marked = false;
        for r in 0..rules.count {
            if !spreads(rules, &marks, r) {
                continue;
            }
            marks[rules.first(r)] = true;
            marks[rules.last(r)] = true;
            marked = true;
        }
        if !marked {
            break;
        }
    }
    all_marked(&marks, grammar.tokens, grammar.symbols - 2)
}
