// Which symbols derive some string of tokens.
ghost use Rattle.std.specs.Prelude.{true, false, ◌+◌, ◌≤◌, ◌<◌};
ghost use Rattle.laws.specs.Decides.{Decides};
ghost use Rattle.grammar.specs.Accepted.{max_rules, max_symbols};
ghost use Rattle.grammar.specs.inner.Decoded.{decoded};
ghost use Rattle.grammar.specs.inner.Checking.{LowSymbols, Fires, AllProductive, TokensMarked};

use crate::Grammar;
use crate::limits::SYMBOLS;
use crate::marked::{Marks, all_marked, right_marked};
use crate::rules::Rules;

// The tokens marked.
fn mark_tokens(t: usize) -> Marks
    requires { t ≤ max_symbols }
    ensures { TokensMarked t result }
{
    let mut marks = [false; SYMBOLS];
    marks[..t].fill(true);
    marks
}

// Whether rule `r` marks its left side: the right side is marked, and the left side is not yet.
fn fires(rules: &Rules, marks: &Marks, r: usize) -> bool
    requires { (r < max_rules) × LowSymbols rules.now.words (r + 1) }
    ensures { Decides result (Fires rules.now.words marks.now r) }
{
    !marks[rules.left(r)] && right_marked(rules, marks, r)
}

// Whether every nonterminal derives some string of tokens: rounds over the rules, until a round marks nothing.
pub fn all_productive(grammar: &Grammar) -> bool
    requires { (grammar.now.tokens + 3 ≤ grammar.now.symbols) × (grammar.now.symbols ≤ max_symbols) × (grammar.now.rules.count ≤ max_rules)
        × LowSymbols grammar.now.rules.words grammar.now.rules.count }
    ensures { Decides result (AllProductive (decoded grammar.now)) }
{
    let rules = &grammar.rules;
    let mut marks = mark_tokens(grammar.tokens);
    // Rounds until one marks nothing: no count.
    loop {
        let mut marked = false;
        for r in 0..rules.count {
            if !fires(rules, &marks, r) {
                continue;
            }
            marks[rules.left(r)] = true;
            marked = true;
        }
        if !marked {
            break;
        }
    }
    all_marked(&marks, grammar.tokens, grammar.symbols - 2)
}
