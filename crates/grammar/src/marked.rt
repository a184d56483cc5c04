// Marks, one a symbol.
ghost use Rattle.std.specs.Prelude.{true, false, ◌+◌, ◌≤◌, ◌<◌};
ghost use Rattle.laws.specs.Decides.{Decides};
ghost use Rattle.grammar.specs.Accepted.{max_rules, max_symbols};
ghost use Rattle.grammar.specs.inner.Checking.{LowSymbols, RightMarked, AllMarked};

use crate::limits::SYMBOLS;
use crate::rules::Rules;

// A mark for each symbol.
pub type Marks = [bool; SYMBOLS];

// Whether every symbol on the right of rule `r` is marked.
pub fn right_marked(rules: &Rules, marks: &Marks, r: usize) -> bool
    requires { (r < max_rules) × LowSymbols rules.now.words (r + 1) }
    ensures { Decides result (RightMarked rules.now.words marks.now r) }
{
    marks[rules.first(r)] && marks[rules.last(r)]
}

// Whether all symbols from `from` up to `to` are marked.
pub fn all_marked(marks: &Marks, from: usize, to: usize) -> bool
    requires { to ≤ max_symbols }
    ensures { Decides result (AllMarked marks.now from to) }
{
    to <= from || marks[from..to].iter().all(|mark| *mark)
}
