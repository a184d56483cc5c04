// The left sides of the file that are left to be written, and which of them a rule names.
ghost use Rattle.std.specs.Prelude.{◌≡◌, true, ◌≤◌, ◌<◌, set};
ghost use Rattle.grammar.specs.Accepted.{max_symbols, max_rules};
ghost use Rattle.grammar.specs.inner.Decoded.{rules_of as listed};
ghost use Rattle.translation.specs.inner.Marks.{marked};
ghost use Rattle.translation.specs.inner.Sides.{NamedBy, KeptNamed};

use grammar::limits::SYMBOLS;
use grammar::rules::{NONE, Rules};

// A mark for each symbol of the file.
pub type Sides = [bool; SYMBOLS];

// Whether a symbol is marked.
pub fn is_marked(marks: &Sides, a: usize) -> bool
    ensures { result ≡ marked marks.now a }
{
    a < SYMBOLS && marks[a]
}

// Marks a symbol.
fn mark(marks: &mut Sides, a: usize)
    ensures { marks.new ≡ set marks.old a true }
{
    if a < SYMBOLS {
        marks[a] = true;
    }
}

// The symbols that a rule of a left side that is left names.
pub fn named_by(rules: &Rules, left: &Sides) -> Sides
    requires { rules.now.count ≤ max_rules }
    ensures { NamedBy (listed rules.now) left.now result }
{
    let mut named = [false; SYMBOLS];
    for r in 0..rules.count {
        if rules.second(r) == NONE && is_marked(left, rules.left(r)) {
            mark(&mut named, rules.first(r));
        }
    }
    named
}

// Of what is left that is kept that is named.
pub fn keep_named(left: &mut Sides, named: &Sides)
    ensures { KeptNamed left.old named.now left.new }
{
    for a in 0..SYMBOLS {
        if !named[a] {
            left[a] = false;
        }
    }
}
