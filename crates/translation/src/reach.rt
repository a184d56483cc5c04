// Which symbols are reachable from the start symbol.
ghost use Rattle.std.specs.Prelude.{◌≡◌, false, ◌≤◌, ◌<◌, length as length_of};
ghost use Rattle.written.specs.Lists.{Each};
ghost use Rattle.written.specs.Form.{written_of};
ghost use Rattle.written.specs.Refusals.{Reachable};
ghost use Rattle.translation.specs.inner.Symbols.{LowRule};
ghost use Rattle.translation.specs.inner.Marks.{most_symbols, MarksAre, turn, walk, marking, reaching};

use crate::marks::{MOST, Marks};
use crate::rules::{Written, WrittenRule};

// Marks the symbols on the right. Whether one was not marked yet, or `before` said so, as the specs' `marking` begins with what was marked.
fn mark_all(rule: &WrittenRule<'_>, marks: &mut Marks, before: bool) -> bool
    ensures { turn marks.new result ≡ marking (turn marks.old before) rule.now.right }
{
    let mut more = before;
    for x in rule.right() {
        let x = x as usize;
        if !marks[x] {
            marks[x] = true;
            more = true;
        }
    }
    more
}

// One walk over the rules: the symbols of each whose left side is marked are marked. Whether one was not marked yet.
fn reach_once(written: &Written<'_>, marks: &mut Marks) -> bool
    ensures walked { turn marks.new result ≡ walk reaching (turn marks.old false) (written_of written.now).rules }
    ensures low { Each LowRule (written_of written.now).rules }
{
    let mut more = false;
    for rule in written.rules() {
        if marks[rule.left() as usize] {
            more = mark_all(&rule, marks, more);
        }
    }
    more
}

// Marks the reachable symbols: from the start symbol, walk after walk, until one marks nothing.
pub fn reachable(written: &Written<'_>, marks: &mut Marks)
    ensures { MarksAre (Reachable (written_of written.now)) marks.new }
{
    *marks = [false; MOST];
    marks[written.start()] = true;
    while reach_once(written, marks) {}
}
