// Marks that grow by the rules until nothing is marked any more: which symbols may be empty, which derive a token string, which stay.
ghost use Rattle.std.specs.Prelude.{◌≡◌, Bool, true, false, ℕ, ◌<◌, length as length_of};
ghost use Rattle.written.specs.Lists.{Each};
ghost use Rattle.written.specs.Written.{MayBeEmpty};
ghost use Rattle.written.specs.Form.{written_of};
ghost use Rattle.written.specs.Refusals.{Nonterminal, Fruitful, Stays};
ghost use Rattle.translation.specs.inner.Symbols.{LowRule};
ghost use Rattle.translation.specs.inner.Marks.{most_symbols, marked, asked, MarksAre, Grown, turn, growing, firing, walk};

use crate::marks::{MOST, Marks, mark_within};
use crate::rules::{Symbols, Written, WrittenRule};

// What is asked of a right side before its left side is marked: that all its symbols are, or some.
trait Asks {
    ghost all: { Bool };

    fn passes(right: Symbols<'_>, marks: &Marks) -> bool
        ensures { result ≡ asked all (marked marks.now) right.entry };
}

struct EveryOne;

struct AnyOne;

impl Asks for EveryOne {
    ghost all = { true };

    fn passes(mut right: Symbols<'_>, marks: &Marks) -> bool {
        right.all(|x| marks[x as usize])
    }
}

impl Asks for AnyOne {
    ghost all = { false };

    fn passes(mut right: Symbols<'_>, marks: &Marks) -> bool {
        right.any(|x| marks[x as usize])
    }
}

// Whether a rule marks its left side: that is not marked yet, and the right side passes.
fn fires<A: Asks>(rule: &WrittenRule<'_>, marks: &Marks) -> bool
    ensures { result ≡ firing A.all marks.now rule.now }
{
    !marks[rule.left() as usize] && A::passes(rule.right(), marks)
}

// One walk over the rules: the left side of each that fires is marked. Whether one did.
fn grow_once<A: Asks>(written: &Written<'_>, marks: &mut Marks) -> bool
    ensures walked { turn marks.new result ≡ walk (growing A.all) (turn marks.old false) (written_of written.now).rules }
    ensures low { Each LowRule (written_of written.now).rules }
{
    let mut more = false;
    for rule in written.rules() {
        if fires::<A>(&rule, marks) {
            marks[rule.left() as usize] = true;
            more = true;
        }
    }
    more
}

// The marks, grown until no rule fires.
fn grow<A: Asks>(written: &Written<'_>, marks: &mut Marks)
    ensures { Grown A.all (written_of written.now) marks.old marks.new }
{
    while grow_once::<A>(written, marks) {}
}

// Marks the symbols that may be empty.
pub fn empties(written: &Written<'_>, marks: &mut Marks)
    ensures { MarksAre (MayBeEmpty (written_of written.now)) marks.new }
{
    *marks = [false; MOST];
    grow::<EveryOne>(written, marks);
}

// Those that derive a token string.
pub fn fruitful(written: &Written<'_>, marks: &mut Marks)
    ensures { MarksAre (Fruitful (written_of written.now)) marks.new }
{
    mark_within(marks, 0, written.tokens());
    grow::<EveryOne>(written, marks);
}

// Those that derive a nonempty one, where every symbol derives one.
pub fn staying(written: &Written<'_>, marks: &mut Marks)
    requires { (a : ℕ) → Nonterminal (written_of written.now) a → Fruitful (written_of written.now) a }
    ensures { MarksAre (Stays (written_of written.now)) marks.new }
{
    mark_within(marks, 0, written.tokens());
    grow::<AnyOne>(written, marks);
}
