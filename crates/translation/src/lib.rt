// The translator of written grammars to grammar files, as docs/TRANSLATION.md says it.
#![tactic(auto)]

ghost use Rattle.std.specs.Prelude.{◌≡◌, ◌≤◌};
ghost use Rattle.written.specs.Written.{MayBeEmpty};
ghost use Rattle.written.specs.Form.{end_in, written_of};
ghost use Rattle.written.specs.Refusals.{Stays, Sound};
ghost use Rattle.written.specs.Answers.{Translates};
ghost use Rattle.translation.specs.inner.Marks.{most_symbols, MarksAre};
ghost use Rattle.translation.specs.Answers.{answer_of, Keeps};

mod circular;
mod conditions;
pub mod form;
mod grow;
mod list;
mod marks;
mod places;
mod reach;
mod rules;
mod sides;
mod split;
mod write;

use crate::circular::circular;
use crate::conditions::{all_fruitful, all_reachable};
use crate::grow::{empties, staying};
use crate::list::{Full, RuleList};
use crate::marks::MOST;
use crate::places::{count_new, number};
use crate::rules::Written;
use crate::split::Tests;
use crate::write::write;
use grammar::file::{HEADER, RULE};
use grammar::limits::SYMBOLS;

// What was translated: how long the file is, and whether the empty sentence was there.
#[derive(Clone, Copy, PartialEq, Eq, Debug)]
pub struct Translated {
    pub length: usize,
    pub empty: bool,
}

// Why a written grammar is refused.
#[derive(Clone, Copy, PartialEq, Eq, Debug)]
pub enum Refusal {
    Malformed,
    Circular,
    Barren,
    Unreachable,
    NoSentence,
    NoRoom,
}

impl Refusal {
    ghost use Rattle.translation.specs.Answers.{number_of};

    // Its number.
    pub fn number(self) -> u32
        ensures { result ≡ number_of self }
    {
        match self {
            Refusal::Malformed => 16,
            Refusal::Circular => 17,
            Refusal::Barren => 18,
            Refusal::Unreachable => 19,
            Refusal::NoSentence => 20,
            Refusal::NoRoom => 21,
        }
    }
}

impl From<Full> for Refusal {
    ghost use Rattle.translation.specs.declared.Refusal.TheVariants.{NoRoom};

    ghost from_gives = { λ full refusal. refusal ≡ NoRoom };

    fn from(_: Full) -> Refusal {
        Refusal::NoRoom
    }
}

// Translates what none of 16 to 20 refuses. Nothing is written before there is room for all.
fn translate_sound(
    written: &Written<'_>,
    tests: &Tests<'_>,
    file: &mut [u8],
) -> Result<Translated, Refusal>
    requires { (end_in written.now ≤ most_symbols) × Sound (written_of written.now)
        × MarksAre (Stays (written_of written.now)) tests.now.keep.now
        × MarksAre (MayBeEmpty (written_of written.now)) tests.now.empty.now }
    ensures answers { Translates written.now file.old (answer_of result) file.new }
    ensures promised { Keeps (written_of written.now) (answer_of result) file.new }
{
    let first = number(tests.keep, written.end());
    let wrapper = first + count_new(written, tests.keep);
    if SYMBOLS < wrapper + 2 {
        return Err(Refusal::NoRoom);
    }
    let mut list = RuleList::new();
    split::list(written, tests, first, &mut list)?;
    let length = HEADER + RULE * (list.rules.count + 1);
    if file.len() < length {
        return Err(Refusal::NoRoom);
    }
    let s = written.start();
    write(
        file,
        &list.rules,
        written.tokens(),
        number(tests.keep, s),
        wrapper,
    );
    Ok(Translated {
        length,
        empty: tests.empty[s],
    })
}

// Translates a written grammar. Marks of 64 KiB each are used again for one question after the other: three of them are all that the
// stack holds. The file stands in the first bytes of `file`, and those behind it stay as they were. A refusal leaves all of them.
pub fn translate(written: &[u8], file: &mut [u8]) -> Result<Translated, Refusal>
    ensures answers { Translates written.now file.old (answer_of result) file.new }
    ensures promised { Keeps (written_of written.now) (answer_of result) file.new }
{
    let Some(written) = Written::read(written) else {
        return Err(Refusal::Malformed);
    };
    let mut empty = [false; MOST];
    let mut keep = [false; MOST];
    let mut other = [false; MOST];
    empties(&written, &mut empty);
    if circular(&written, &empty, &mut keep, &mut other) {
        return Err(Refusal::Circular);
    }
    if !all_fruitful(&written, &mut keep) {
        return Err(Refusal::Barren);
    }
    if !all_reachable(&written, &mut keep) {
        return Err(Refusal::Unreachable);
    }
    staying(&written, &mut keep);
    if !keep[written.start()] {
        return Err(Refusal::NoSentence);
    }
    let tests = Tests {
        keep: &keep,
        empty: &empty,
    };
    translate_sound(&written, &tests, file)
}
