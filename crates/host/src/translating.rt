// The translator's answers in the host's words.
ghost use Rattle.translation.specs.Answers.{answer_of};
ghost use Rattle.host.specs.Translating.{Tells};

use translation::{Refusal, Translated};

// Puts the length and whether the empty sentence was there into the host's words, and answers the number; a refusal leaves the words.
pub fn tell_translated(
    told: Result<Translated, Refusal>,
    length: &mut usize,
    empty: &mut u32,
) -> u32
    ensures { Tells (answer_of told) length.old empty.old result length.new empty.new }
{
    match told {
        Ok(translated) => {
            *length = translated.length;
            *empty = u32::from(translated.empty);
            0
        }
        Err(refusal) => refusal.number(),
    }
}
