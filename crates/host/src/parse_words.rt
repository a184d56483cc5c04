// A parse's answers in the host's words.
ghost use Rattle.std.specs.Prelude.{◌≡◌, [], ◌∷◌, min};
ghost use Rattle.laws.specs.Counts.{once};
ghost use Rattle.parse.specs.Words.{Kept, words_in};
ghost use Rattle.demands.specs.Calls.{Takes};
ghost use Rattle.demands.specs.Sentences.{PositionTells};
ghost use Rattle.host.specs.Answers.{state_in};
ghost use Rattle.reports.specs.Answers.{filled_number, filled_count};
ghost use Rattle.recognizer.specs.Answers.{number_of, stop_number, state_of, outcome_of, says_yes, says_handle};

use parse::{State, Words};
use recognizer::{Ran, Refusal};
use reports::Unfilled;

// The state that the host's three words are.
pub fn state(set: usize, held: usize, used: usize) -> State
    ensures { result ≡ state_in set held used }
{
    State {
        set,
        items: held,
        used,
    }
}

// The token that stands for a number at the door. No grammar has as many tokens, so that numbers past a u16 may share one.
fn narrow(t: u32) -> u16
    ensures { result ≡ min t 65535 }
{
    u16::try_from(t).unwrap_or(65535)
}

// Reads one token. Every number is a token here.
pub fn wide_token(
    file: &[u8],
    state: State,
    words: &mut Words<'_>,
    t: u32,
) -> Result<State, Refusal>
    ensures kept { Kept words.old words.new }
    ensures calls { Takes file.now state (words_in words.old) (t ∷ []) (outcome_of state result (words_in words.new)) }
    ensures sentences { PositionTells file.now state (words_in words.old) (t ∷ []) (number_of result) }
{
    recognizer::token(file, state, words, narrow(t))
}

// Puts the state of an answer into the host's words, and answers its number. A refusal leaves the words.
pub fn tell(
    answer: Result<State, Refusal>,
    set: &mut usize,
    held: &mut usize,
    used: &mut usize,
) -> u32
    ensures number { result ≡ number_of answer }
    ensures state { state_in set.new held.new used.new ≡ state_of (state_in set.old held.old used.old) answer }
{
    match answer {
        Ok(state) => {
            *set = state.set;
            *held = state.items;
            *used = state.used;
            0
        }
        Err(why) => why.number(),
    }
}

// Puts the state of a run and the count of positions taken into the host's words, and answers its number.
pub fn tell_run(
    ran: Ran,
    set: &mut usize,
    held: &mut usize,
    used: &mut usize,
    taken: &mut usize,
) -> u32
    ensures number { result ≡ stop_number ran.stopped }
    ensures state { state_in set.new held.new used.new ≡ ran.state }
    ensures taken { taken.new ≡ ran.taken }
{
    *set = ran.state.set;
    *held = ran.state.items;
    *used = ran.state.used;
    *taken = ran.taken;
    ran.stopped.map_or(0, |why| why.number())
}

// The handle where there is none, as the C interface has it.
const NO_HANDLE: u32 = 0xFFFF_FFFF;

// Puts what finished says into the host's words, and answers its number.
pub fn tell_whether(whether: Result<Option<u32>, Refusal>, yes: &mut u32, handle: &mut u32) -> u32
    ensures number { result ≡ number_of whether }
    ensures yes { yes.new ≡ once (says_yes whether) }
    ensures handle { handle.new ≡ says_handle whether }
{
    match whether {
        Ok(Some(found)) => {
            *yes = 1;
            *handle = found;
            0
        }
        Ok(None) => {
            *yes = 0;
            *handle = NO_HANDLE;
            0
        }
        Err(why) => {
            *yes = 0;
            *handle = NO_HANDLE;
            why.number()
        }
    }
}

// The number of a place that is too short, as the C interface has it.
pub const TOO_SHORT: u32 = 13;

// Puts the count of a report into the host's word, and answers its number.
pub fn tell_count(filled: Result<usize, Unfilled>, count: &mut usize) -> u32
    ensures number { result ≡ filled_number filled }
    ensures count { count.new ≡ filled_count filled }
{
    match filled {
        Ok(written) => {
            *count = written;
            0
        }
        Err(Unfilled::TooShort(needed)) => {
            *count = needed;
            TOO_SHORT
        }
        Err(Unfilled::Refused(why)) => {
            *count = 0;
            why.number()
        }
    }
}
