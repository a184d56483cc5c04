// Tokens, two bytes each, given to a run part by part.
ghost use Rattle.std.specs.Prelude.{◌≡◌, ◌≤◌, length, ltb};
ghost use Rattle.programs.specs.Tokens.{tokens_of};
ghost use Rattle.driver.specs.Parts.{part_bytes, part_tokens};
ghost use Rattle.driver.specs.Writes.{RunsPart, RunsOver};
ghost use Rattle.earley.specs.Positions.{plain};
ghost use Rattle.demands.specs.Calls.{Runs};
ghost use Rattle.parse.specs.Words.{words_in, Kept};
ghost use Rattle.recognizer.specs.Answers.{ended_of};

use parse::{State, Words};
use programs::reading::read_full;
use programs::tokens::decode;
use recognizer::Ran;
use std::io::Read;

// The tokens of a part, and its bytes. Each part costs a check of the grammar, so it is large.
const PART: usize = 32768;

const BYTES: usize = 2 * PART;

// The most parts: no input uses them up, so that the loop ends and the count of tokens stays a word.
const PARTS: usize = usize::MAX / PART;

// Runs one part.
fn run_part(file: &[u8], state: State, words: &mut Words<'_>, part: &[u8]) -> Ran
    requires { length part.now ≤ part_bytes }
    ensures calls { Runs file.now state (words_in words.old) (plain (tokens_of part.now))
        (ended_of result (words_in words.new)) }
    ensures few { result.taken ≤ part_tokens }
    ensures kept { Kept words.old words.new }
{
    let mut tokens = [0u16; PART];
    let count = decode(part, &mut tokens);
    recognizer::run(file, state, words, &tokens[..count])
}

// Whether a part of so many tokens is the last: one that is not full is.
fn is_last(count: usize) -> bool
    ensures { result ≡ ltb count part_tokens }
{
    count < PART
}

// Reads and runs one part.
fn read_part<R: Read>(from: &mut R, file: &[u8], state: State, words: &mut Words<'_>) -> Ran
    ensures read { RunsPart file.now state (words_in words.old) (ended_of result (words_in words.new)) }
    ensures few { result.taken ≤ part_tokens }
    ensures kept { Kept words.old words.new }
{
    let mut part = [0u8; BYTES];
    let count = read_full(from, &mut part);
    run_part(file, state, words, &part[..count])
}

// Reads and runs what is left of the input, up to the first token that is refused.
pub fn read_tokens<R: Read>(from: &mut R, file: &[u8], state: State, words: &mut Words<'_>) -> Ran
    ensures read { RunsOver file.now state (words_in words.old) (ended_of result (words_in words.new)) }
    ensures kept { Kept words.old words.new }
{
    let mut now = state;
    let mut taken = 0;
    // Backwards: what the loop keeps is told by how many parts are left.
    for _ in (0..PARTS).rev() {
        let ran = read_part(from, file, now, words);
        let more = ran.taken;
        taken += more;
        if ran.stopped.is_some() || is_last(more) {
            return Ran { taken, ..ran };
        }
        now = ran.state;
    }
    Ran {
        state: now,
        taken,
        stopped: None,
    }
}
