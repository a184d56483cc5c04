// The lines of the comparison, written into lent bytes.
ghost use Rattle.std.specs.Prelude.{[], ◌+◌, ◌≤◌, length, take};
ghost use Rattle.io.specs.Counts.{IsPrefixLen};
ghost use Rattle.programs.specs.Text.{Line, text_room};
ghost use Rattle.recognizer.specs.Answers.{stop_number};
ghost use Rattle.compare.specs.Text.{tokens_head, parting_room, Parts, Lines};

use crate::beginnings::{Compared, Engine};
use programs::text::{STOPPED, put, put_line};

// The heads of the lines.
const COMPARED: [u8; 9] = *b"compared ";

const DISAGREEMENT: [u8; 13] = *b"disagreement ";

const TOKENS: [u8; 7] = *b"tokens ";

// The number of too many tokens, as the C interface has it.
const TOO_MANY: usize = 22;

// The lines that have no number.
const NONE: [u8; 18] = *b"disagreement none\n";

const MAIN_YES: [u8; 18] = *b"main yes\nplain no\n";

const PLAIN_YES: [u8; 18] = *b"main no\nplain yes\n";

// The lines on the engine that says yes where they part, on the beginning of so many tokens, at `at`; answers the place behind them, as
// `programs::text::put` does.
fn put_parting(out: &mut [u8], at: usize, tokens: usize, parting: Option<Engine>) -> usize
    requires { at + parting_room ≤ length out.old }
    ensures place { result ≤ at + parting_room }
    ensures text { Parts (take at out.old) tokens parting (take result out.new) }
{
    let Some(engine) = parting else {
        return put(out, at, &NONE);
    };
    let behind = put_line(out, at, &DISAGREEMENT, tokens);
    match engine {
        Engine::Main => put(out, behind, &MAIN_YES),
        Engine::Plain => put(out, behind, &PLAIN_YES),
    }
}

// The lines on a comparison; answers how long they are.
pub fn report(out: &mut [u8], compared: Compared) -> usize
    requires { text_room ≤ length out.old }
    ensures place { IsPrefixLen result out.new }
    ensures text { Lines compared.agreed (stop_number compared.stopped) compared.parting (take result out.new) }
{
    let stopped = compared.stopped.map_or(0, |why| why.number() as usize);
    let first = put_line(out, 0, &COMPARED, compared.agreed);
    let second = put_line(out, first, &STOPPED, stopped);
    put_parting(out, second, compared.agreed, compared.parting)
}

// The line on too many tokens.
pub fn too_many(out: &mut [u8]) -> usize
    requires { text_room ≤ length out.old }
    ensures place { IsPrefixLen result out.new }
    ensures text { Line [] tokens_head 22 (take result out.new) }
{
    put_line(out, 0, &TOKENS, TOO_MANY)
}
