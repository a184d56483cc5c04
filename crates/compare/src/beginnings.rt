// The two engines on every beginning of the tokens, the empty one first, up to the first on which they part.
ghost use Rattle.std.specs.Prelude.{◌≡◌, ◌≤◌, length};
ghost use Rattle.laws.specs.Decides.{Decides};
ghost use Rattle.grammar.specs.File.{grammar_of};
ghost use Rattle.demands.specs.Calls.{Checked};
ghost use Rattle.recognizer.specs.Answers.{stop_number};
ghost use Rattle.compare.specs.Engines.{most_tokens};
ghost use Rattle.compare.specs.Compares.{NoRoom, parted, Compares};

use crate::engines::{main_says, plain_says};
use recognizer::Refusal;

// One of the two engines.
#[derive(Clone, Copy, PartialEq, Eq, Debug)]
pub enum Engine {
    Main,
    Plain,
}

// On how many beginnings they agreed; the main engine's refusal, if any; and where they part, on the beginning behind those, which says yes.
#[derive(Clone, Copy)]
pub struct Compared {
    pub agreed: usize,
    pub stopped: Option<Refusal>,
    pub parting: Option<Engine>,
}

// Whether a parse was refused for want of room.
fn no_room(stopped: Option<Refusal>) -> bool
    ensures { Decides result (NoRoom (stop_number stopped)) }
{
    let Some(why) = stopped else {
        return false;
    };
    matches!(
        why,
        Refusal::ItemsFull | Refusal::QueueFull | Refusal::SetsFull | Refusal::StoreFull
    )
}

// The engine that says yes where they part and the main engine says `yes`.
fn part(yes: bool) -> Engine
    ensures { result ≡ parted yes }
{
    if yes { Engine::Main } else { Engine::Plain }
}

// Compares them. Behind a refusal 5 or 6 the main engine says no to every longer beginning; one for want of room ends the comparison.
pub fn compare(file: &[u8], tokens: &[u16]) -> Compared
    requires { Checked file.now (grammar_of file.now) × (length tokens.now ≤ most_tokens) }
    ensures { Compares file.now tokens.now result.agreed (stop_number result.stopped) result.parting }
{
    let mut stopped = None;
    for agreed in 0..=tokens.len() {
        let main = main_says(file, &tokens[..agreed]);
        stopped = main.stopped;
        if no_room(stopped) {
            return Compared {
                agreed,
                stopped,
                parting: None,
            };
        }
        if main.yes != plain_says(file, &tokens[..agreed]) {
            return Compared {
                agreed,
                stopped,
                parting: Some(part(main.yes)),
            };
        }
    }
    Compared {
        agreed: tokens.len() + 1,
        stopped,
        parting: None,
    }
}
