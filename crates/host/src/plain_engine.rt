// The plain engine for hosts.
ghost use Rattle.std.specs.Prelude.{◌≡◌};
ghost use Rattle.plain.specs.Answers.{refusal_number, told_number, told_count};
ghost use Rattle.host.specs.PlainEngine.{yes_or, PlainIn};

use crate::parse_words::TOO_SHORT;
use plain::{Refusal, Told};

// The number of a refusal, as the C interface has it.
fn refusal_number(why: Refusal) -> u32
    ensures { result ≡ refusal_number why }
{
    match why {
        Refusal::Malformed => 1,
        Refusal::Broken => 2,
        Refusal::NoToken => 5,
        Refusal::TooMany => 22,
        Refusal::TooShort(_) => TOO_SHORT,
    }
}

// Puts yes or no and the count of words into the host's words, and answers the number; a refusal leaves yes or no as it was.
fn tell_plain(told: Result<Told, Refusal>, yes: &mut u32, count: &mut usize) -> u32
    ensures number { result ≡ told_number told }
    ensures yes { yes.new ≡ yes_or yes.old told }
    ensures count { count.new ≡ told_count told }
{
    match told {
        Ok(done) => {
            *yes = u32::from(done.yes);
            *count = done.words;
            0
        }
        Err(why) => {
            *count = match why {
                Refusal::TooShort(needed) => needed,
                _ => 0,
            };
            refusal_number(why)
        }
    }
}

// Whether the tokens are a sentence, by a table of which symbol derives which stretch of them.
pub fn brinesaddle_plain(
    file: &[u8],
    tokens: &[u16],
    table: &mut [u64],
    yes: &mut u32,
    count: &mut usize,
) -> u32
    ensures { PlainIn file.now tokens.now table.old table.new yes.old result
        yes.new count.new }
{
    tell_plain(plain::plain(file, tokens, table), yes, count)
}
