// A second engine, for auditors: up to 64 tokens, and a table of which symbol derives which stretch of them. No sets, no queue, no prediction.
#![tactic(auto)]

ghost use Rattle.std.specs.Prelude.{◌≡◌};
ghost use Rattle.laws.specs.Decides.{Decides};
ghost use Rattle.grammar.specs.Accepted.{Accepted};
ghost use Rattle.grammar.specs.File.{grammar_of};
ghost use Rattle.grammar.specs.inner.Decoded.{decoded};
ghost use Rattle.plain.specs.Calls.{Ordinary, Settles, Tables, Tells};
ghost use Rattle.plain.specs.Answers.{told_number, told_count, says_yes, of_fault};

mod fill;
mod places;
mod rows;

use crate::fill::fill;
use crate::places::{TOKENS, place, stretches_up_to};
use crate::rows::{WIDTH, has};
use grammar::{Fault, Grammar};

// Why the call is refused; of a table that is too short, how many words it would need.
#[derive(Clone, Copy, PartialEq, Eq, Debug)]
pub enum Refusal {
    Malformed,
    Broken,
    NoToken,
    TooMany,
    TooShort(usize),
}

// The main engine's refusal has this too: this engine shares nothing but `grammar` with it.
impl From<Fault> for Refusal {
    ghost from_gives = { λ fault why. why ≡ of_fault fault };

    fn from(fault: Fault) -> Refusal {
        match fault {
            Fault::Malformed => Refusal::Malformed,
            Fault::Broken => Refusal::Broken,
        }
    }
}

// What the call answers: whether the tokens are a sentence, and how many words the table has.
#[derive(Clone, Copy, PartialEq, Eq, Debug)]
pub struct Told {
    pub yes: bool,
    pub words: usize,
}

// Whether every token is below `end`.
fn ordinary(tokens: &[u16], end: usize) -> bool
    ensures { Decides result (Ordinary end tokens.now) }
{
    tokens.iter().all(|token| usize::from(*token) < end)
}

// Settles every stretch of the tokens, and tells whether the whole is one that S derives.
fn settle(grammar: &Grammar, tokens: &[u16], table: &mut [u64]) -> Result<Told, Refusal>
    requires { Accepted (decoded grammar.now) }
    ensures table { Settles (decoded grammar.now) tokens.now table.old
        (told_number result) (told_count result) table.new }
    ensures sentences { Tells (decoded grammar.now) tokens.now (told_number result)
        (says_yes result) }
{
    if !ordinary(tokens, grammar.tokens) {
        return Err(Refusal::NoToken);
    }
    let n = tokens.len();
    if TOKENS < n {
        return Err(Refusal::TooMany);
    }
    if n == 0 {
        return Ok(Told {
            yes: false,
            words: 0,
        });
    }
    let needed = WIDTH * stretches_up_to(n, n);
    if table.len() < needed {
        return Err(Refusal::TooShort(needed));
    }
    fill(grammar, tokens, table);
    let yes = has(table, place(n, n, 0), grammar.rules.first(0));
    Ok(Told { yes, words: needed })
}

// Whether the tokens are a sentence of the grammar in `file`. Every stretch of them is settled in `table`.
pub fn plain(file: &[u8], tokens: &[u16], table: &mut [u64]) -> Result<Told, Refusal>
    ensures table { Tables file.now tokens.now table.old (told_number result)
        (told_count result) table.new }
    ensures sentences { Tells (grammar_of file.now) tokens.now (told_number result) (says_yes result) }
{
    let mut held = Grammar::new();
    grammar::read(file, &mut held)?;
    settle(&held, tokens, table)
}
