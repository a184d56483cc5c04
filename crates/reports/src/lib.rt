// Reports on a running parse, which only read it: what could stand next, and the latest set as text, as words and as records.
#![tactic(auto)]

mod decimal;
mod text;
mod tokens;
mod words;

ghost use Rattle.std.specs.Prelude.{◌≡◌, take};
ghost use Rattle.parse.specs.Words.{seen};
ghost use Rattle.reports.specs.Lists.{Lists, expected_tokens, latest_text, latest_words};
ghost use Rattle.reports.specs.Answers.{filled_number, filled_count};
ghost use Rattle.reports.specs.Sentences.{ExpectedTells};
ghost use Rattle.reports.specs.declared.Unfilled.TheVariants as Unfilled;

use crate::text::list_text;
use crate::tokens::list_tokens;
use crate::words::list_words;
use grammar::Grammar;
use parse::{State, View};
use recognizer::Refusal;
use recognizer::ready::ready;

// Why a report wrote nothing: how many elements its place would need, or why the call is refused.
#[derive(Clone, Copy, PartialEq, Eq, Debug)]
pub enum Unfilled {
    TooShort(usize),
    Refused(Refusal),
}

impl From<Refusal> for Unfilled {
    ghost from_gives = { λ why unfilled. unfilled ≡ Unfilled.Refused why };

    fn from(why: Refusal) -> Unfilled {
        Unfilled::Refused(why)
    }
}

// An item of the latest set, with the symbols of its rule.
#[repr(C)]
#[derive(Clone, Copy)]
pub struct Record {
    pub rule: u32,
    pub left: u32,
    pub first: u32,
    pub second: u32,
    pub origin: u32,
}

// The ordinary tokens that the latest row holds, rising: what could stand next. It answers how many there are.
pub fn expected(
    file: &[u8],
    state: State,
    view: &View<'_, '_>,
    tokens: &mut [u16],
) -> Result<usize, Unfilled>
    ensures calls { Lists file.now state (seen view.now) expected_tokens
        tokens.old (filled_number result) (filled_count result) tokens.new }
    ensures sentences { ExpectedTells file.now state (seen view.now)
        (filled_number result) (take (filled_count result) tokens.new) }
{
    let mut grammar = Grammar::new();
    ready(file, state, view, &mut grammar)?;
    list_tokens(view.rows, state.set, grammar.tokens, tokens)
}

// The latest set as text, a line an item. It answers how many bytes there are.
pub fn listing(
    file: &[u8],
    state: State,
    view: &View<'_, '_>,
    text: &mut [u8],
) -> Result<usize, Unfilled>
    ensures calls { Lists file.now state (seen view.now) latest_text
        text.old (filled_number result) (filled_count result) text.new }
{
    let mut grammar = Grammar::new();
    ready(file, state, view, &mut grammar)?;
    let from = view.starts[state.set] as usize;
    list_text(&grammar.rules, view.items, from, state.items, text)
}

// The latest set as words, five an item. It answers how many words there are.
// Only the last call is another than in `listing`: a function that took it would need its contract as a parameter, and be longer than both.
pub fn latest_words(
    file: &[u8],
    state: State,
    view: &View<'_, '_>,
    words: &mut [u32],
) -> Result<usize, Unfilled>
    ensures calls { Lists file.now state (seen view.now) latest_words
        words.old (filled_number result) (filled_count result) words.new }
{
    let mut grammar = Grammar::new();
    ready(file, state, view, &mut grammar)?;
    let from = view.starts[state.set] as usize;
    list_words(&grammar.rules, view.items, from, state.items, words)
}
