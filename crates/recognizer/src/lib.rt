// The calls on a parse: start; token and run; kinds and run_kinds, where a position may have several kinds; finished, latest set.
#![tactic(auto)]

mod positions;
pub mod ready;
mod step;
mod within;

ghost use Rattle.std.specs.Prelude.{◌≡◌, [], ◌∷◌, ◌<◌, ◌^◌, length};
ghost use Rattle.recognizer.specs.Answers.{refusal_number, fault_refusal, full_refusal, number_of, outcome_of, ended_of, says_yes, says_handle, part_of};
ghost use Rattle.demands.specs.Calls.{Starts, Takes, Runs, Finishes, Reports};
ghost use Rattle.parse.specs.Words.{Kept, words_in, seen};
ghost use Rattle.demands.specs.Sentences.{PositionTells, RunTells, FinishedTells};
ghost use Rattle.demands.specs.Positions.{positions_in};
ghost use Rattle.earley.specs.Positions.{plain};

use crate::positions::{Counted, Positions, Tokens};
use crate::ready::ready;
use crate::within::{begin, last_wraps, latest_part, run_within, step_within};
use completion::pass::Full;
use grammar::{Fault, Grammar};
use parse::{State, View, Words};

// Why a call is refused.
#[derive(Clone, Copy, PartialEq, Eq, Debug)]
pub enum Refusal {
    Malformed,
    Broken,
    NoSets,
    IllFormed,
    NoToken,
    NotPredicted,
    ItemsFull,
    QueueFull,
    SetsFull,
    StoreFull,
}

impl Refusal {
    // Its number, by which hosts know it.
    pub fn number(self) -> u32
        ensures { result ≡ refusal_number self }
    {
        match self {
            Refusal::Malformed => 1,
            Refusal::Broken => 2,
            Refusal::NoSets => 3,
            Refusal::IllFormed => 4,
            Refusal::NoToken => 5,
            Refusal::NotPredicted => 6,
            Refusal::ItemsFull => 7,
            Refusal::QueueFull => 8,
            Refusal::SetsFull => 9,
            Refusal::StoreFull => 14,
        }
    }
}

// Crate plain's refusal has this too: that engine shares nothing but `grammar` with this one.
impl From<Fault> for Refusal {
    ghost from_gives = { λ fault why. why ≡ fault_refusal fault };

    fn from(fault: Fault) -> Refusal {
        match fault {
            Fault::Malformed => Refusal::Malformed,
            Fault::Broken => Refusal::Broken,
        }
    }
}

impl From<Full> for Refusal {
    ghost from_gives = { λ full why. why ≡ full_refusal full };

    fn from(full: Full) -> Refusal {
        match full {
            Full::Items => Refusal::ItemsFull,
            Full::Queue => Refusal::QueueFull,
            Full::Store => Refusal::StoreFull,
        }
    }
}

// What a run answers: the state that it left, how many positions it took, and the refusal that stopped it.
#[derive(Clone, Copy, PartialEq, Eq, Debug)]
pub struct Ran {
    pub state: State,
    pub taken: usize,
    pub stopped: Option<Refusal>,
}

// Starts a parse: clears the words, fills the store, and predicts what the wrapper begins with. The state is the old one: a refused start leaves it.
pub fn start(file: &[u8], state: State, words: &mut Words<'_>) -> Result<State, Refusal>
    ensures kept { Kept words.old words.new }
    ensures calls { Starts file.now state (words_in words.old)
        (outcome_of state result (words_in words.new)) }
{
    let mut grammar = Grammar::new();
    grammar::read(file, &mut grammar)?;
    let view = words.view();
    if parse::room::set_room(view.starts, view.rows) == 0 {
        return Err(Refusal::NoSets);
    }
    let table = prediction::table(&grammar.rules, grammar.symbols);
    begin(&table[grammar.symbols - 2], words);
    Ok(State {
        set: 0,
        items: 0,
        used: 0,
    })
}

// Reads one token.
pub fn token(file: &[u8], state: State, words: &mut Words<'_>, t: u16) -> Result<State, Refusal>
    ensures kept { Kept words.old words.new }
    ensures calls { Takes file.now state (words_in words.old) (t ∷ [])
        (outcome_of state result (words_in words.new)) }
    ensures sentences { PositionTells file.now state (words_in words.old) (t ∷ []) (number_of result) }
{
    kinds(file, state, words, &[t])
}

// Reads tokens up to the first that is refused.
pub fn run(file: &[u8], state: State, words: &mut Words<'_>, tokens: &[u16]) -> Ran
    ensures kept { Kept words.old words.new }
    ensures calls { Runs file.now state (words_in words.old) (plain tokens.now)
        (ended_of result (words_in words.new)) }
    ensures sentences { RunTells file.now state (words_in words.old) (plain tokens.now)
        (ended_of result (words_in words.new)) }
{
    run_over(file, state, words, Tokens(tokens))
}

// Reads one position, of one kind of token or of several, strictly rising. Kinds that are not predicted are passed over.
pub fn kinds(
    file: &[u8],
    state: State,
    words: &mut Words<'_>,
    kinds: &[u16],
) -> Result<State, Refusal>
    ensures kept { Kept words.old words.new }
    ensures calls { Takes file.now state (words_in words.old) kinds.now
        (outcome_of state result (words_in words.new)) }
    ensures sentences { PositionTells file.now state (words_in words.old) kinds.now (number_of result) }
{
    let mut grammar = Grammar::new();
    ready(file, state, &words.view(), &mut grammar)?;
    let table = prediction::table(&grammar.rules, grammar.symbols);
    step_within(&grammar, &table, state, words, kinds)
}

// Reads positions up to the first that is refused: how many kinds, then the kinds, position by position. One that is cut off is refused as no token is.
pub fn run_kinds(file: &[u8], state: State, words: &mut Words<'_>, positions: &[u16]) -> Ran
    ensures kept { Kept words.old words.new }
    ensures calls { Runs file.now state (words_in words.old) (positions_in positions.now)
        (ended_of result (words_in words.new)) }
    ensures sentences { RunTells file.now state (words_in words.old) (positions_in positions.now)
        (ended_of result (words_in words.new)) }
{
    run_over(file, state, words, Counted(positions))
}

// Reads what positions there are, up to the first that is refused.
fn run_over<'a, P: Positions<'a> + Drop>(
    file: &[u8],
    state: State,
    words: &mut Words<'_>,
    positions: P,
) -> Ran
    requires { length (P.left positions) < 2 ^ 64 }
    ensures kept { Kept words.old words.new }
    ensures calls { Runs file.now state (words_in words.old) (P.left positions)
        (ended_of result (words_in words.new)) }
    ensures sentences { RunTells file.now state (words_in words.old) (P.left positions)
        (ended_of result (words_in words.new)) }
{
    let mut grammar = Grammar::new();
    if let Err(why) = ready(file, state, &words.view(), &mut grammar) {
        return Ran {
            state,
            taken: 0,
            stopped: Some(why),
        };
    }
    let table = prediction::table(&grammar.rules, grammar.symbols);
    run_within(&grammar, &table, state, words, positions)
}

// Whether the positions so far spell a sentence: then the handle of the start symbol's node.
pub fn finished(file: &[u8], state: State, view: &View<'_, '_>) -> Result<Option<u32>, Refusal>
    ensures calls { Finishes file.now state (seen view.now) (number_of result)
        (says_yes result) (says_handle result) }
    ensures sentences { FinishedTells file.now state (seen view.now) (number_of result)
        (says_yes result) }
{
    let mut grammar = Grammar::new();
    ready(file, state, view, &mut grammar)?;
    if !last_wraps(state, view.items, view.starts) {
        return Ok(None);
    }
    let last = state.items - 1;
    Ok(Some(item::handle(view.items, last)))
}

// The part of the item words that holds the latest set.
pub fn latest_set<'i>(file: &[u8], state: State, view: &View<'i, '_>) -> Result<&'i [u32], Refusal>
    ensures calls { Reports file.now state (seen view.now) (number_of result) (part_of result) }
{
    let mut grammar = Grammar::new();
    ready(file, state, view, &mut grammar)?;
    Ok(latest_part(state, view.items, view.starts))
}
