// The steps of a position on a well-formed state, in words within the capacities.
ghost use Rattle.std.specs.Prelude.{◌≡◌, List, ℕ, ◌*◌, ◌≤◌, length, take};
ghost use Rattle.item.specs.Item.{item_words};
ghost use Rattle.grammar.specs.inner.Decoded.{decoded, Chained};
ghost use Rattle.completion.specs.inner.Ready.{HasRow, KindsFit};
ghost use Rattle.demands.specs.Positions.{is_position, any_predicted};
ghost use Rattle.demands.specs.Steps.{completed, stepped};
ghost use Rattle.recognizer.specs.Answers.{outcome_of};
ghost use Rattle.parse.specs.Words.{words_of, padded, filled};
ghost use Rattle.recognizer.specs.inner.Steppable.{Steppable, CameTo};

use crate::Refusal;
use completion::pass::{Full, Pass};
use grammar::Grammar;
use item::ITEM_WORDS;
use parse::State;
use parse::padding::FILLER;
use prediction::Table;

// Whether there is a kind, each is greater than the one before it, and the last is a token.
fn is_position(kinds: &[u16], tokens: usize) -> bool
    ensures { result ≡ is_position tokens kinds.now }
{
    let Some(&last) = kinds.last() else {
        return false;
    };
    kinds.is_sorted_by(|t, u| t < u) && usize::from(last) < tokens
}

// Whether some kind is predicted at set `e`.
fn any_predicted(rows: &[u64], e: usize, kinds: &[u16]) -> bool
    requires { HasRow rows.now e × KindsFit kinds.now }
    ensures { result ≡ any_predicted rows.now e kinds.now }
{
    kinds
        .iter()
        .any(|&kind| bits::has_at(rows, e, usize::from(kind)))
}

// How many items and used units there are behind the pass of a position.
#[derive(Clone, Copy)]
struct Reached {
    items: usize,
    used: usize,
}

// Steps 2 and 3: completes the latest set and each kind that is predicted, and then sum after sum.
// Slices by themselves: so the type says that starts and rows are only read.
fn complete_position(
    grammar: &Grammar,
    state: State,
    items: &mut [u32],
    starts: &[u32],
    rows: &[u64],
    queue: &mut [u32],
    store: &mut [u16],
    kinds: &[u16],
) -> Result<Reached, Full>
    requires { (table : List (List ℕ)) × Steppable (decoded grammar.now) table state
        (words_of items.old starts.now rows.now queue.old store.old) × KindsFit kinds.now × Chained grammar.now.rules.words grammar.now.rules.count }
    ensures { CameTo result items.new queue.new store.new
        (completed (decoded grammar.now) state
        (words_of items.old starts.now rows.now queue.old store.old) kinds.now) }
{
    let mut pass = Pass {
        rules: &grammar.rules,
        starts,
        rows,
        items,
        queue,
        store,
        stored: state.items,
        queued: 0,
        used: state.used,
    };
    // Neither `?` nor `map` here: they were tried, and behind such an exit nothing is known of the slices that the pass was lent.
    let completed = match pass.scan_all(kinds, state.set) {
        Ok(()) => pass.complete_all_sums_entirely(),
        Err(full) => Err(full),
    };
    let reached = Reached {
        items: pass.stored,
        used: pass.used,
    };
    match completed {
        Ok(()) => Ok(reached),
        Err(full) => Err(full),
    }
}

// Makes fillers of the units that a refused position wrote.
fn unwrite(store: &mut [u16], used: usize)
    requires { used ≤ length store.old }
    ensures { store.new ≡ filled (length store.old) (take used store.old) }
{
    store[used..].fill(FILLER);
}

// Clears what a refused pass stored and queued, and what it wrote.
fn give_up(items: &mut [u32], queue: &mut [u32], store: &mut [u16], stored: usize, used: usize)
    requires { (item_words * stored ≤ length items.old) × (used ≤ length store.old) }
    ensures items { items.new ≡ padded (length items.old)
        (take (item_words * stored) items.old) }
    ensures queue { queue.new ≡ padded (length queue.old) (take 0 queue.old) }
    ensures store { store.new ≡ filled (length store.old) (take used store.old) }
{
    items[ITEM_WORDS * stored..].fill(0);
    queue.fill(0);
    unwrite(store, used);
}

// A position: steps 1 to 6, or the refusal that they meet, which leaves state and words as they were.
// Slices by themselves: the borrow checker has no rule for starts and rows of a lent struct that are read while its items are lent.
pub fn step(
    grammar: &Grammar,
    table: &Table,
    state: State,
    items: &mut [u32],
    starts: &mut [u32],
    rows: &mut [u64],
    queue: &mut [u32],
    store: &mut [u16],
    kinds: &[u16],
) -> Result<State, Refusal>
    requires { Steppable (decoded grammar.now) table.now state
        (words_of items.old starts.old rows.old queue.old store.old) × Chained grammar.now.rules.words grammar.now.rules.count }
    ensures { outcome_of state result
        (words_of items.new starts.new rows.new queue.new store.new)
        ≡ stepped (decoded grammar.now) table.now state
        (words_of items.old starts.old rows.old queue.old store.old) kinds.now }
{
    if !is_position(kinds, grammar.tokens) {
        return Err(Refusal::NoToken);
    }
    if !any_predicted(rows, state.set, kinds) {
        return Err(Refusal::NotPredicted);
    }
    let passed = complete_position(grammar, state, items, starts, rows, queue, store, kinds);
    let reached = match passed {
        Ok(reached) => reached,
        Err(full) => {
            give_up(items, queue, store, state.items, state.used);
            return Err(Refusal::from(full));
        }
    };
    let written = State {
        used: reached.used,
        ..state
    };
    let advanced = advance::advance(
        &grammar.rules,
        table,
        written,
        items,
        starts,
        rows,
        reached.items,
    );
    match advanced {
        Some(next) => Ok(next),
        None => {
            unwrite(store, state.used);
            Err(Refusal::SetsFull)
        }
    }
}
