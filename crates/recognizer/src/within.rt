// Calls on words cut to their capacities.
ghost use Rattle.std.specs.Prelude.{◌≡◌, ◌≤◌, ◌<◌, ◌^◌, length};
ghost use Rattle.grammar.specs.Accepted.{max_rules};
ghost use Rattle.grammar.specs.inner.Decoded.{rules_of, decoded, Chained};
ghost use Rattle.grammar.specs.Prediction.{Predicts};
ghost use Rattle.laws.specs.Decides.{Decides};
ghost use Rattle.bits.specs.Width.{row_words};
ghost use Rattle.parse.specs.Words.{set_room, set_room_of, within, words_of, words_in, seen, Kept};
ghost use Rattle.parse.specs.WellFormed.{WellFormed};
ghost use Rattle.demands.specs.Steps.{stepped, ran};
ghost use Rattle.demands.specs.Calls.{in_place, in_place_ended};
ghost use Rattle.recognizer.specs.inner.Cuts.{Measures, cleared_words, begun_words, LatestThere, last_wraps_in, latest_part_in};
ghost use Rattle.recognizer.specs.Answers.{outcome_of, ended_of};
ghost use Rattle.recognizer.specs.inner.Steppable.{Steppable};

use crate::positions::Positions;
use crate::step::step;
use crate::{Ran, Refusal};
use binary_heap::entry::ENTRY_WORDS;
use bits::{Row, WIDTH};
use grammar::Grammar;
use item::ITEM_WORDS;
use parse::padding::FILLER;
use parse::room::{item_room, queue_room, set_room, store_room};
use parse::{State, View, Words};
use prediction::Table;

// How many words of each kind, and how many units, there are within the capacities.
#[derive(Clone, Copy)]
struct Ends {
    items: usize,
    starts: usize,
    rows: usize,
    queue: usize,
    store: usize,
}

fn measure(view: &View<'_, '_>) -> Ends
    ensures { Measures (seen view.now) result }
{
    let sets = set_room(view.starts, view.rows);
    Ends {
        items: ITEM_WORDS * item_room(view.items),
        starts: sets + 1,
        rows: WIDTH * sets,
        queue: ENTRY_WORDS * queue_room(view.queue),
        store: store_room(view.store),
    }
}

// The words within the capacities, where there is room for a set.
fn cut<'i, 'a>(view: &View<'i, 'a>) -> View<'i, 'a>
    requires { 0 < set_room (seen view.now) }
    ensures { seen result ≡ within (seen view.now) }
{
    let ends = measure(view);
    View {
        items: &view.items[..ends.items],
        starts: &view.starts[..ends.starts],
        rows: &view.rows[..ends.rows],
        queue: &view.queue[..ends.queue],
        store: &view.store[..ends.store],
    }
}

// Whether the state is well formed in the words within the capacities.
pub fn well_formed(grammar: &Grammar, state: State, view: &View<'_, '_>) -> bool
    requires { grammar.now.rules.count ≤ max_rules }
    ensures { Decides result
        (WellFormed grammar.now.symbols (rules_of grammar.now.rules) state (within (seen view.now))) }
{
    if set_room(view.starts, view.rows) == 0 {
        return false;
    }
    parse::well_formed(&grammar.rules, grammar.symbols, state, &cut(view))
}

// The steps of a position in the words within the capacities. The words past them stay.
// No struct of `grammar` and `table`: `well_formed` and `complete_position` have no table, and each call holds both as values of its own.
pub fn step_within(
    grammar: &Grammar,
    table: &Table,
    state: State,
    words: &mut Words<'_>,
    kinds: &[u16],
) -> Result<State, Refusal>
    requires { Steppable (decoded grammar.now) table.now state
        (within (words_in words.old)) × Chained grammar.now.rules.words grammar.now.rules.count }
    ensures kept { Kept words.old words.new }
    ensures steps { outcome_of state result (words_in words.new)
        ≡ in_place (words_in words.old)
        (stepped (decoded grammar.now) table.now state (within (words_in words.old)) kinds.now) }
{
    step_in_front(
        grammar,
        table,
        state,
        words.items,
        words.starts,
        words.rows,
        words.queue,
        words.store,
        kinds,
    )
}

// The same of slices by themselves, as they are cut: the borrow checker lets no two slices be cut out of one struct's.
fn step_in_front(
    grammar: &Grammar,
    table: &Table,
    state: State,
    items: &mut [u32],
    starts: &mut [u32],
    rows: &mut [u64],
    queue: &mut [u32],
    store: &mut [u16],
    kinds: &[u16],
) -> Result<State, Refusal>
    requires { Steppable (decoded grammar.now) table.now state
        (within (words_of items.old starts.old rows.old queue.old store.old)) × Chained grammar.now.rules.words grammar.now.rules.count }
    ensures { outcome_of state result (words_of items.new starts.new rows.new queue.new store.new)
        ≡ in_place (words_of items.old starts.old rows.old queue.old store.old)
        (stepped (decoded grammar.now) table.now state
        (within (words_of items.old starts.old rows.old queue.old store.old)) kinds.now) }
{
    let ends = measure(&View {
        items,
        starts,
        rows,
        queue,
        store,
    });
    step(
        grammar,
        table,
        state,
        &mut items[..ends.items],
        &mut starts[..ends.starts],
        &mut rows[..ends.rows],
        &mut queue[..ends.queue],
        &mut store[..ends.store],
        kinds,
    )
}

// Reads positions up to the first that is refused, in the words within the capacities.
pub fn run_within<'a, P: Positions<'a> + Drop>(
    grammar: &Grammar,
    table: &Table,
    state: State,
    words: &mut Words<'_>,
    mut positions: P,
) -> Ran
    requires { Steppable (decoded grammar.now) table.now state
        (within (words_in words.old)) × Predicts (decoded grammar.now) row_words table.now
        × Chained grammar.now.rules.words grammar.now.rules.count × (length (P.left positions) < 2 ^ 64) }
    ensures kept { Kept words.old words.new }
    ensures runs { ended_of result (words_in words.new)
        ≡ in_place_ended (words_in words.old)
        (ran (decoded grammar.now) table.now state (within (words_in words.old)) (P.left positions)) }
{
    let mut now = state;
    let mut taken = 0;
    // No count: each turn takes the next position.
    while let Some(kinds) = positions.next() {
        match step_within(grammar, table, now, words, kinds) {
            Ok(next) => now = next,
            Err(why) => return Ran {
                state: now,
                taken,
                stopped: Some(why),
            },
        }
        taken += 1;
    }
    Ran {
        state: now,
        taken,
        stopped: None,
    }
}

// Clears words, fills the store, and puts a row into row 0.
// Slices by themselves: put as they are cut into a struct, of each only the length is known behind the loan, and the proof did not close.
fn clear_all(
    row: &Row,
    items: &mut [u32],
    starts: &mut [u32],
    rows: &mut [u64],
    queue: &mut [u32],
    store: &mut [u16],
)
    requires { (row_words ≤ length rows.old) × (length row.now ≡ row_words) }
    ensures { words_of items.new starts.new rows.new queue.new store.new
        ≡ cleared_words row.now
        (words_of items.old starts.old rows.old queue.old store.old) }
{
    items.fill(0);
    starts.fill(0);
    rows.fill(0);
    queue.fill(0);
    store.fill(FILLER);
    bits::put_at(rows, 0, row);
}

// The same of the words within the capacities. The words past them stay.
pub fn begin(row: &Row, words: &mut Words<'_>)
    requires { (0 < set_room (words_in words.old)) × (length row.now ≡ row_words) }
    ensures kept { Kept words.old words.new }
    ensures begun { words_in words.new ≡ begun_words row.now (words_in words.old) }
{
    begin_in_front(
        row,
        words.items,
        words.starts,
        words.rows,
        words.queue,
        words.store,
    );
}

// The same of slices by themselves, as for a step.
fn begin_in_front(
    row: &Row,
    items: &mut [u32],
    starts: &mut [u32],
    rows: &mut [u64],
    queue: &mut [u32],
    store: &mut [u16],
)
    requires { (0 < set_room_of starts.old rows.old) × (length row.now ≡ row_words) }
    ensures { words_of items.new starts.new rows.new queue.new store.new
        ≡ begun_words row.now
        (words_of items.old starts.old rows.old queue.old store.old) }
{
    let ends = measure(&View {
        items,
        starts,
        rows,
        queue,
        store,
    });
    clear_all(
        row,
        &mut items[..ends.items],
        &mut starts[..ends.starts],
        &mut rows[..ends.rows],
        &mut queue[..ends.queue],
        &mut store[..ends.store],
    );
}

// Whether the last item of the latest set has rule 0.
pub fn last_wraps(state: State, items: &[u32], starts: &[u32]) -> bool
    requires { LatestThere state items.now starts.now }
    ensures { result ≡ last_wraps_in state items.now starts.now }
{
    (starts[state.set] as usize) < state.items && item::rule(items, state.items - 1) == 0
}

// The part of the item words that holds the latest set.
pub fn latest_part<'a>(state: State, items: &'a [u32], starts: &[u32]) -> &'a [u32]
    requires { LatestThere state items.now starts.now }
    ensures { result.now ≡ latest_part_in state items.now starts.now }
{
    let from = ITEM_WORDS * starts[state.set] as usize;
    let to = ITEM_WORDS * state.items;
    &items[from..to]
}
