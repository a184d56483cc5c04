// The calls for hosts in C and Rust: numbers and slices, answers by document 01's numbers. A slice is a pointer and a length. The state
// of a parse is three words of the host, the set number, the item count and the number of used units. include/brinesaddle.h describes each
// call for a host. The words of a parse are five slices and three numbers in each call, as the C interface has them. Calls of one shape
// stay apart: each is a name of the C interface.
#![tactic(auto)]

ghost use Rattle.std.specs.Prelude.{◌≡◌, [], ◌∷◌, take};
ghost use Rattle.grammar.specs.Answers.{Verdict};
ghost use Rattle.demands.specs.Calls.{Starts, Takes, Runs};
ghost use Rattle.demands.specs.Positions.{positions_in};
ghost use Rattle.demands.specs.Sentences.{PositionTells, RunTells, FinishedTells};
ghost use Rattle.earley.specs.Positions.{plain};
ghost use Rattle.parse.specs.Words.{words_of};
ghost use Rattle.reports.specs.Lists.{Lists, expected_tokens, latest_text, latest_words, latest_records};
ghost use Rattle.reports.specs.Sentences.{ExpectedTells};
ghost use Rattle.node.specs.Answers.{values_of};
ghost use Rattle.node.specs.Reading.{read_at};
ghost use Rattle.node.specs.Walking.{walk_at};
ghost use Rattle.host.specs.Answers.{state_in, outcome_in, ended_in};
ghost use Rattle.host.specs.Reports.{FinishesIn, ReportsIn, says_in};
ghost use Rattle.host.specs.Translating.{TranslatesIn};
ghost use Rattle.host.specs.Nodes.{write_in, number_in, place_or, position_or, numbers_or, count_or};

pub mod every_tree;
mod nodes;
mod parse_words;
pub mod plain_engine;
mod records;
mod translating;

use crate::nodes::{END, NO_NODE, NO_ROOM, UNFIT, node_of, numbers_of};
use crate::parse_words::{state, tell, tell_count, tell_run, tell_whether, wide_token};
use crate::records::{SET_WORDS, fill, prepare};
use crate::translating::tell_translated;
use item::ITEM_WORDS;
use node::{NoNode, Unwritten};
use parse::{View, Words};
use recognizer::Refusal;
use reports::Record;

// Checks a grammar file.
pub fn brinesaddle_check(file: &[u8]) -> u32
    ensures { Verdict file.now result }
{
    match grammar::check(file) {
        Ok(()) => 0,
        Err(fault) => Refusal::from(fault).number(),
    }
}

// Starts a parse.
pub fn brinesaddle_start(
    file: &[u8],
    set: &mut usize,
    held: &mut usize,
    used: &mut usize,
    items: &mut [u32],
    starts: &mut [u32],
    rows: &mut [u64],
    queue: &mut [u32],
    store: &mut [u16],
) -> u32
    ensures calls { Starts file.now (state_in set.old held.old used.old)
        (words_of items.old starts.old rows.old queue.old store.old)
        (outcome_in result set.new held.new used.new
        (words_of items.new starts.new rows.new queue.new store.new)) }
{
    let mut words = Words {
        items,
        starts,
        rows,
        queue,
        store,
    };
    let answer = recognizer::start(file, state(*set, *held, *used), &mut words);
    tell(answer, set, held, used)
}

// Reads one token. Every number is a token at this door; T and above is 5.
pub fn brinesaddle_token(
    file: &[u8],
    set: &mut usize,
    held: &mut usize,
    used: &mut usize,
    items: &mut [u32],
    starts: &mut [u32],
    rows: &mut [u64],
    queue: &mut [u32],
    store: &mut [u16],
    t: u32,
) -> u32
    ensures calls { Takes file.now (state_in set.old held.old used.old)
        (words_of items.old starts.old rows.old queue.old store.old) (t ∷ [])
        (outcome_in result set.new held.new used.new
        (words_of items.new starts.new rows.new queue.new store.new)) }
    ensures sentences { PositionTells file.now (state_in set.old held.old used.old)
        (words_of items.old starts.old rows.old queue.old store.old) (t ∷ []) result }
{
    let mut words = Words {
        items,
        starts,
        rows,
        queue,
        store,
    };
    let answer = wide_token(file, state(*set, *held, *used), &mut words, t);
    tell(answer, set, held, used)
}

// Reads tokens up to the first that is refused, and tells how many were taken.
pub fn brinesaddle_run(
    file: &[u8],
    set: &mut usize,
    held: &mut usize,
    used: &mut usize,
    items: &mut [u32],
    starts: &mut [u32],
    rows: &mut [u64],
    queue: &mut [u32],
    store: &mut [u16],
    tokens: &[u16],
    taken: &mut usize,
) -> u32
    ensures calls { Runs file.now (state_in set.old held.old used.old)
        (words_of items.old starts.old rows.old queue.old store.old)
        (plain tokens.now)
        (ended_in result set.new held.new used.new
        (words_of items.new starts.new rows.new queue.new store.new)
        taken.new) }
    ensures sentences { RunTells file.now (state_in set.old held.old used.old)
        (words_of items.old starts.old rows.old queue.old store.old)
        (plain tokens.now)
        (ended_in result set.new held.new used.new
        (words_of items.new starts.new rows.new queue.new store.new)
        taken.new) }
{
    let mut words = Words {
        items,
        starts,
        rows,
        queue,
        store,
    };
    let ran = recognizer::run(file, state(*set, *held, *used), &mut words, tokens);
    tell_run(ran, set, held, used, taken)
}

// Reads one position, of one kind of token or of several, strictly rising.
pub fn brinesaddle_kinds(
    file: &[u8],
    set: &mut usize,
    held: &mut usize,
    used: &mut usize,
    items: &mut [u32],
    starts: &mut [u32],
    rows: &mut [u64],
    queue: &mut [u32],
    store: &mut [u16],
    kinds: &[u16],
) -> u32
    ensures calls { Takes file.now (state_in set.old held.old used.old)
        (words_of items.old starts.old rows.old queue.old store.old)
        kinds.now
        (outcome_in result set.new held.new used.new
        (words_of items.new starts.new rows.new queue.new store.new)) }
    ensures sentences { PositionTells file.now (state_in set.old held.old used.old)
        (words_of items.old starts.old rows.old queue.old store.old)
        kinds.now result }
{
    let mut words = Words {
        items,
        starts,
        rows,
        queue,
        store,
    };
    let answer = recognizer::kinds(file, state(*set, *held, *used), &mut words, kinds);
    tell(answer, set, held, used)
}

// Reads positions up to the first that is refused, and tells how many were taken: how many kinds, then the kinds, position by position.
pub fn brinesaddle_run_kinds(
    file: &[u8],
    set: &mut usize,
    held: &mut usize,
    used: &mut usize,
    items: &mut [u32],
    starts: &mut [u32],
    rows: &mut [u64],
    queue: &mut [u32],
    store: &mut [u16],
    positions: &[u16],
    taken: &mut usize,
) -> u32
    ensures calls { Runs file.now (state_in set.old held.old used.old)
        (words_of items.old starts.old rows.old queue.old store.old)
        (positions_in positions.now)
        (ended_in result set.new held.new used.new
        (words_of items.new starts.new rows.new queue.new store.new)
        taken.new) }
    ensures sentences { RunTells file.now (state_in set.old held.old used.old)
        (words_of items.old starts.old rows.old queue.old store.old)
        (positions_in positions.now)
        (ended_in result set.new held.new used.new
        (words_of items.new starts.new rows.new queue.new store.new)
        taken.new) }
{
    let mut words = Words {
        items,
        starts,
        rows,
        queue,
        store,
    };
    let ran = recognizer::run_kinds(file, state(*set, *held, *used), &mut words, positions);
    tell_run(ran, set, held, used, taken)
}

// Whether the positions so far spell a sentence: 1 or 0 in `yes`, and the start symbol's node in `handle`, all ones where it is 0.
pub fn brinesaddle_finished(
    file: &[u8],
    set: usize,
    held: usize,
    used: usize,
    items: &[u32],
    starts: &[u32],
    rows: &[u64],
    queue: &[u32],
    store: &[u16],
    yes: &mut u32,
    handle: &mut u32,
) -> u32
    ensures calls { FinishesIn file.now (state_in set held used)
        (words_of items.now starts.now rows.now queue.now store.now) result
        yes.new handle.new }
    ensures sentences { FinishedTells file.now (state_in set held used)
        (words_of items.now starts.now rows.now queue.now store.now) result
        (says_in yes.new) }
{
    let view = View {
        items,
        starts,
        rows,
        queue,
        store,
    };
    let whether = recognizer::finished(file, state(set, held, used), &view);
    tell_whether(whether, yes, handle)
}

// Where the latest set stands among the item words: the place of its first word, and the number of its words.
pub fn brinesaddle_latest_set(
    file: &[u8],
    set: usize,
    held: usize,
    used: usize,
    items: &[u32],
    starts: &[u32],
    rows: &[u64],
    queue: &[u32],
    store: &[u16],
    first: &mut usize,
    count: &mut usize,
) -> u32
    ensures calls { ReportsIn file.now (state_in set held used)
        (words_of items.now starts.now rows.now queue.now store.now) result
        first.new count.new }
{
    let view = View {
        items,
        starts,
        rows,
        queue,
        store,
    };
    match recognizer::latest_set(file, state(set, held, used), &view) {
        Ok(part) => {
            *count = part.len();
            *first = ITEM_WORDS * held - part.len();
            0
        }
        Err(why) => {
            *count = 0;
            *first = 0;
            why.number()
        }
    }
}

// What could stand next: the ordinary tokens that the latest row holds, rising.
pub fn brinesaddle_expected(
    file: &[u8],
    set: usize,
    held: usize,
    used: usize,
    items: &[u32],
    starts: &[u32],
    rows: &[u64],
    queue: &[u32],
    store: &[u16],
    tokens: &mut [u16],
    count: &mut usize,
) -> u32
    ensures calls { Lists file.now (state_in set held used)
        (words_of items.now starts.now rows.now queue.now store.now) expected_tokens
        tokens.old result count.new tokens.new }
    ensures sentences { ExpectedTells file.now (state_in set held used)
        (words_of items.now starts.now rows.now queue.now store.now) result
        (take count.new tokens.new) }
{
    let view = View {
        items,
        starts,
        rows,
        queue,
        store,
    };
    let filled = reports::expected(file, state(set, held, used), &view, tokens);
    tell_count(filled, count)
}

// The latest set as text, a line an item.
pub fn brinesaddle_listing(
    file: &[u8],
    set: usize,
    held: usize,
    used: usize,
    items: &[u32],
    starts: &[u32],
    rows: &[u64],
    queue: &[u32],
    store: &[u16],
    text: &mut [u8],
    count: &mut usize,
) -> u32
    ensures calls { Lists file.now (state_in set held used)
        (words_of items.now starts.now rows.now queue.now store.now) latest_text
        text.old result count.new text.new }
{
    let view = View {
        items,
        starts,
        rows,
        queue,
        store,
    };
    let filled = reports::listing(file, state(set, held, used), &view, text);
    tell_count(filled, count)
}

// The latest set as words, five an item: rule, left side, first, second, origin.
pub fn brinesaddle_latest_words(
    file: &[u8],
    set: usize,
    held: usize,
    used: usize,
    items: &[u32],
    starts: &[u32],
    rows: &[u64],
    queue: &[u32],
    store: &[u16],
    words: &mut [u32],
    count: &mut usize,
) -> u32
    ensures calls { Lists file.now (state_in set held used)
        (words_of items.now starts.now rows.now queue.now store.now) latest_words
        words.old result count.new words.new }
{
    let view = View {
        items,
        starts,
        rows,
        queue,
        store,
    };
    let filled = reports::latest_words(file, state(set, held, used), &view, words);
    tell_count(filled, count)
}

// The latest set as records, one an item, out of its words.
pub fn brinesaddle_latest_records(
    file: &[u8],
    set: usize,
    held: usize,
    used: usize,
    items: &[u32],
    starts: &[u32],
    rows: &[u64],
    queue: &[u32],
    store: &[u16],
    records: &mut [Record],
    count: &mut usize,
) -> u32
    ensures calls { Lists file.now (state_in set held used)
        (words_of items.now starts.now rows.now queue.now store.now) latest_records
        records.old result count.new records.new }
{
    let view = View {
        items,
        starts,
        rows,
        queue,
        store,
    };
    let mut words = [0; SET_WORDS];
    let prepared = prepare(
        file,
        state(set, held, used),
        &view,
        records.len(),
        &mut words,
    );
    if let Ok(n) = prepared {
        fill(&words, n, records);
    }
    tell_count(prepared, count)
}

// Writes a node at p. The node is five numbers: its kind, and its values.
#[tactic(auto, unfolding(crate::specs::Nodes::write_told, crate::specs::Nodes::number_in, crate::specs::Nodes::place_or, crate::specs::Nodes::position_or))]
pub fn brinesaddle_node_write(
    store: &mut [u16],
    p: usize,
    node: &[u32; 5],
    behind: &mut usize,
    place: &mut usize,
) -> u32
    ensures number { result ≡ number_in (write_in store.old p node.now).answer }
    ensures behind { behind.new ≡ position_or behind.old
        (values_of (write_in store.old p node.now).answer) }
    ensures place { place.new ≡ place_or place.old
        (write_in store.old p node.now).answer }
    ensures store { store.new ≡ (write_in store.old p node.now).store }
{
    let Some(n) = node_of(node) else {
        *place = p;
        return UNFIT;
    };
    match node::write(store, p, n) {
        Ok(q) => {
            *behind = q;
            0
        }
        Err(Unwritten::Unfit(asked)) => {
            *place = asked;
            UNFIT
        }
        Err(Unwritten::NoRoom(asked)) => {
            *place = asked;
            NO_ROOM
        }
    }
}

// Reads the first node from p on, as five numbers. At the end the kind is END.
#[tactic(auto, unfolding(crate::specs::Nodes::number_in, crate::specs::Nodes::place_or, crate::specs::Nodes::position_or, crate::specs::Nodes::numbers_or))]
pub fn brinesaddle_node_read(
    store: &[u16],
    p: usize,
    node: &mut [u32; 5],
    behind: &mut usize,
    place: &mut usize,
) -> u32
    ensures number { result ≡ number_in (read_at store.now p) }
    ensures node { node.new ≡ numbers_or node.old (values_of (read_at store.now p)) }
    ensures behind { behind.new ≡ position_or behind.old (values_of (read_at store.now p)) }
    ensures place { place.new ≡ place_or place.old (read_at store.now p) }
{
    match node::read(store, p) {
        Ok(Some((n, q))) => {
            *node = numbers_of(n);
            *behind = q;
            0
        }
        Ok(None) => {
            *node = [END, 0, 0, 0, 0];
            0
        }
        Err(NoNode(unit)) => {
            *place = unit;
            NO_NODE
        }
    }
}

// Reads on from p to the end or the first 12: how many nodes there were, and the position behind the last.
#[tactic(auto, unfolding(crate::specs::Nodes::number_in, crate::specs::Nodes::place_or, crate::specs::Nodes::position_or, crate::specs::Nodes::count_or))]
pub fn brinesaddle_node_walk(
    store: &[u16],
    p: usize,
    count: &mut usize,
    behind: &mut usize,
    place: &mut usize,
) -> u32
    ensures number { result ≡ number_in (walk_at store.now p) }
    ensures count { count.new ≡ count_or count.old (values_of (walk_at store.now p)) }
    ensures behind { behind.new ≡ position_or behind.old (values_of (walk_at store.now p)) }
    ensures place { place.new ≡ place_or place.old (walk_at store.now p) }
{
    let walked = node::walk(store, p);
    *count = walked.count;
    *behind = walked.behind;
    match walked.fault {
        None => 0,
        Some(unit) => {
            *place = unit;
            NO_NODE
        }
    }
}

// Translates a written grammar into a grammar file.
pub fn brinesaddle_translate(
    written: &[u8],
    file: &mut [u8],
    length: &mut usize,
    empty: &mut u32,
) -> u32
    ensures { TranslatesIn written.now file.old file.new
        length.old empty.old result length.new empty.new }
{
    let told = translation::translate(written, file);
    tell_translated(told, length, empty)
}
