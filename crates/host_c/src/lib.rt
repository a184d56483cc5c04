// The calls of `host` for C, under the names and in the form that include/brinesaddle.h tells: a slice is a pointer and a length. Each does
// and promises what the library's function of its name does and promises.
#![tactic(auto)]

ghost use Rattle.std.specs.Prelude.{◌≡◌, [], ◌∷◌, take};
ghost use Rattle.grammar.specs.Answers.{Verdict};
ghost use Rattle.demands.specs.Calls.{Starts, Takes, Runs};
ghost use Rattle.demands.specs.Positions.{positions_in};
ghost use Rattle.demands.specs.Sentences.{PositionTells, RunTells, FinishedTells};
ghost use Rattle.earley.specs.Positions.{plain};
ghost use Rattle.parse.specs.Words.{words_of};
ghost use Rattle.reports.specs.Lists.{Lists, expected_tokens, latest_text, latest_words, latest_records};
ghost use Rattle.reports.specs.Sentences.{ExpectedTells};
ghost use Rattle.node.specs.Answers.{values_of};
ghost use Rattle.node.specs.Reading.{read_at};
ghost use Rattle.node.specs.Walking.{walk_at};
ghost use Rattle.host.specs.Answers.{state_in, outcome_in, ended_in};
ghost use Rattle.host.specs.Reports.{FinishesIn, ReportsIn, says_in};
ghost use Rattle.host.specs.Translating.{TranslatesIn};
ghost use Rattle.host.specs.Nodes.{write_in, number_in, place_or, position_or, numbers_or, count_or};
ghost use Rattle.host.specs.Trees.{CountsIn, TellsIn};
ghost use Rattle.host.specs.PlainEngine.{PlainIn};

use reports::Record;

// Checks a grammar file.
#[unsafe(no_mangle)]
pub extern "C" fn brinesaddle_check(file: &[u8]) -> u32
    ensures { Verdict file.now result }
{
    host::brinesaddle_check(file)
}

// Starts a parse.
#[unsafe(no_mangle)]
pub extern "C" fn brinesaddle_start(
    file: &[u8],
    set: &mut usize,
    held: &mut usize,
    used: &mut usize,
    items: &mut [u32],
    starts: &mut [u32],
    rows: &mut [u64],
    queue: &mut [u32],
    store: &mut [u16],
) -> u32
    ensures calls { Starts file.now (state_in set.old held.old used.old)
        (words_of items.old starts.old rows.old queue.old store.old)
        (outcome_in result set.new held.new used.new
        (words_of items.new starts.new rows.new queue.new store.new)) }
{
    host::brinesaddle_start(file, set, held, used, items, starts, rows, queue, store)
}

// Reads one token. Every number is a token at this door; T and above is 5.
#[unsafe(no_mangle)]
pub extern "C" fn brinesaddle_token(
    file: &[u8],
    set: &mut usize,
    held: &mut usize,
    used: &mut usize,
    items: &mut [u32],
    starts: &mut [u32],
    rows: &mut [u64],
    queue: &mut [u32],
    store: &mut [u16],
    t: u32,
) -> u32
    ensures calls { Takes file.now (state_in set.old held.old used.old)
        (words_of items.old starts.old rows.old queue.old store.old) (t ∷ [])
        (outcome_in result set.new held.new used.new
        (words_of items.new starts.new rows.new queue.new store.new)) }
    ensures sentences { PositionTells file.now (state_in set.old held.old used.old)
        (words_of items.old starts.old rows.old queue.old store.old) (t ∷ []) result }
{
    host::brinesaddle_token(file, set, held, used, items, starts, rows, queue, store, t)
}

// Reads tokens up to the first that is refused, and tells how many were taken.
#[unsafe(no_mangle)]
pub extern "C" fn brinesaddle_run(
    file: &[u8],
    set: &mut usize,
    held: &mut usize,
    used: &mut usize,
    items: &mut [u32],
    starts: &mut [u32],
    rows: &mut [u64],
    queue: &mut [u32],
    store: &mut [u16],
    tokens: &[u16],
    taken: &mut usize,
) -> u32
    ensures calls { Runs file.now (state_in set.old held.old used.old)
        (words_of items.old starts.old rows.old queue.old store.old)
        (plain tokens.now)
        (ended_in result set.new held.new used.new
        (words_of items.new starts.new rows.new queue.new store.new)
        taken.new) }
    ensures sentences { RunTells file.now (state_in set.old held.old used.old)
        (words_of items.old starts.old rows.old queue.old store.old)
        (plain tokens.now)
        (ended_in result set.new held.new used.new
        (words_of items.new starts.new rows.new queue.new store.new)
        taken.new) }
{
    host::brinesaddle_run(
        file, set, held, used, items, starts, rows, queue, store, tokens, taken,
    )
}

// Reads one position, of one kind of token or of several, strictly rising.
#[unsafe(no_mangle)]
pub extern "C" fn brinesaddle_kinds(
    file: &[u8],
    set: &mut usize,
    held: &mut usize,
    used: &mut usize,
    items: &mut [u32],
    starts: &mut [u32],
    rows: &mut [u64],
    queue: &mut [u32],
    store: &mut [u16],
    kinds: &[u16],
) -> u32
    ensures calls { Takes file.now (state_in set.old held.old used.old)
        (words_of items.old starts.old rows.old queue.old store.old)
        kinds.now
        (outcome_in result set.new held.new used.new
        (words_of items.new starts.new rows.new queue.new store.new)) }
    ensures sentences { PositionTells file.now (state_in set.old held.old used.old)
        (words_of items.old starts.old rows.old queue.old store.old)
        kinds.now result }
{
    host::brinesaddle_kinds(
        file, set, held, used, items, starts, rows, queue, store, kinds,
    )
}

// Reads positions up to the first that is refused, and tells how many were taken: how many kinds, then the kinds, position by position.
#[unsafe(no_mangle)]
pub extern "C" fn brinesaddle_run_kinds(
    file: &[u8],
    set: &mut usize,
    held: &mut usize,
    used: &mut usize,
    items: &mut [u32],
    starts: &mut [u32],
    rows: &mut [u64],
    queue: &mut [u32],
    store: &mut [u16],
    positions: &[u16],
    taken: &mut usize,
) -> u32
    ensures calls { Runs file.now (state_in set.old held.old used.old)
        (words_of items.old starts.old rows.old queue.old store.old)
        (positions_in positions.now)
        (ended_in result set.new held.new used.new
        (words_of items.new starts.new rows.new queue.new store.new)
        taken.new) }
    ensures sentences { RunTells file.now (state_in set.old held.old used.old)
        (words_of items.old starts.old rows.old queue.old store.old)
        (positions_in positions.now)
        (ended_in result set.new held.new used.new
        (words_of items.new starts.new rows.new queue.new store.new)
        taken.new) }
{
    host::brinesaddle_run_kinds(
        file, set, held, used, items, starts, rows, queue, store, positions, taken,
    )
}

// Whether the positions so far spell a sentence: 1 or 0 in `yes`, and the start symbol's node in `handle`, all ones where it is 0.
#[unsafe(no_mangle)]
pub extern "C" fn brinesaddle_finished(
    file: &[u8],
    set: usize,
    held: usize,
    used: usize,
    items: &[u32],
    starts: &[u32],
    rows: &[u64],
    queue: &[u32],
    store: &[u16],
    yes: &mut u32,
    handle: &mut u32,
) -> u32
    ensures calls { FinishesIn file.now (state_in set held used)
        (words_of items.now starts.now rows.now queue.now store.now) result
        yes.new handle.new }
    ensures sentences { FinishedTells file.now (state_in set held used)
        (words_of items.now starts.now rows.now queue.now store.now) result
        (says_in yes.new) }
{
    host::brinesaddle_finished(
        file, set, held, used, items, starts, rows, queue, store, yes, handle,
    )
}

// Where the latest set stands among the item words: the place of its first word, and the number of its words.
#[unsafe(no_mangle)]
pub extern "C" fn brinesaddle_latest_set(
    file: &[u8],
    set: usize,
    held: usize,
    used: usize,
    items: &[u32],
    starts: &[u32],
    rows: &[u64],
    queue: &[u32],
    store: &[u16],
    first: &mut usize,
    count: &mut usize,
) -> u32
    ensures calls { ReportsIn file.now (state_in set held used)
        (words_of items.now starts.now rows.now queue.now store.now) result
        first.new count.new }
{
    host::brinesaddle_latest_set(
        file, set, held, used, items, starts, rows, queue, store, first, count,
    )
}

// What could stand next: the ordinary tokens that the latest row holds, rising.
#[unsafe(no_mangle)]
pub extern "C" fn brinesaddle_expected(
    file: &[u8],
    set: usize,
    held: usize,
    used: usize,
    items: &[u32],
    starts: &[u32],
    rows: &[u64],
    queue: &[u32],
    store: &[u16],
    tokens: &mut [u16],
    count: &mut usize,
) -> u32
    ensures calls { Lists file.now (state_in set held used)
        (words_of items.now starts.now rows.now queue.now store.now) expected_tokens
        tokens.old result count.new tokens.new }
    ensures sentences { ExpectedTells file.now (state_in set held used)
        (words_of items.now starts.now rows.now queue.now store.now) result
        (take count.new tokens.new) }
{
    host::brinesaddle_expected(
        file, set, held, used, items, starts, rows, queue, store, tokens, count,
    )
}

// The latest set as text, a line an item.
#[unsafe(no_mangle)]
pub extern "C" fn brinesaddle_listing(
    file: &[u8],
    set: usize,
    held: usize,
    used: usize,
    items: &[u32],
    starts: &[u32],
    rows: &[u64],
    queue: &[u32],
    store: &[u16],
    text: &mut [u8],
    count: &mut usize,
) -> u32
    ensures calls { Lists file.now (state_in set held used)
        (words_of items.now starts.now rows.now queue.now store.now) latest_text
        text.old result count.new text.new }
{
    host::brinesaddle_listing(
        file, set, held, used, items, starts, rows, queue, store, text, count,
    )
}

// The latest set as words, five an item: rule, left side, first, second, origin.
#[unsafe(no_mangle)]
pub extern "C" fn brinesaddle_latest_words(
    file: &[u8],
    set: usize,
    held: usize,
    used: usize,
    items: &[u32],
    starts: &[u32],
    rows: &[u64],
    queue: &[u32],
    store: &[u16],
    words: &mut [u32],
    count: &mut usize,
) -> u32
    ensures calls { Lists file.now (state_in set held used)
        (words_of items.now starts.now rows.now queue.now store.now) latest_words
        words.old result count.new words.new }
{
    host::brinesaddle_latest_words(
        file, set, held, used, items, starts, rows, queue, store, words, count,
    )
}

// The latest set as records, one an item, out of its words.
#[unsafe(no_mangle)]
pub extern "C" fn brinesaddle_latest_records(
    file: &[u8],
    set: usize,
    held: usize,
    used: usize,
    items: &[u32],
    starts: &[u32],
    rows: &[u64],
    queue: &[u32],
    store: &[u16],
    records: &mut [Record],
    count: &mut usize,
) -> u32
    ensures calls { Lists file.now (state_in set held used)
        (words_of items.now starts.now rows.now queue.now store.now) latest_records
        records.old result count.new records.new }
{
    host::brinesaddle_latest_records(
        file, set, held, used, items, starts, rows, queue, store, records, count,
    )
}

// Writes a node at p. The node is five numbers: its kind, and its values.
#[unsafe(no_mangle)]
pub extern "C" fn brinesaddle_node_write(
    store: &mut [u16],
    p: usize,
    node: &[u32; 5],
    behind: &mut usize,
    place: &mut usize,
) -> u32
    ensures number { result ≡ number_in (write_in store.old p node.now).answer }
    ensures behind { behind.new ≡ position_or behind.old
        (values_of (write_in store.old p node.now).answer) }
    ensures place { place.new ≡ place_or place.old
        (write_in store.old p node.now).answer }
    ensures store { store.new ≡ (write_in store.old p node.now).store }
{
    host::brinesaddle_node_write(store, p, node, behind, place)
}

// Reads the first node from p on, as five numbers. At the end the kind is END.
#[unsafe(no_mangle)]
pub extern "C" fn brinesaddle_node_read(
    store: &[u16],
    p: usize,
    node: &mut [u32; 5],
    behind: &mut usize,
    place: &mut usize,
) -> u32
    ensures number { result ≡ number_in (read_at store.now p) }
    ensures node { node.new ≡ numbers_or node.old (values_of (read_at store.now p)) }
    ensures behind { behind.new ≡ position_or behind.old (values_of (read_at store.now p)) }
    ensures place { place.new ≡ place_or place.old (read_at store.now p) }
{
    host::brinesaddle_node_read(store, p, node, behind, place)
}

// Reads on from p to the end or the first 12: how many nodes there were, and the position behind the last.
#[unsafe(no_mangle)]
pub extern "C" fn brinesaddle_node_walk(
    store: &[u16],
    p: usize,
    count: &mut usize,
    behind: &mut usize,
    place: &mut usize,
) -> u32
    ensures number { result ≡ number_in (walk_at store.now p) }
    ensures count { count.new ≡ count_or count.old (values_of (walk_at store.now p)) }
    ensures behind { behind.new ≡ position_or behind.old (values_of (walk_at store.now p)) }
    ensures place { place.new ≡ place_or place.old (walk_at store.now p) }
{
    host::brinesaddle_node_walk(store, p, count, behind, place)
}

// Translates a written grammar into a grammar file.
#[unsafe(no_mangle)]
pub extern "C" fn brinesaddle_translate(
    written: &[u8],
    file: &mut [u8],
    length: &mut usize,
    empty: &mut u32,
) -> u32
    ensures { TranslatesIn written.now file.old file.new
        length.old empty.old result length.new empty.new }
{
    host::brinesaddle_translate(written, file, length, empty)
}

// How many trees there are under a handle of a node store.
#[unsafe(no_mangle)]
pub extern "C" fn brinesaddle_count(
    store: &[u16],
    handle: usize,
    trees: &mut u64,
    place: &mut usize,
) -> u32
    ensures { CountsIn store.now handle trees.old place.old result trees.new place.new }
{
    host::every_tree::brinesaddle_count(store, handle, trees, place)
}

// The words of the k-th tree under a handle, in preorder: rule numbers, and the tokens of leaves.
#[unsafe(no_mangle)]
pub extern "C" fn brinesaddle_tree(
    store: &[u16],
    handle: usize,
    k: u64,
    out: &mut [u32],
    count: &mut usize,
    place: &mut usize,
) -> u32
    ensures { TellsIn store.now handle k out.old out.new place.old result count.new
        place.new }
{
    host::every_tree::brinesaddle_tree(store, handle, k, out, count, place)
}

// Whether the tokens are a sentence, by a table of which symbol derives which stretch of them.
#[unsafe(no_mangle)]
pub extern "C" fn brinesaddle_plain(
    file: &[u8],
    tokens: &[u16],
    table: &mut [u64],
    yes: &mut u32,
    count: &mut usize,
) -> u32
    ensures { PlainIn file.now tokens.now table.old table.new yes.old result
        yes.new count.new }
{
    host::plain_engine::brinesaddle_plain(file, tokens, table, yes, count)
}
