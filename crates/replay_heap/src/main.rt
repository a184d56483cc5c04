// Replays recorded pop orders of the Rust, entries with equal keys included: standard input is oracle/vectors/heap.txt. Tells how many
// records and pops there were, how many pops gave another entry than the Rust, and how many words of the queue were left uncleared. The
// Rust's entries are places alone; here each is pushed with a right factor of its place, and must come out with it.
#![tactic(auto)]

ghost use Rattle.std.specs.Prelude.{◌≡◌};
ghost use Rattle.binary_heap.specs.Entry.{entries_in};
ghost use Rattle.binary_heap.specs.Queue.{Places};

use binary_heap::entry::{ENTRY_WORDS, Entry};
use item::{ITEM_WORDS, Item};
use programs::reading::read_full;
use std::io;

// The text, the words of a record's items, and those of its queue at most: 1,024 items and as many entries.
const TEXT: usize = 262_144;

const ITEMS: usize = 3072;

const QUEUE: usize = 2048;

// Where the replay stands: the places in the text of the next operation and of the next recorded answer, the number of entries in the
// queue, the pops so far, and how many of them went otherwise than recorded.
#[derive(Clone, Copy)]
struct Replay {
    operation: usize,
    answer: usize,
    entries: usize,
    pops: u64,
    different: u64,
}

impl Replay {
    // An operation that cannot be done counts as different.
    fn refused(self, operation: usize, answer: usize) -> Replay
        ensures { result.entries ≡ self.entries }
    {
        Replay {
            operation,
            answer,
            different: self.different.wrapping_add(1),
            ..self
        }
    }
}

fn main(rt: HostRuntime) -> io::Result<()> {
    let mut text = [0u8; TEXT];
    let length = read_full(&mut rt.reader(), &mut text);
    let mut items = [0u32; ITEMS];
    let mut queue = [0u32; QUEUE];
    let records = numbers::read(&text[..length], 0);
    let end = replay_records(
        &text[..length],
        &mut items,
        &mut queue,
        records.next,
        records.value,
    );
    let uncleared = queue.iter().filter(|&&word| word != 0).count();
    println!(rt; "records {}", records.value)?;
    println!(rt; "pops {}", end.pops)?;
    println!(rt; "different {}", end.different)?;
    println!(rt; "uncleared {uncleared}")
}

// Replays records one after the other, from a place of the text on.
fn replay_records(
    text: &[u8],
    items: &mut [u32],
    queue: &mut [u32],
    at: usize,
    records: u64,
) -> Replay {
    let mut end = Replay {
        operation: at,
        answer: at,
        entries: 0,
        pops: 0,
        different: 0,
    };
    for _ in 0..records {
        end = replay_record(text, items, queue, end);
    }
    end
}

// Replays the record behind the answers of the one before: its items, then its operations on an empty queue. Its own recorded answers
// stand behind these.
fn replay_record(text: &[u8], items: &mut [u32], queue: &mut [u32], before: Replay) -> Replay {
    let count = numbers::read(text, before.answer);
    let behind = load(text, items, count.next, count.value);
    let operations = numbers::read(text, behind);
    let start = Replay {
        operation: operations.next,
        answer: answers_of(text, operations.next, operations.value),
        entries: 0,
        ..before
    };
    operate(text, items, queue, start, operations.value)
}

// Stores as many items as there is room for, and answers the place behind the items in the text.
fn load(text: &[u8], items: &mut [u32], at: usize, count: u64) -> usize {
    let mut next = at;
    for place in 0..count {
        let origin = numbers::read(text, next);
        let rule = numbers::read(text, origin.next);
        next = rule.next;
        let item = Item {
            origin: low(origin.value),
            rule: low(rule.value),
            handle: 0,
        };
        store(items, place, item);
    }
    next
}

// Stores an item, if there is room.
fn store(items: &mut [u32], place: u64, item: Item) {
    if place < (items.len() / ITEM_WORDS) as u64 {
        item::write(items, place as usize, item);
    }
}

// The place behind the operations: two numbers for a push, one for a pop.
fn answers_of(text: &[u8], at: usize, operations: u64) -> usize {
    let mut next = at;
    for _ in 0..operations {
        let operation = numbers::read(text, next);
        next = operation.next;
        if operation.value == 0 {
            next = numbers::read(text, next).next;
        }
    }
    next
}

// Does the operations of a record.
fn operate(text: &[u8], items: &[u32], queue: &mut [u32], start: Replay, operations: u64) -> Replay
    requires { Places items.now (entries_in queue.old) start.entries }
{
    let mut r = start;
    for _ in 0..operations {
        r = step(text, items, queue, r);
    }
    r
}

// Does one operation.
fn step(text: &[u8], items: &[u32], queue: &mut [u32], r: Replay) -> Replay
    requires { Places items.now (entries_in queue.old) r.entries }
    ensures { Places items.now (entries_in queue.new) result.entries }
{
    let operation = numbers::read(text, r.operation);
    // 0 is a push in the recorded text.
    if operation.value != 0 {
        return pop(text, items, queue, r, operation.next);
    }
    let place = numbers::read(text, operation.next);
    push(items, queue, r, place.next, low(place.value))
}

// A push.
fn push(items: &[u32], queue: &mut [u32], r: Replay, next: usize, place: u32) -> Replay
    requires { Places items.now (entries_in queue.old) r.entries }
    ensures { Places items.now (entries_in queue.new) result.entries }
{
    if (place as usize) >= items.len() / ITEM_WORDS {
        return r.refused(next, r.answer);
    }
    let entry = Entry {
        place,
        right: factor(place),
    };
    let capacity = queue.len() / ENTRY_WORDS;
    match binary_heap::push(items, queue, capacity, r.entries, entry) {
        Some(entries) => Replay {
            operation: next,
            entries,
            ..r
        },
        None => r.refused(next, r.answer),
    }
}

// A pop, compared with the next recorded answer.
fn pop(text: &[u8], items: &[u32], queue: &mut [u32], r: Replay, next: usize) -> Replay
    requires { Places items.now (entries_in queue.old) r.entries }
    ensures { Places items.now (entries_in queue.new) result.entries }
{
    let recorded = numbers::read(text, r.answer);
    match binary_heap::pop(items, queue, r.entries) {
        Some((entry, left)) => Replay {
            operation: next,
            answer: recorded.next,
            entries: left,
            pops: r.pops.wrapping_add(1),
            different: r
                .different
                .wrapping_add(differs(entry, recorded.value) as u64),
        },
        None => r.refused(next, recorded.next),
    }
}

// The right factor that a place is pushed with, another for each.
fn factor(place: u32) -> u32 {
    low(u64::from(place) + 1)
}

// Whether an entry is not the recorded one, or has not its right factor.
fn differs(entry: Entry, recorded: u64) -> bool {
    entry.right != factor(entry.place) || u64::from(entry.place) != recorded
}

// The low 32 bits. `as` has to lose nothing, so the remainder is taken before it.
fn low(value: u64) -> u32 {
    (value % 4_294_967_296) as u32
}
