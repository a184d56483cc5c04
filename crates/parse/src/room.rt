// How many items, sets, queue entries and units the lent words have room for.
ghost use Rattle.std.specs.Prelude.{◌≡◌};
ghost use Rattle.parse.specs.Words.{item_room_of, set_room_of, queue_room_of, store_room_of};

use binary_heap::entry::ENTRY_WORDS;
use bits::WIDTH;
use item::ITEM_WORDS;

// The most items, sets, queue entries and units.
pub const ITEMS: usize = 4096;

pub const SETS: usize = 1024;

pub const QUEUED: usize = 1024;

// Crate node has this number too: the contracts hold both to the specs' one `usable_units`.
pub const UNITS: usize = 32768;

// I, the room for items.
pub fn item_room(items: &[u32]) -> usize
    ensures { result ≡ item_room_of items.now }
{
    ITEMS.min(items.len() / ITEM_WORDS)
}

// E, the room for sets. No start leaves room for none.
pub fn set_room(starts: &[u32], rows: &[u64]) -> usize
    ensures { result ≡ set_room_of starts.now rows.now }
{
    SETS.min(starts.len().saturating_sub(1).min(rows.len() / WIDTH))
}

// Q, the room for queue entries.
pub fn queue_room(queue: &[u32]) -> usize
    ensures { result ≡ queue_room_of queue.now }
{
    QUEUED.min(queue.len() / ENTRY_WORDS)
}

// U, the room for units.
pub fn store_room(store: &[u16]) -> usize
    ensures { result ≡ store_room_of store.now }
{
    UNITS.min(store.len())
}
