// A queue entry is two words of a lent slice: the place of an item, and its right factor. Entries are read and stored here alone;
// elsewhere the queue's words are only cleared, tested for 0, and lent on.
ghost use Rattle.std.specs.Prelude.{◌≡◌, ◌<◌, length, set};
ghost use Rattle.binary_heap.specs.Entry.{entries_in};
ghost use Rattle.binary_heap.specs.Sift.{entry_at};

// The words that an entry takes.
pub const ENTRY_WORDS: usize = 2;

// An entry: the place of an item, and the handle of the node of the symbol behind its dot. No Option for a handle that is none: an
// entry is two words, and all ones stand for none in the second.
#[derive(Clone, Copy, PartialEq, Eq)]
pub struct Entry {
    pub place: u32,
    pub right: u32,
}

// The entry that words of 0 hold.
pub const NO_ENTRY: Entry = Entry { place: 0, right: 0 };

// The entry at `pos`.
#[tactic(auto, using(crate::proofs::Held::held_words))]
pub fn read(queue: &[u32], pos: usize) -> Entry
    requires { pos < length (entries_in queue.now) }
    ensures { result ≡ entry_at (entries_in queue.now) pos }
{
    Entry {
        place: queue[ENTRY_WORDS * pos],
        right: queue[ENTRY_WORDS * pos + 1],
    }
}

// Stores an entry at `pos`.
#[tactic(auto, using(crate::proofs::Held::held_words))]
pub fn write(queue: &mut [u32], pos: usize, entry: Entry)
    requires { pos < length (entries_in queue.old) }
    ensures { entries_in queue.new ≡ set (entries_in queue.old) pos entry }
{
    queue[ENTRY_WORDS * pos] = entry.place;
    queue[ENTRY_WORDS * pos + 1] = entry.right;
}
