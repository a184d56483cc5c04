// Words that are spare from a place on: whether they are, and making them so. Items, starts and the queue are words of 32 bits, rows of 64,
// and the store is units of 16.
ghost use Rattle.std.specs.Prelude.{◌≡◌, ℕ, true, ◌+◌, ◌≤◌, length, take};
ghost use Rattle.std.proofs.Common.{rules};
ghost use Rattle.laws.specs.Decides.{Decides};
ghost use Rattle.node.specs.Reading.{filler};
ghost use Rattle.parse.specs.Words.{topped};
ghost use Rattle.parse.specs.inner.Parts.{block_words, Spare, SpareBetween};

// The unit that stands for none. Crate node has it too: the contracts hold both to the specs' one `filler`.
pub const FILLER: u16 = 0xFFFF;

// Spare words are looked at by blocks, without a way out of the middle of one, so that a processor can look at many words at a time.
const BLOCK: usize = 64;

// A word of a parse, or a unit of its store: one of them stands where there is none.
pub trait Word: Copy + PartialEq {
    const SPARE: Self;

    ghost SPARE: { Self };

    // Equal ones are the same.
    ghost same: { (a b : Self) → Self.eq a b ≡ true → a ≡ b };

    ghost equal: { (a : Self) → Self.eq a a ≡ true };

    // A clone never fails, and is the same.
    ghost infallible: { (a : Self) → Self.is_infallible a };

    ghost copied: { (a b : Self) → Self.is_clone a b → b ≡ a };
}

impl Word for u16 {
    const SPARE: u16 = FILLER;

    ghost SPARE = { filler };

    ghost same = { Prim.search rules };

    ghost equal = { Prim.search rules };

    ghost infallible = { Prim.search rules };

    ghost copied = { Prim.search rules };
}

impl Word for u32 {
    const SPARE: u32 = 0;

    ghost SPARE = { 0 };

    ghost same = { Prim.search rules };

    ghost equal = { Prim.search rules };

    ghost infallible = { Prim.search rules };

    ghost copied = { Prim.search rules };
}

impl Word for u64 {
    const SPARE: u64 = 0;

    ghost SPARE = { 0 };

    ghost same = { Prim.search rules };

    ghost equal = { Prim.search rules };

    ghost infallible = { Prim.search rules };

    ghost copied = { Prim.search rules };
}

// Whether every word of the block at `from` is spare.
fn is_spare_block<W: Word>(words: &[W], from: usize) -> bool
    requires { from + block_words ≤ length words.now }
    ensures { result ≡ true → SpareBetween W.SPARE words.now from (from + block_words) }
{
    let mut spare = true;
    for i in from..from + BLOCK {
        spare = spare & (words[i] == W::SPARE);
    }
    spare
}

// Whether every word from `from` on is spare.
pub fn is_spare<W: Word>(words: &[W], from: usize) -> bool
    ensures { Decides result (Spare W.SPARE words.now from) }
{
    let mut i = from;
    // No count: a step passes a block, or one word.
    while i < words.len() {
        if words.len() - i >= BLOCK && is_spare_block(words, i) {
            i += BLOCK;
            continue;
        }
        if words[i] != W::SPARE {
            return false;
        }
        i += 1;
    }
    true
}

// Makes the words from `from` up to and without `to` spare. Those behind are.
pub fn clear<W: Word>(words: &mut [W], from: usize, to: usize)
    requires { (from ≤ length words.old) × (to ≤ length words.old) × Spare W.SPARE words.old to }
    ensures { words.new ≡ topped W.SPARE (length words.old) (take from words.old) }
{
    if from < to {
        words[from..to].fill(W::SPARE);
    }
}
