// The nodes that reading meets in the units of a store: their heads are marked, and the items' handles looked up among the marks.
ghost use Rattle.std.specs.Prelude.{◌≡◌, ◌*◌, ◌≤◌, ◌<◌, length};
ghost use Rattle.laws.specs.Bits.{holds, adding};
ghost use Rattle.laws.specs.Decides.{Decides};
ghost use Rattle.item.specs.Item.{item_words};
ghost use Rattle.node.specs.Writing.{usable_units};
ghost use Rattle.parse.specs.Heads.{ToEnd};
ghost use Rattle.parse.specs.inner.Parts.{head_words, Unmarked, HeadsMarked, HandlesMarked, StoreFits};

use crate::padding::FILLER;
use crate::room::UNITS;

// The words of the marks.
pub const HEAD_WORDS: usize = 512;

// A mark for each usable unit: unit h is bit h % 64, from the low end, of word h / 64.
pub type Heads = [u64; HEAD_WORDS];

// Marks the head `h`.
fn mark(heads: &mut Heads, h: usize)
    requires { (length heads.old ≡ head_words) × (h < usable_units) }
    ensures { heads.new ≡ adding heads.old h }
{
    bits::set_bit(heads, h);
}

// Whether `h` is a marked head.
fn is_marked(heads: &Heads, h: usize) -> bool
    requires { length heads.now ≡ head_words }
    ensures { result ≡ holds heads.now h }
{
    h < UNITS && bits::bit(heads, h)
}

// Whether reading units from 0 comes to their end. Marks the heads that it meets, up to the end or the first 12.
fn mark_heads(units: &[u16], heads: &mut Heads) -> bool
    requires { (length units.now ≤ usable_units) × Unmarked heads.old }
    ensures reads { Decides result (ToEnd units.now 0) }
    ensures marks { HeadsMarked units.now heads.new }
{
    let mut at: usize = 0;
    // No count: a step passes a filler, or a whole node.
    while at < units.len() {
        if units[at] == FILLER {
            at += 1;
            continue;
        }
        match node::read(units, at) {
            Ok(Some(found)) => {
                mark(heads, at);
                at = found.1;
            }
            Ok(None) => return false,
            Err(_) => return false,
        }
    }
    true
}

// Whether the handles of the first `held` items are all marked.
fn handles_marked(items: &[u32], held: usize, heads: &Heads) -> bool
    requires { (item_words * held ≤ length items.now) × (length heads.now ≡ head_words) }
    ensures { Decides result (HandlesMarked items.now held heads.now) }
{
    (0..held).all(|p| is_marked(heads, item::handle(items, p) as usize))
}

// Whether units read to their end, and the handles of the first `held` items are heads of nodes met on that way.
pub fn store_fits(items: &[u32], held: usize, units: &[u16]) -> bool
    requires { (item_words * held ≤ length items.now) × (length units.now ≤ usable_units) }
    ensures { Decides result (StoreFits items.now units.now held) }
{
    let mut heads = [0; HEAD_WORDS];
    mark_heads(units, &mut heads) && handles_marked(items, held, &heads)
}
