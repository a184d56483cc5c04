// What tree tells: the answers by weight, the number of words needed, and the words.
ghost use Rattle.std.specs.Prelude.{◌≡◌, Some};
ghost use Rattle.trees.specs.Faults.{Sound};
ghost use Rattle.trees.specs.Answers.{needed, Tells, told};
ghost use Rattle.trees.specs.inner.Heads.{SumAt};
ghost use Rattle.trees.specs.inner.Weights.{entry_at};
ghost use Rattle.trees.specs.inner.Tables.{Filled};
ghost use Rattle.trees.specs.inner.Walks.{Walks};

use crate::table::{Table, UNITS};
use crate::walking::{Walk, walk_sum};
use crate::{Untold, Weight};

// A number of words as it is told.
fn needed_words(words: usize) -> usize
    ensures { result ≡ needed words }
{
    if words <= UNITS { words } else { usize::MAX }
}

// The words of the k-th tree. They are counted first, over no place at all, up to past the place and past the usable units.
fn write(
    store: &[u16],
    table: &Table,
    handle: usize,
    k: u64,
    out: &mut [u32],
) -> Result<usize, Untold>
    requires { Sound store.now handle × Walks store.now table.now handle k }
    ensures { Tells store.now handle k out.old (told result) out.new }
{
    let room = out.len();
    let limit = room.max(UNITS) + 1;
    let walk = Walk { store, table };
    let words = walk_sum(&walk, handle, k, &mut out[..0], 0, limit);
    if room < words {
        return Err(Untold::TooShort(needed_words(words)));
    }
    Ok(walk_sum(&walk, handle, k, out, 0, limit))
}

// By what the Sum at the handle weighs: its lowest fault; or no such tree, where k is none of so many; or the words.
pub fn by_weight(
    store: &[u16],
    table: &Table,
    handle: usize,
    weight: Weight,
    k: u64,
    out: &mut [u32],
) -> Result<usize, Untold>
    requires { SumAt store.now handle × ((entry_at store.now handle ≡ Some weight)
        × Filled store.now handle table.now) }
    ensures { Tells store.now handle k out.old (told result) out.new }
{
    match weight {
        Weight::Fault(low) => Err(Untold::Faulty(low as usize)),
        Weight::Number(trees) => {
            if trees <= k {
                return Err(Untold::NoSuch);
            }
            write(store, table, handle, k, out)
        }
        Weight::Many => write(store, table, handle, k, out),
    }
}
