// Units put into a store.
ghost use Rattle.std.specs.Prelude.{◌≡◌, min, ◌<◌, length};
ghost use Rattle.node.specs.Answers.{written};
ghost use Rattle.node.specs.Writing.{StoreOutcome, usable_units, place};

use crate::Unwritten;

// The first units of a store are usable, and no others.
const USABLE_UNITS: usize = 32768;

// How many units of a store of this length are usable.
pub fn usable(len: usize) -> usize
    ensures { result ≡ min usable_units len }
{
    len.min(USABLE_UNITS)
}

// Units at p, or 11.
pub fn place_units(store: &mut [u16], p: usize, units: &[u16]) -> Result<usize, Unwritten>
    ensures { record { answer = written result; store = store.new } ≡ place store.old p units.now }
{
    let end = usable(store.len());
    if end < units.len() || end - units.len() < p {
        return Err(Unwritten::NoRoom(p));
    }
    let behind = p + units.len();
    store[p..behind].copy_from_slice(units);
    Ok(behind)
}
