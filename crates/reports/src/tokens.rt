// The symbols that a row holds, listed in rising order.
ghost use Rattle.std.specs.Prelude.{◌≡◌, ◌++◌, ◌+◌, ◌*◌, ◌≤◌, ◌<◌, length, drop};
ghost use Rattle.laws.specs.Bits.{word_bits, row_of};
ghost use Rattle.bits.specs.Width.{row_words};
ghost use Rattle.reports.specs.Lists.{held_below};
ghost use Rattle.reports.specs.inner.Puts.{Puts, RowThere};

use crate::Unfilled;

// How many symbols below `end` row `e` holds. It is known before the first is written, since a place that is too short stays as it was.
fn count_held(rows: &[u64], e: usize, end: usize) -> usize
    requires { RowThere rows.now e end }
    ensures { result ≡ length (held_below (row_of row_words rows.now e) end) }
{
    let mut count = 0;
    // A loop like that of `write_held`, so that what is counted here is seen to be what is written there.
    for t in 0..end {
        if !bits::has_at(rows, e, t) {
            continue;
        }
        count += 1;
    }
    count
}

// Writes them in front.
fn write_held(rows: &[u64], e: usize, end: usize, out: &mut [u16])
    requires { RowThere rows.now e end × (length (held_below (row_of row_words rows.now e) end) ≤ length out.old) }
    ensures { out.new ≡ held_below (row_of row_words rows.now e) end
        ++ drop (length (held_below (row_of row_words rows.now e) end)) out.old }
{
    let mut at = 0;
    for t in 0..end {
        if !bits::has_at(rows, e, t) {
            continue;
        }
        out[at] = t as u16;
        at += 1;
    }
}

// Lists the symbols below `end` that row `e` holds.
pub fn list_tokens(rows: &[u64], e: usize, end: usize, out: &mut [u16]) -> Result<usize, Unfilled>
    requires { RowThere rows.now e end }
    ensures { Puts (held_below (row_of row_words rows.now e) end) out.old result out.new }
{
    let needed = count_held(rows, e, end);
    if out.len() < needed {
        return Err(Unfilled::TooShort(needed));
    }
    write_held(rows, e, end, out);
    Ok(needed)
}
