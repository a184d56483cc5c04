// The rows of the table: eight words each, symbol s bit s % 64, from the low end, of word s / 64.
// Crate bits has such rows too. They are written again here, so that this engine shares nothing but `grammar` with the other.
ghost use Rattle.std.specs.Prelude.{◌≡◌, ◌≤◌, length};
ghost use Rattle.laws.specs.Bits.{holds, adding, row_of, with_row};
ghost use Rattle.plain.specs.Table.{row_words};
ghost use Rattle.plain.specs.inner.Filling.{BitThere, Cleared};

// The words of a row, and the bits of a word.
pub const WIDTH: usize = 8;

const WORD: usize = 64;

// Whether row `k` holds `symbol`.
pub fn has(table: &[u64], k: usize, symbol: usize) -> bool
    requires { BitThere table.now k symbol }
    ensures { result ≡ holds (row_of row_words table.now k) symbol }
{
    (table[WIDTH * k + symbol / WORD] >> (symbol % WORD)) % 2 == 1
}

// Adds `symbol` to row `k`.
pub fn mark(table: &mut [u64], k: usize, symbol: usize)
    requires { BitThere table.old k symbol }
    ensures { table.new ≡ with_row row_words table.old k
        (adding (row_of row_words table.old k) symbol) }
{
    let at = WIDTH * k + symbol / WORD;
    table[at] = table[at] | 1 << (symbol % WORD);
}

// Clears the first `end` words.
pub fn clear(table: &mut [u64], end: usize)
    requires { end ≤ length table.old }
    ensures { Cleared end table.old table.new }
{
    table[..end].fill(0);
}
