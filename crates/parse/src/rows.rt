// Rows that have no bit at the number of symbols or above.
ghost use Rattle.std.specs.Prelude.{◌≡◌, ℕ, ◌+◌, ◌*◌, ◌≤◌, ◌<◌, length};
ghost use Rattle.laws.specs.Bits.{row_of, Below};
ghost use Rattle.bits.specs.Width.{row_words};
ghost use Rattle.laws.specs.Decides.{Decides};
ghost use Rattle.parse.specs.inner.Parts.{WordBelow, RowsBelow};

use bits::{WIDTH, WORD};

// Whether word `i` of a row has no bit for the symbol `symbols` or one above.
fn word_below(symbols: usize, i: usize, word: u64) -> bool
    ensures { Decides result (WordBelow symbols i word) }
{
    if i < symbols / WORD {
        return true;
    }
    if i > symbols / WORD {
        return word == 0;
    }
    word >> (symbols % WORD) == 0
}

// Whether row `k` has no bit at `symbols` or above.
fn row_below(symbols: usize, rows: &[u64], k: usize) -> bool
    requires { row_words * k + row_words ≤ length rows.now }
    ensures { Decides result (Below symbols (row_of row_words rows.now k)) }
{
    (0..WIDTH).all(|i| word_below(symbols, i, rows[WIDTH * k + i]))
}

// Whether no row up to row `e` has one.
pub fn rows_below(symbols: usize, e: usize, rows: &[u64]) -> bool
    requires { row_words * e + row_words ≤ length rows.now }
    ensures { Decides result (RowsBelow symbols rows.now e) }
{
    (0..e + 1).all(|k| row_below(symbols, rows, k))
}
