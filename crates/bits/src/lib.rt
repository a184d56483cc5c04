// Rows of symbols, as bits in words: test one symbol, add one, join two rows.
// Symbol s is bit s % 64, from the low end, of word s / 64 of its row.
#![tactic(auto)]

ghost use Rattle.std.specs.Prelude.{◌≡◌, ℕ, ◌+◌, ◌*◌, ◌≤◌, ◌<◌, length};
ghost use Rattle.laws.specs.Bits.{word_bits, holds, union, adding, row_of, with_row};
ghost use Rattle.bits.specs.Width.{row_words};

// The words of a row, and the bits of a word.
pub const WIDTH: usize = 8;

pub const WORD: usize = 64;

// A row.
pub type Row = [u64; WIDTH];

// Whether bit `i` is set in words of 64 bits.
pub fn bit(words: &[u64], i: usize) -> bool
    requires { i < word_bits * length words.now }
    ensures { result ≡ holds words.now i }
{
    (words[i / WORD] >> (i % WORD)) % 2 == 1
}

// Sets bit `i` in words of 64 bits.
pub fn set_bit(words: &mut [u64], i: usize)
    requires { i < word_bits * length words.old }
    ensures { words.new ≡ adding words.old i }
{
    words[i / WORD] |= 1 << (i % WORD);
}

// Whether `symbol` is in a row.
pub fn has(row: &Row, symbol: usize) -> bool
    requires { symbol < word_bits * row_words }
    ensures { result ≡ holds row.now symbol }
{
    bit(row, symbol)
}

// Whether `symbol` is in row `k` of words that hold rows one behind the other.
pub fn has_at(rows: &[u64], k: usize, symbol: usize) -> bool
    requires { (row_words * k + row_words ≤ length rows.now) × (symbol < word_bits * row_words) }
    ensures { result ≡ holds (row_of row_words rows.now k) symbol }
{
    bit(&rows[WIDTH * k..WIDTH * k + WIDTH], symbol)
}

// The row with `symbol` added.
pub fn add(row: Row, symbol: usize) -> Row
    requires { symbol < word_bits * row_words }
    ensures { result ≡ adding row symbol }
{
    let mut to = row;
    set_bit(&mut to, symbol);
    to
}

// The union of two rows.
pub fn join(a: &Row, b: &Row) -> Row
    ensures { result ≡ union a.now b.now }
{
    let mut to = *a;
    join_at(&mut to, 0, b);
    to
}

// Row `k` of words that hold rows one behind the other becomes its union with `row`.
pub fn join_at(rows: &mut [u64], k: usize, row: &Row)
    requires { row_words * k + row_words ≤ length rows.old }
    ensures { rows.new ≡ with_row row_words rows.old k
        (union (row_of row_words rows.old k) row.now) }
{
    for (i, word) in row.iter().enumerate() {
        rows[WIDTH * k + i] |= word;
    }
}

// Row `k` of words that hold rows one behind the other becomes `row`.
pub fn put_at(rows: &mut [u64], k: usize, row: &Row)
    requires { row_words * k + row_words ≤ length rows.old }
    ensures { rows.new ≡ with_row row_words rows.old k row.now }
{
    rows[WIDTH * k..WIDTH * k + WIDTH].copy_from_slice(row);
}
