// The table is filled by length: every shorter stretch is settled before a longer one, and one stretch by its rules, falling by number.
ghost use Rattle.std.specs.Prelude.{◌≡◌, ◌+◌, ◌*◌, ◌≤◌, ◌<◌, length};
ghost use Rattle.laws.specs.Bits.{word_bits};
ghost use Rattle.laws.specs.Decides.{Decides};
ghost use Rattle.grammar.specs.inner.Decoded.{decoded};
ghost use Rattle.plain.specs.Table.{row_words, Stretch, stretches_up_to, place};
ghost use Rattle.plain.specs.Calls.{Ordinary};
ghost use Rattle.plain.specs.inner.Filling.{Room, Splits, Fires, Narrow, Seeded, Filling, Given, Kept};

use crate::places::{place, stretches_up_to};
use crate::rows::{WIDTH, clear, has, mark};
use grammar::Grammar;
use grammar::rules::{NONE, Rules};

// Whether some cut of the stretch leaves a first part that holds `b` and a rest that holds `c`.
// Not inlined: the loop over the cuts is laid out by itself (docs/DESIGN-PASS.md, "Loops by themselves").
#[inline(never)]
fn splits(table: &[u64], n: usize, l: usize, i: usize, b: usize, c: usize) -> bool
    requires { Room n table.now × Stretch n l i × (b < word_bits * row_words) × (c < word_bits * row_words) }
    ensures { Decides result (Splits table.now n l i b c) }
{
    for k in 1..l {
        if has(table, place(n, k, i), b) && has(table, place(n, l - k, i + k), c) {
            return true;
        }
    }
    false
}

// Whether the right side of rule `r` derives the stretch, by what the table holds. A stretch is three numbers by themselves: each cut makes
// two others of the same `n`, so that a struct of the three would be made twice in each turn of `splits`.
fn fires(rules: &Rules, r: usize, table: &[u64], n: usize, l: usize, i: usize) -> bool
    requires { Narrow rules.now.words r × Room n table.now × Stretch n l i }
    ensures { Decides result (Fires rules.now.words table.now n l i r) }
{
    let b = rules.first(r);
    let c = rules.second(r);
    if c == NONE {
        has(table, place(n, l, i), b)
    } else {
        splits(table, n, l, i, b, c)
    }
}

// Settles one stretch. A ::= B stands below every rule of B, so B is settled when A ::= B is met.
fn fill_row(grammar: &Grammar, tokens: &[u16], table: &mut [u64], l: usize, i: usize)
    requires { Given (decoded grammar.now) tokens.now table.old
        × Stretch (length tokens.now) l i
        × Filling (decoded grammar.now) tokens.now table.old (place (length tokens.now) l i) }
    ensures { Kept (length tokens.now) table.old table.new
        × Filling (decoded grammar.now) tokens.now table.new
        (place (length tokens.now) l i + 1) }
{
    let n = tokens.len();
    let at = place(n, l, i);
    for r in (0..grammar.rules.count).rev() {
        if fires(&grammar.rules, r, table, n, l, i) {
            mark(table, at, grammar.rules.left(r));
        }
    }
}

// Settles every stretch of `l` tokens.
fn fill_length(grammar: &Grammar, tokens: &[u16], table: &mut [u64], l: usize)
    requires { Given (decoded grammar.now) tokens.now table.old
        × (0 < l) × (l ≤ length tokens.now)
        × Filling (decoded grammar.now) tokens.now table.old (place (length tokens.now) l 0) }
    ensures { Kept (length tokens.now) table.old table.new
        × Filling (decoded grammar.now) tokens.now table.new
        (place (length tokens.now) (l + 1) 0) }
{
    let end = tokens.len() - l + 1;
    for i in 0..end {
        fill_row(grammar, tokens, table, l, i);
    }
}

// Each token derives itself.
fn seed(tokens: &[u16], table: &mut [u64])
    requires { Room (length tokens.now) table.old × Ordinary (word_bits * row_words) tokens.now
        × Seeded tokens.now table.old 0 }
    ensures { Kept (length tokens.now) table.old table.new
        × Seeded tokens.now table.new (length tokens.now) }
{
    for (i, token) in tokens.iter().enumerate() {
        mark(table, i, usize::from(*token));
    }
}

// Settles every stretch.
pub fn fill(grammar: &Grammar, tokens: &[u16], table: &mut [u64])
    requires { Given (decoded grammar.now) tokens.now table.old }
    ensures { Kept (length tokens.now) table.old table.new
        × Filling (decoded grammar.now) tokens.now table.new
        (stretches_up_to (length tokens.now) (length tokens.now)) }
{
    let n = tokens.len();
    clear(table, WIDTH * stretches_up_to(n, n));
    seed(tokens, table);
    for l in 0..n {
        fill_length(grammar, tokens, table, l + 1);
    }
}
