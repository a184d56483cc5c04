// The follow table: row X below N holds every symbol that can stand right behind X.
ghost use Rattle.std.specs.Prelude.{ℕ, ◌≤◌};
ghost use Rattle.bits.specs.Width.{row_words};
ghost use Rattle.grammar.specs.Accepted.{max_symbols, max_rules};
ghost use Rattle.grammar.specs.inner.Decoded.{grammar_in};
ghost use Rattle.grammar.specs.Following.{Followers};
ghost use Rattle.prediction.specs.inner.Tables.{AllWithin, Shape, Tells, Beside, Across};

use crate::{Table, close, seed, table as prediction};
use bits::{WIDTH, has, join};
use grammar::limits::SYMBOLS;
use grammar::rules::{NONE, Rules};

// For each rule of two symbols, in the first one's row what the second begins with.
// `n` bounds the symbols in what is asked, as in `table`, and stands by itself as there.
fn beside(rules: &Rules, begins: &Table, n: usize) -> Table
    requires { (rules.now.count ≤ max_rules) × AllWithin rules.now.words n rules.now.count × Shape row_words begins.now }
    ensures { Tells row_words (Beside rules.now.words begins.now rules.now.count) result }
{
    let mut table = [[0; WIDTH]; SYMBOLS];
    for r in 0..rules.count {
        let c = rules.second(r);
        if c == NONE {
            continue;
        }
        let a = rules.first(r);
        table[a] = join(&table[a], &begins[c]);
    }
    table
}

// What is led to by a bit of `to` and then one of `on`.
fn across(to: &Table, on: &Table, n: usize) -> Table
    requires { (n ≤ max_symbols) × Shape row_words to.now × Shape row_words on.now }
    ensures { Tells row_words (Across to.now on.now n) result }
{
    let mut table = [[0; WIDTH]; SYMBOLS];
    for x in 0..n {
        for m in 0..n {
            if !has(&to[x], m) {
                continue;
            }
            table[x] = join(&table[x], &on[m]);
        }
    }
    table
}

// The follow table of a grammar whose symbols are below `n`, whatever its number of tokens: what stands beside each symbol that `x`
// ends, itself among them.
pub fn table(rules: &Rules, n: usize) -> Table
    requires { (rules.now.count ≤ max_rules) × AllWithin rules.now.words n rules.now.count }
    ensures { (t : ℕ) → Followers (grammar_in rules.now.words n t rules.now.count) row_words result }
{
    let begins = prediction(rules, n);
    let ends = seed(rules.count, n, |r| rules.last(r), |r| rules.left(r));
    let ended = close(ends, 0, n);
    let behind = beside(rules, &begins, n);
    across(&ended, &behind, n)
}
