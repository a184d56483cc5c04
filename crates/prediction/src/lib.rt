// The prediction table: row X below N holds X and every symbol reached from X by first symbols. And the follow table.
#![tactic(auto)]

ghost use Rattle.std.specs.Prelude.{◌≡◌, ℕ, ◌≤◌, ◌<◌};
ghost use Rattle.bits.specs.Width.{row_words};
ghost use Rattle.grammar.specs.Accepted.{max_symbols, max_rules};
ghost use Rattle.grammar.specs.inner.Decoded.{grammar_in};
ghost use Rattle.grammar.specs.Prediction.{Predicts};
ghost use Rattle.prediction.specs.inner.Tables.{Within, Shape, Symbols, Gives, Seeded, NotAbove, Closed, LowRows, Lone};

pub mod follow;

use bits::{Row, WIDTH, add, has, join};
use grammar::limits::SYMBOLS;
use grammar::rules::Rules;

// A row for each symbol.
pub type Table = [Row; SYMBOLS];

// Each symbol below `n` in its own row.
fn own(n: usize) -> Table
    requires { n ≤ max_symbols }
    ensures { (from to : ℕ → ℕ) → Seeded from to row_words n 0 result }
{
    let mut table = [[0; WIDTH]; SYMBOLS];
    for x in 0..n {
        table[x] = add(table[x], x);
    }
    table
}

// And of each of `count` rules the symbol that `to` gives in the row of the one that `from` gives.
fn seed<F: Fn(usize) -> usize, T: Fn(usize) -> usize>(
    count: usize,
    n: usize,
    from: F,
    to: T,
) -> Table
    requires few { n ≤ max_symbols }
    requires symbols { Symbols (F.pre from) (F.post from) count × Symbols (T.pre to) (T.post to) count }
    ensures { (a b : ℕ → ℕ) → Gives (F.post from) a count → Gives (T.post to) b count → Seeded a b row_words n count result }
{
    let mut table = own(n);
    for r in 0..count {
        let x = from(r);
        table[x] = add(table[x], to(r));
    }
    table
}

// The lowest left side of a rule, or `n`. A symbol below it leads to itself alone, as every token does.
// The rules and `n` by themselves, as in `table`.
fn lowest_left(rules: &Rules, n: usize) -> usize
    requires { rules.now.count ≤ max_rules }
    ensures { NotAbove rules.now.words rules.now.count result }
{
    let mut low = n;
    for r in 0..rules.count {
        low = low.min(rules.left(r));
    }
    low
}

// The closure, in Warshall's order: after turn `k` row `i` holds what is reached from `i` through symbols up to `k`. Rows below `from` hold their own
// symbol alone, and are left out.
fn close(seed: Table, from: usize, n: usize) -> Table
    requires { (n ≤ max_symbols) × Shape row_words seed × LowRows n seed × Lone from seed }
    ensures { Closed row_words seed result }
{
    let mut table = seed;
    for k in from..n {
        for i in from..n {
            if !has(&table[i], k) {
                continue;
            }
            table[i] = join(&table[i], &table[k]);
        }
    }
    table
}

// The prediction table of a grammar whose symbols are below `n`, whatever its number of tokens: so the rules and `n`, and no Grammar, which
// has one number of tokens.
pub fn table(rules: &Rules, n: usize) -> Table
    requires { (rules.now.count ≤ max_rules) × Within rules.now.words n rules.now.count }
    ensures { (t : ℕ) → Predicts (grammar_in rules.now.words n t rules.now.count) row_words result }
{
    let steps = seed(rules.count, n, |r| rules.left(r), |r| rules.first(r));
    close(steps, lowest_left(rules, n), n)
}
