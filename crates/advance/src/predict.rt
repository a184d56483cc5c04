// Step 6: the row of the new set is the union of the table rows of its items' seconds.
ghost use Rattle.std.specs.Prelude.{◌≡◌, ◌-◌};
ghost use Rattle.laws.specs.Bits.{with_row};
ghost use Rattle.bits.specs.Width.{row_words};
ghost use Rattle.grammar.specs.inner.Decoded.{rules_of};
ghost use Rattle.advance.specs.NewItems.{items_from};
ghost use Rattle.advance.specs.Advance.{predictions};
ghost use Rattle.advance.specs.inner.Ready.{Predictable};

use bits::join_at;
use grammar::rules::Rules;
use prediction::Table;

// Row `k`, which is 0, becomes that of a set with the items at the places from `from` up to and without `to`.
pub fn prediction_pass(
    rules: &Rules,
    table: &Table,
    items: &[u32],
    rows: &mut [u64],
    from: usize,
    to: usize,
    k: usize,
)
    requires { Predictable rules.now.words rules.now.count table.now items.now rows.old from to k }
    ensures { rows.new ≡ with_row row_words rows.old k
        (predictions (rules_of rules.now) table.now
        (items_from items.now from (to - from))) }
{
    for p in (from..to).rev() {
        let symbol = rules.second(item::rule(items, p) as usize);
        join_at(rows, k, &table[symbol]);
    }
}
