// Step 4: sort the new items, and drop those with no second, which then stand last.
ghost use Rattle.std.specs.Prelude.{◌≡◌, ◌+◌, ◌-◌, ◌*◌, ◌≤◌, length};
ghost use Rattle.item.specs.Item.{item_words};
ghost use Rattle.grammar.specs.inner.Decoded.{rules_of};
ghost use Rattle.parse.specs.inner.Parts.{Clear};
ghost use Rattle.advance.specs.NewItems.{items_from, binary, new_items};
ghost use Rattle.advance.specs.inner.Order.{NeverFalls, Stored};
ghost use Rattle.advance.specs.Advance.{ending};

use crate::sort::sort_medial_items;
use grammar::rules::{NONE, Rules};
use item::ITEM_WORDS;
use parse::padding::clear;

// The place behind the last of sorted items that has a second.
// `from` and `to` are two numbers here too, as in sort.rt.
fn binary_end(rules: &Rules, items: &[u32], from: usize, to: usize) -> usize
    requires { Stored rules.now.count items.now from to × NeverFalls (rules_of rules.now)
        (items_from items.now from (to - from)) }
    ensures within { (from ≤ result) × (result ≤ to) }
    ensures are { binary (rules_of rules.now) (items_from items.now from (to - from))
        ≡ items_from items.now from (result - from) }
{
    for p in (from..to).rev() {
        if rules.second(item::rule(items, p) as usize) != NONE {
            return p + 1;
        }
    }
    from
}

// Drops those of sorted items that have no second, and answers the place behind the others.
pub fn remove_unary_medial_items(rules: &Rules, items: &mut [u32], from: usize, to: usize) -> usize
    requires { Stored rules.now.count items.old from to × NeverFalls (rules_of rules.now)
        (items_from items.old from (to - from)) × Clear items.old (item_words * to) }
    ensures end { result ≡ from + length
        (binary (rules_of rules.now) (items_from items.old from (to - from))) }
    ensures words { items.new ≡ ending items.old from
        (binary (rules_of rules.now) (items_from items.old from (to - from))) }
{
    let end = binary_end(rules, items, from, to);
    clear(items, ITEM_WORDS * end, ITEM_WORDS * to);
    end
}

// Step 4.
pub fn new_items(rules: &Rules, items: &mut [u32], from: usize, to: usize) -> usize
    requires { Stored rules.now.count items.old from to × Clear items.old (item_words * to) }
    ensures end { result ≡ from + length
        (new_items (rules_of rules.now) items.old from to) }
    ensures words { items.new ≡ ending items.old from
        (new_items (rules_of rules.now) items.old from to) }
{
    sort_medial_items(rules, items, from, to);
    remove_unary_medial_items(rules, items, from, to)
}
