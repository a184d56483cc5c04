// Items as five words each: rule, left side, first, second, origin.
ghost use Rattle.std.specs.Prelude.{◌≡◌, [], ◌∷◌, ◌++◌, ◌+◌, ◌-◌, ◌*◌, ◌≤◌, ◌<◌, length, drop};
ghost use Rattle.laws.specs.Records.{flat};
ghost use Rattle.item.specs.Item.{HasPlace, item_at, rule_at};
ghost use Rattle.grammar.specs.Accepted.{max_rules};
ghost use Rattle.grammar.specs.inner.Decoded.{rules_of};
ghost use Rattle.advance.specs.NewItems.{items_from};
ghost use Rattle.reports.specs.Lists.{five_words};
ghost use Rattle.reports.specs.inner.Puts.{Puts, written, five, Listable};

use crate::Unfilled;
use grammar::rules::Rules;

// The words of an item.
pub const FIVE: usize = 5;

// Puts the words of the item at the place `p`.
fn put_item(rules: &Rules, items: &[u32], p: usize, out: &mut [u32], at: usize)
    requires { (rules.now.count ≤ max_rules) × HasPlace items.now p × (rule_at items.now p < rules.now.count) × (at + five ≤ length out.old) }
    ensures { out.new ≡ written out.old at (five_words (rules_of rules.now) (item_at items.now p)) }
{
    let item = item::read(items, p);
    let rule = item.rule as usize;
    let words = [
        item.rule,
        rules.left(rule) as u32,
        rules.first(rule) as u32,
        rules.second(rule) as u32,
        item.origin,
    ];
    out[at..at + FIVE].copy_from_slice(&words);
}

// Writes the words of the items at the places from `from` up to and without `to`, in front.
fn write_items(rules: &Rules, items: &[u32], from: usize, to: usize, out: &mut [u32])
    requires { Listable rules.now.count items.now from to × (five * (to - from) ≤ length out.old) }
    ensures { out.new
        ≡ flat (five_words (rules_of rules.now)) (items_from items.now from (to - from))
        ++ drop (five * (to - from)) out.old }
{
    for p in from..to {
        put_item(rules, items, p, out, FIVE * (p - from));
    }
}

// Lists those items, five words each.
pub fn list_words(
    rules: &Rules,
    items: &[u32],
    from: usize,
    to: usize,
    out: &mut [u32],
) -> Result<usize, Unfilled>
    requires { Listable rules.now.count items.now from to }
    ensures { Puts
        (flat (five_words (rules_of rules.now)) (items_from items.now from (to - from)))
        out.old result out.new }
{
    let needed = FIVE * (to - from);
    if out.len() < needed {
        return Err(Unfilled::TooShort(needed));
    }
    write_items(rules, items, from, to, out);
    Ok(needed)
}
