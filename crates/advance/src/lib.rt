// Steps 4 to 6: the new items become a set.
#![tactic(auto)]

ghost use Rattle.std.specs.Prelude.{◌-◌};
ghost use Rattle.grammar.specs.inner.Decoded.{rules_of};
ghost use Rattle.advance.specs.NewItems.{items_from};
ghost use Rattle.advance.specs.inner.Advances.{lent, Follows, Advances};
ghost use Rattle.advance.specs.Advance.{predictions};
ghost use Rattle.advance.specs.inner.Ready.{Followable, Advanceable};

use crate::predict::prediction_pass;
use crate::prune::{greatest_origin, last_kept, remove_unreachable_sets};
use crate::unary::new_items;
use bits::WIDTH;
use grammar::rules::Rules;
use item::ITEM_WORDS;
use parse::State;
use parse::padding::clear;
use prediction::Table;

pub mod predict;
pub mod prune;
pub mod sort;
pub mod unary;

// The places from one up to and without another, `from` and `to`, are two numbers throughout: a `Range` is no `Copy`, and each step would
// clone it.

// Steps 5 and 6: the items at the places from the state's items up to and without `to` become the latest set, behind the sets that are kept.
fn next_set(
    rules: &Rules,
    table: &Table,
    state: State,
    items: &mut [u32],
    starts: &mut [u32],
    rows: &mut [u64],
    to: usize,
    m: usize,
) -> State
    requires { Followable rules.now.words rules.now.count table.now state.set items.old starts.old rows.old state.items to m }
    ensures { Follows state.used state.set m (lent items.old starts.old rows.old)
        (items_from items.old state.items (to - state.items))
        (predictions (rules_of rules.now) table.now (items_from items.old state.items (to - state.items)))
        result (lent items.new starts.new rows.new) }
{
    let kept = last_kept(state.set, m);
    let start = remove_unreachable_sets(state, items, starts, rows, to, m);
    let end = start + (to - state.items);
    starts[kept + 2] = end as u32;
    prediction_pass(rules, table, items, rows, start, end, kept + 1);
    State {
        set: kept + 1,
        items: end,
        used: state.used,
    }
}

// Steps 4 to 6, where the places from the state's items up to and without `to` hold what step 3 stored. The used units are the state's. None: the
// new set would have no room (9).
pub fn advance(
    rules: &Rules,
    table: &Table,
    state: State,
    items: &mut [u32],
    starts: &mut [u32],
    rows: &mut [u64],
    to: usize,
) -> Option<State>
    requires { Advanceable rules.now.words rules.now.count table.now state (lent items.old starts.old rows.old) to }
    ensures { Advances (rules_of rules.now) table.now state
        (lent items.old starts.old rows.old) to result
        (lent items.new starts.new rows.new) }
{
    let e = state.set;
    let from = state.items;
    let end = new_items(rules, items, from, to);
    let m = greatest_origin(items, from, end, e);
    if last_kept(e, m) + 1 >= rows.len() / WIDTH {
        clear(items, ITEM_WORDS * from, ITEM_WORDS * end);
        return None;
    }
    Some(next_set(rules, table, state, items, starts, rows, end, m))
}
