// Step 5: sets that nothing can reach are dropped.
ghost use Rattle.std.specs.Prelude.{◌≡◌, ◌+◌, ◌-◌, ◌*◌, ◌≤◌, length};
ghost use Rattle.item.specs.Item.{item_words, HasPlace, item_at, stored};
ghost use Rattle.parse.specs.inner.Parts.{Clear};
ghost use Rattle.advance.specs.NewItems.{items_from};
ghost use Rattle.advance.specs.inner.Advances.{Pruned};
ghost use Rattle.advance.specs.Advance.{greatest_origin, last_kept, ending};
ghost use Rattle.advance.specs.inner.Ready.{Prunable};

use bits::WIDTH;
use item::ITEM_WORDS;
use parse::State;
use parse::padding::clear;

// m: the greatest origin of the items at the places from `from` up to and without `to`, or `e` if there are none.
pub fn greatest_origin(items: &[u32], from: usize, to: usize, e: usize) -> usize
    requires { (from ≤ to) × (item_words * to ≤ length items.now) }
    ensures { result ≡ greatest_origin e (items_from items.now from (to - from)) }
{
    if from == to {
        return e;
    }
    let mut m = 0;
    for p in (from..to).rev() {
        m = m.max(item::origin(items, p) as usize);
    }
    m
}

// The latest set that is kept.
pub fn last_kept(e: usize, m: usize) -> usize
    requires { m ≤ e }
    ensures { result ≡ last_kept e m }
{
    if e - m > 1 { m + 1 } else { e }
}

// Moves the items at the places from `from` up to and without `to` down to the place `base`. The words behind them are 0 then.
fn move_items(items: &mut [u32], from: usize, to: usize, base: usize)
    requires { (base ≤ from) × (from ≤ to) × (item_words * to ≤ length items.old) × Clear items.old
        (item_words * to) }
    ensures { items.new ≡ ending items.old base
        (items_from items.old from (to - from)) }
{
    items.copy_within(ITEM_WORDS * from..ITEM_WORDS * to, ITEM_WORDS * base);
    clear(items, ITEM_WORDS * (base + (to - from)), ITEM_WORDS * to);
}

// Keeps the sets 0..m+1, or all, with the new items, at the places from the state's items up to and without `to`, behind them. Answers where
// those stand.
pub fn remove_unreachable_sets(
    state: State,
    items: &mut [u32],
    starts: &mut [u32],
    rows: &mut [u64],
    to: usize,
    m: usize,
) -> usize
    requires { Prunable state.set items.old starts.old rows.old state.items to m }
    ensures { Pruned state.set m items.old starts.old rows.old
        (items_from items.old state.items (to - state.items)) result items.new starts.new
        rows.new }
{
    let e = state.set;
    if e - m <= 1 {
        return state.items;
    }
    // The items of set m+1 end at start m+2. Its row is cleared with those behind it.
    let base = starts[m + 2] as usize;
    move_items(items, state.items, to, base);
    clear(starts, m + 3, e + 2);
    clear(rows, WIDTH * (m + 1), WIDTH * (e + 1));
    base
}
