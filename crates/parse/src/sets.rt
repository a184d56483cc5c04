// Starts, and the items of each set.
ghost use Rattle.std.specs.Prelude.{◌≡◌, ℕ, ◌+◌, ◌*◌, ◌≤◌, ◌<◌, length, get_or};
ghost use Rattle.item.specs.Item.{HasPlace, item_words, item_at};
ghost use Rattle.grammar.specs.Accepted.{max_rules};
ghost use Rattle.grammar.specs.inner.Decoded.{rules_in, rules_of};
ghost use Rattle.laws.specs.Decides.{Decides};
ghost use Rattle.parse.specs.WellFormed.{Fits};
ghost use Rattle.parse.specs.inner.Parts.{NeverFalls, StartsFit, AllFit, Among, Rises, SetFits, SetsFit};

use crate::State;
use crate::order::precedes;
use grammar::rules::{NONE, Rules};

// Whether the starts never fall up to the one behind set `e`.
fn never_falls(starts: &[u32], e: usize) -> bool
    requires { e + 2 ≤ length starts.now }
    ensures { Decides result (NeverFalls starts.now e) }
{
    (0..e + 1).all(|k| starts[k] <= starts[k + 1])
}

// Whether the starts are those of `state`.
pub fn starts_fit(state: State, starts: &[u32]) -> bool
    requires { state.set + 2 ≤ length starts.now }
    ensures { Decides result (StartsFit starts.now state) }
{
    if starts[0] != 0 || starts[1] != 0 {
        return false;
    }
    starts[state.set + 1] as usize == state.items && never_falls(starts, state.set)
}

// Whether the item at place `p` may be one of set `k`.
fn item_fits(rules: &Rules, items: &[u32], k: usize, p: usize) -> bool
    requires { (rules.now.count ≤ max_rules) × HasPlace items.now p }
    ensures { Decides result (Fits (rules_of rules.now) k (item_at items.now p)) }
{
    let rule = item::rule(items, p) as usize;
    if item::origin(items, p) as usize >= k || rule >= rules.count {
        return false;
    }
    rules.second(rule) != NONE
}

// Whether the items at the places from `from` up to `to` may all be items of set `k`.
// `from` and `to` are two numbers: a struct of the two would be made in `sets_fit` alone, and taken apart in `all_fit` and `rises`.
fn all_fit(rules: &Rules, items: &[u32], k: usize, from: usize, to: usize) -> bool
    requires { (rules.now.count ≤ max_rules) × (item_words * to ≤ length items.now) }
    ensures { Decides result (AllFit (rules_of rules.now) items.now k from to) }
{
    (from..to).all(|p| item_fits(rules, items, k, p))
}

// Whether they rise strictly by (second, rule, origin), whatever the number of rules that theirs are among.
fn rises(rules: &Rules, items: &[u32], from: usize, to: usize) -> bool
    requires { ((from ≤ to) × (item_words * to ≤ length items.now)) × Among items.now from to max_rules }
    ensures { (count : ℕ) → Among items.now from to count
        → Decides result (Rises (rules_in rules.now.words count) items.now from to) }
{
    // As `all` over the range its proof did not close: the contract speaks of every number of rules.
    for p in from..to.saturating_sub(1) {
        if !precedes(rules, items, p, p + 1) {
            return false;
        }
    }
    true
}

// Whether they are the items of a set `k`.
fn set_fits(rules: &Rules, items: &[u32], k: usize, from: usize, to: usize) -> bool
    requires { ((rules.now.count ≤ max_rules) × (from ≤ to)) × (item_words * to ≤ length items.now) }
    ensures { Decides result (SetFits (rules_of rules.now) items.now k from to) }
{
    all_fit(rules, items, k, from, to) && rises(rules, items, from, to)
}

// Whether every set up to `e` has items that it may have. The starts are known not to fall, nor to lead past the items.
pub fn sets_fit(rules: &Rules, e: usize, items: &[u32], starts: &[u32]) -> bool
    requires { ((rules.now.count ≤ max_rules) × (e + 2 ≤ length starts.now))
        × ((item_words * get_or starts.now (e + 1) 0 ≤ length items.now) × NeverFalls starts.now e) }
    ensures { Decides result
        (SetsFit (rules_of rules.now) items.now starts.now e) }
{
    // As `all` over the range its proof did not close: what the closure asks of the starts was not found.
    for k in 0..e + 1 {
        if !set_fits(rules, items, k, starts[k] as usize, starts[k + 1] as usize) {
            return false;
        }
    }
    true
}
