// The walkers: the words of the k-th tree in preorder, as far as the place reaches and no farther than the limit.
ghost use Rattle.std.specs.Prelude.{◌≡◌, ◌+◌, ◌<◌, ◌≤◌, length, set};
ghost use Rattle.trees.specs.inner.Tables as T;
ghost use Rattle.trees.specs.inner.Walks as W;

use crate::reading::{head, step};
use crate::table::Table;
use crate::{Choice, Head};

// The k-th tree of a Product of the Sum at s.
#[tactic(auto, unfolding(crate::specs::inner::Walks::choice_in))]
fn choice_in(table: &Table, s: usize, action: u32, left: u32, right: Option<u32>, k: u64) -> Choice
    requires { (s < 32768) × W.Divides (T.tabled table.now) s right }
    ensures { result ≡ W.choice_in (T.tabled table.now) s action left right k }
{
    match right {
        None => Choice::Chosen(action, None, left as usize, k),
        Some(q) => {
            let (i, j) = table.factor(s, q).numbers(k);
            Choice::Chosen(action, Some((left as usize, i)), q as usize, j)
        }
    }
}

// The Product of the k-th tree of the Sum at s, whose Products, so many, are read from `from` on.
// No struct of `store` and `table`, here and in telling.rt: `head` and `step` take the one, `Table`'s methods the other. The walks alone have one.
fn choose(store: &[u16], table: &Table, s: usize, k: u64, from: usize, count: u32) -> Choice
    requires { W.Choosing store.now table.now s k from count }
    ensures { W.Picks store.now table.now s k result }
{
    let mut at = from;
    let mut rest = k;
    for turn in 0..count {
        let Some(product) = step(store, at) else {
            // `Word(0)` here, behind the loop and in `chosen` is never the answer: `Choosing` and `Walks` say that there is a k-th tree.
            return Choice::Word(0);
        };
        let weight = table.product(s, product.left, product.right);
        if weight.chooses(rest) {
            return choice_in(table, s, product.action, product.left, product.right, rest);
        }
        rest -= weight.passed_over();
        at = product.behind;
    }
    Choice::Word(0)
}

// What the k-th tree under h is chosen by.
fn chosen(store: &[u16], table: &Table, h: usize, k: u64) -> Choice
    requires { W.Walks store.now table.now h k }
    ensures { W.Picks store.now table.now h k result }
{
    match head(store, h) {
        Some(Head::SumOf(count, from)) => choose(store, table, h, k, from, count),
        Some(Head::Leaf(symbol)) => Choice::Word(symbol),
        None => Choice::Word(0),
    }
}

// Writes a word where there is room; answers the next place.
fn put(out: &mut [u32], at: usize, word: u32) -> usize
    requires { at < 0xFFFF_FFFF_FFFF_FFFF }
    ensures { (result ≡ at + 1) × (out.new ≡ set out.old at word) }
{
    if at < out.len() {
        out[at] = word;
    }
    at + 1
}

// What each level of a walk goes by: the store and its table. They stand once, so that a level's stack holds one word for them, not three.
#[derive(Clone, Copy)]
pub struct Walk<'a> {
    pub store: &'a [u16],
    pub table: &'a Table,
}

// The k-th tree under h. A Product's last factor is walked by the loop, so that chains of them take no stack.
// A struct of `out`, `at` and `limit` is no plainer: the words are first counted over another place.
#[cycle(walk_product_walk_sum)]
pub fn walk_sum(
    walk: &Walk<'_>,
    h: usize,
    k: u64,
    out: &mut [u32],
    at: usize,
    limit: usize,
) -> usize
    requires { W.Walks walk.now.store.now walk.now.table.now h k × W.Limited out.old at limit }
    ensures { W.Walked walk.now.store.now h k out.old at limit result out.new }
{
    let mut from = h;
    let mut number = k;
    let mut next = at;
    // Not by a count: a walk goes from a handle to a lower one.
    while next < limit {
        match chosen(walk.store, walk.table, from, number) {
            Choice::Word(symbol) => return put(out, next, symbol),
            Choice::Chosen(action, front, last, rest) => {
                next = walk_product(walk, action, front, out, next, limit);
                from = last;
                number = rest;
            }
        }
    }
    limit
}

// A Product's action, and what is in front of its last factor.
#[cycle(walk_product_walk_sum)]
fn walk_product(
    walk: &Walk<'_>,
    action: u32,
    front: Option<(usize, u64)>,
    out: &mut [u32],
    at: usize,
    limit: usize,
) -> usize
    requires { W.FrontWalks walk.now.store.now walk.now.table.now front × ((at < limit) × (length out.old ≤ limit)) }
    ensures { W.FrontWalked walk.now.store.now action front out.old at limit result out.new }
{
    let next = put(out, at, action);
    match front {
        None => next,
        Some((h, k)) => walk_sum(walk, h, k, out, next, limit),
    }
}
