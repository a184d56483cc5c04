// The table: a kind, a number of trees and a lowest fault for each position, filled in rising order, each from those before it.
ghost use Rattle.std.specs.Prelude.{◌≡◌, ◌<◌, ◌≤◌, ℕ};
ghost use Rattle.node.specs.Writing.{usable};
ghost use Rattle.forest.specs.Stores.{node_at, products_at};
ghost use Rattle.trees.specs.Faults.{asked_at};
ghost use Rattle.trees.specs.inner.Heads.{product_of};
ghost use Rattle.trees.specs.inner.Weights as W;
ghost use Rattle.trees.specs.inner.Tables as T;

use crate::reading::{head, step};
use crate::{Head, Weight};

// The usable units of a store. Crate node has the number too: the specs have it once, as `usable_units`.
pub const UNITS: usize = 32768;

// What the table tells of a position: that neither Sum nor Evaluated is there, a fault, a number of trees, or too many of them.
#[derive(Clone, Copy, PartialEq, Eq, Debug)]
pub enum Kind {
    Empty,
    Faulty,
    Counted,
    TooMany,
}

// The C interface promises the stack of a call: three arrays take 11 bytes a unit, where one of entries would take 16.
#[derive(Drop)]
pub struct Table {
    pub kinds: [Kind; UNITS],
    pub counts: [u64; UNITS],
    pub lows: [u16; UNITS],
}

impl Table {
    pub fn new() -> Self {
        Table {
            kinds: [Kind::Empty; UNITS],
            counts: [0; UNITS],
            lows: [0; UNITS],
        }
    }

    // The entry of a position.
    #[tactic(auto, unfolding(crate::specs::inner::Tables::entry_of))]
    pub fn entry(&self, q: usize) -> Option<Weight>
        requires { q < 32768 }
        ensures { result ≡ T.tabled self.now q }
    {
        match self.kinds[q] {
            Kind::Empty => None,
            Kind::Faulty => Some(Weight::Fault(self.lows[q])),
            Kind::Counted => Some(Weight::Number(self.counts[q])),
            Kind::TooMany => Some(Weight::Many),
        }
    }

    // What a factor weighs to the Sum at s.
    pub fn factor(&self, s: usize, q: u32) -> Weight
        requires { s < 32768 }
        ensures { result ≡ W.factor_weight (T.tabled self.now) s q }
    {
        let own = Weight::Fault(s as u16);
        let at = q as usize;
        if s <= at {
            return own;
        }
        self.entry(at).unwrap_or(own)
    }

    // What a Product weighs, whatever its action.
    pub fn product(&self, s: usize, left: u32, right: Option<u32>) -> Weight
        requires { s < 32768 }
        ensures { result ≡ W.product_weight (T.tabled self.now) s (product_of 0 left right) }
    {
        let first = self.factor(s, left);
        match right {
            None => first,
            Some(q) => first.times(self.factor(s, q)),
        }
    }

    // What a Sum at s weighs whose Products, so many, are read from `from` on.
    fn sum(&self, store: &[u16], s: usize, from: usize, count: u32) -> Weight
        requires { s < 32768 }
        ensures { result ≡ W.sum_weight (T.tabled self.now) s count
            (products_at count (usable store.now) from) }
    {
        let mut weight = Weight::Number(0);
        let mut at = from;
        for turn in 0..count {
            let Some(product) = step(store, at) else {
                return weight.plus(Weight::Fault(s as u16));
            };
            weight = weight.plus(self.product(s, product.left, product.right));
            at = product.behind;
        }
        weight
    }

    // The entry of p, from those before it.
    fn weigh(&self, store: &[u16], p: usize) -> Option<Weight>
        requires { p < 32768 }
        ensures { result ≡ W.weigh_node (T.tabled self.now) p (asked_at store.now p)
            (node_at store.now p) }
    {
        match head(store, p) {
            Some(Head::SumOf(count, behind)) => Some(self.sum(store, p, behind, count)),
            Some(Head::Leaf(_)) => Some(Weight::Number(1)),
            None => None,
        }
    }

    // Makes `entry` the entry of p. The others stay.
    #[tactic(auto, unfolding(crate::specs::inner::Tables::entry_of))]
    fn put(&mut self, p: usize, entry: Option<Weight>)
        requires { p < 32768 }
        ensures made { T.tabled self.new p ≡ entry }
        ensures others { (q : ℕ) → q < p → T.tabled self.new q ≡ T.tabled self.old q }
    {
        self.kinds[p] = match entry {
            None => Kind::Empty,
            Some(Weight::Fault(low)) => {
                self.lows[p] = low;
                Kind::Faulty
            }
            Some(Weight::Number(trees)) => {
                self.counts[p] = trees;
                Kind::Counted
            }
            Some(Weight::Many) => Kind::TooMany,
        };
    }

    // Fills the entries before `end`.
    pub fn fill(&mut self, store: &[u16], end: usize)
        requires { end ≤ 32768 }
        ensures { T.Filled store.now end self.new }
    {
        for p in 0..end {
            let entry = self.weigh(store, p);
            self.put(p, entry);
        }
    }
}
