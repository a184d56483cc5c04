// Sums and products of weights: the lowest fault comes first, and numbers above 64 bits are many.
ghost use Rattle.std.specs.Prelude.{◌≡◌, ◌≢◌};
ghost use Rattle.trees.specs.declared.Weight.TheVariants.{Number};
ghost use Rattle.trees.specs.inner.Weights as W;
ghost use Rattle.trees.specs.inner.Walks as S;

use crate::Weight;

// The lower of a fault and what else is faulty.
#[tactic(auto, unfolding(crate::specs::inner::Weights::lower))]
fn lower(u: u16, b: Weight) -> Weight
    ensures { result ≡ W.lower u b }
{
    match b {
        Weight::Fault(v) => Weight::Fault(u.min(v)),
        _ => Weight::Fault(u),
    }
}

// So many trees, or too many where 64 bits hold no such number.
fn limited(trees: Option<u64>) -> Weight
    ensures { result ≡ W.of_checked trees }
{
    match trees {
        Some(n) => Weight::Number(n),
        None => Weight::Many,
    }
}

// Too many of each of so many: none where these are none.
#[tactic(auto, unfolding(crate::specs::inner::Weights::often))]
fn often(n: u64) -> Weight
    ensures { result ≡ W.often n }
{
    if n == 0 {
        Weight::Number(0)
    } else {
        Weight::Many
    }
}

impl Weight {
    // Trees of the one and then of the other.
    #[tactic(auto, unfolding(crate::specs::inner::Weights::plus, crate::specs::inner::Weights::limited))]
    pub fn plus(self, other: Weight) -> Weight
        ensures { result ≡ W.plus self other }
    {
        match (self, other) {
            (Weight::Fault(u), _) => lower(u, other),
            (_, Weight::Fault(_)) => other,
            (Weight::Number(n), Weight::Number(m)) => limited(n.checked_add(m)),
            _ => Weight::Many,
        }
    }

    // Each of the one with each of the other.
    #[tactic(auto, unfolding(crate::specs::inner::Weights::times, crate::specs::inner::Weights::limited))]
    pub fn times(self, other: Weight) -> Weight
        ensures { result ≡ W.times self other }
    {
        match (self, other) {
            (Weight::Fault(u), _) => lower(u, other),
            (_, Weight::Fault(_)) => other,
            (Weight::Number(n), Weight::Number(m)) => limited(n.checked_mul(m)),
            (Weight::Number(n), Weight::Many) => often(n),
            (Weight::Many, Weight::Number(m)) => often(m),
            (Weight::Many, Weight::Many) => Weight::Many,
        }
    }

    // Whether the k-th tree is one of so many.
    #[tactic(auto, unfolding(crate::specs::inner::Walks::chooses))]
    pub fn chooses(self, k: u64) -> bool
        ensures { result ≡ S.chooses self k }
    {
        match self {
            Weight::Fault(_) => false,
            Weight::Number(n) => k < n,
            Weight::Many => true,
        }
    }

    // How many trees come before the next Product's.
    #[tactic(auto, unfolding(crate::specs::inner::Walks::passed_over))]
    pub fn passed_over(self) -> u64
        ensures { result ≡ S.passed_over self }
    {
        match self {
            Weight::Number(n) => n,
            _ => 0,
        }
    }

    // The number of the left factor's tree, and that of the right's: k divided by the number of the right's trees, and what is left. Where
    // these are too many, every k is below them.
    #[tactic(auto, unfolding(crate::specs::inner::Walks::left_number, crate::specs::inner::Walks::right_number))]
    pub fn numbers(self, k: u64) -> (u64, u64)
        requires { self ≢ Number 0 }
        ensures { result ≡ (S.left_number self k, S.right_number self k) }
    {
        match self {
            Weight::Number(c) => (k / c, k % c),
            _ => (0, k),
        }
    }
}
