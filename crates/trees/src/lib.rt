// Every tree of a forest, each once: how many there are under a handle of a node store, and each by its number.
#![tactic(auto)]

ghost use Rattle.std.specs.Prelude.{◌≡◌};
ghost use Rattle.trees.specs.Answers.{Counts, counted, Tells, told};
ghost use Rattle.trees.specs.inner.Heads.{SumAt};
ghost use Rattle.trees.specs.inner.Weights.{answer_of};

use crate::reading::head;
use crate::table::Table;
use crate::telling::by_weight;

mod reading;
mod table;
mod telling;
mod walking;
mod weights;

// Why count has no number: the position of a 12, or that the number exceeds 64 bits.
#[derive(Clone, Copy, PartialEq, Eq, Debug)]
pub enum Uncounted {
    Faulty(usize),
    TooMany,
}

// Why tree tells no words: the position of a 12, that there is no such tree, or how many words are needed.
#[derive(Clone, Copy, PartialEq, Eq, Debug)]
pub enum Untold {
    Faulty(usize),
    NoSuch,
    TooShort(usize),
}

// What stands at a position: a Sum, with the number of its Products and the position behind it, or an Evaluated with its symbol.
#[derive(Clone, Copy, PartialEq, Eq, Debug)]
pub enum Head {
    SumOf(u32, usize),
    Leaf(u32),
}

// A Product that is read behind a Sum: its action, its factors, and the position behind it.
#[derive(Clone, Copy, PartialEq, Eq, Debug)]
pub struct Step {
    pub action: u32,
    pub left: u32,
    pub right: Option<u32>,
    pub behind: usize,
}

// What stands below a position: its lowest fault, or the number of its trees, or too many of them. No Result: `count` alone refuses too
// many, `tree` tells the k-th of them all the same.
#[derive(Clone, Copy, PartialEq, Eq, Debug)]
pub enum Weight {
    Fault(u16),
    Number(u64),
    Many,
}

// What a tree is chosen by at a position: a leaf's symbol; or a Product's action, the handle of its left factor with the number of the tree
// there, where it has two, and the last factor with the number of its tree.
#[derive(Clone, Copy, PartialEq, Eq, Debug)]
pub enum Choice {
    Word(u32),
    Chosen(u32, Option<(usize, u64)>, usize, u64),
}

// How many trees there are under a handle. A 12 below it comes first.
pub fn count(store: &[u16], handle: usize) -> Result<u64, Uncounted>
    ensures { Counts store.now handle (counted result) }
{
    match head(store, handle) {
        Some(Head::SumOf(_, _)) => total(store, handle),
        Some(Head::Leaf(_)) => Err(Uncounted::Faulty(handle)),
        None => Err(Uncounted::Faulty(handle)),
    }
}

// How many there are under a Sum.
fn total(store: &[u16], handle: usize) -> Result<u64, Uncounted>
    requires { SumAt store.now handle }
    ensures { Counts store.now handle (counted result) }
{
    let mut table = Table::new();
    table.fill(store, handle + 1);
    match table.entry(handle) {
        Some(weight) => answer(weight),
        None => Err(Uncounted::Faulty(handle)),
    }
}

fn answer(weight: Weight) -> Result<u64, Uncounted>
    ensures { result ≡ answer_of weight }
{
    match weight {
        Weight::Fault(low) => Err(Uncounted::Faulty(low as usize)),
        Weight::Number(trees) => Ok(trees),
        Weight::Many => Err(Uncounted::TooMany),
    }
}

// The words of the k-th tree under a handle, in preorder. Refused, nothing is written.
pub fn tree(store: &[u16], handle: usize, k: u64, out: &mut [u32]) -> Result<usize, Untold>
    ensures { Tells store.now handle k out.old (told result) out.new }
{
    match head(store, handle) {
        Some(Head::SumOf(_, _)) => tree_under(store, handle, k, out),
        Some(Head::Leaf(_)) => Err(Untold::Faulty(handle)),
        None => Err(Untold::Faulty(handle)),
    }
}

// That of a Sum.
fn tree_under(store: &[u16], handle: usize, k: u64, out: &mut [u32]) -> Result<usize, Untold>
    requires { SumAt store.now handle }
    ensures { Tells store.now handle k out.old (told result) out.new }
{
    let mut table = Table::new();
    table.fill(store, handle + 1);
    match table.entry(handle) {
        Some(weight) => by_weight(store, &table, handle, weight, k, out),
        None => Err(Untold::Faulty(handle)),
    }
}
