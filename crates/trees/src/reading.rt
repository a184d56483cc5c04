// What is read of the store: Sums and leaves where their heads stand, and Products one behind another.
ghost use Rattle.std.specs.Prelude.{◌≡◌};
ghost use Rattle.node.specs.Reading.{filler, holds};
ghost use Rattle.trees.specs.inner.Heads.{head_of, head_at, step_of, step_at};

use crate::{Head, Step};
use node::{Node, read};

// The unit that reading skips. No head is one. Crate node has it too: the contracts hold both to the specs' one `filler`.
const FILLER: u16 = 0xFFFF;

// Whether a filler is at p.
#[tactic(auto, unfolding(node::specs::Reading::holds))]
fn filler_at(store: &[u16], p: usize) -> bool
    ensures { result ≡ holds store.now p filler }
{
    p < store.len() && store[p] == FILLER
}

fn head_of(node: Node, behind: usize) -> Option<Head>
    ensures { result ≡ head_of node behind }
{
    match node {
        Node::Sum { count, .. } => Some(Head::SumOf(count, behind)),
        Node::Evaluated { symbol } => Some(Head::Leaf(symbol)),
        Node::NullingLeaf { .. } | Node::Product { .. } => None,
    }
}

// What stands at p itself: nothing is skipped.
pub fn head(store: &[u16], p: usize) -> Option<Head>
    ensures { result ≡ head_at store.now p }
{
    if filler_at(store, p) {
        return None;
    }
    // Three answers, three arms: behind the end and at a fault nothing stands.
    match read(store, p) {
        Ok(Some((node, behind))) => head_of(node, behind),
        Ok(None) => None,
        Err(_) => None,
    }
}

fn step_of(node: Node, behind: usize) -> Option<Step>
    ensures { result ≡ step_of node behind }
{
    match node {
        Node::Product {
            action,
            left,
            right,
        } => Some(Step {
            action,
            left,
            right,
            behind,
        }),
        _ => None,
    }
}

// The Product that is read from p on.
pub fn step(store: &[u16], p: usize) -> Option<Step>
    ensures { result ≡ step_at store.now p }
{
    // The same three.
    match read(store, p) {
        Ok(Some((node, behind))) => step_of(node, behind),
        Ok(None) => None,
        Err(_) => None,
    }
}
