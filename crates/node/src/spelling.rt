// The node that units spell: the table of rows from right to left, by the range of the head unit.
ghost use Rattle.std.specs.Prelude.{◌≡◌, true, ℕ, ◌+◌, ◌<◌, ◌≤◌, length, get_or};
ghost use Rattle.node.specs.Writing.{usable_units};
ghost use Rattle.node.specs.Reading as R;

use crate::Node;
use crate::factor::long_right;

// The unit at a position, 0 past the end.
fn unit(s: &[u16], i: usize) -> u32
    ensures value { result ≡ get_or s.now i 0 }
    ensures bound { result < 65536 }
{
    if i < s.len() { s[i] as u32 } else { 0 }
}

// A value of two units, the low half first.
#[tactic(auto, unfolding(crate::specs::Reading::value_at))]
fn value(s: &[u16], i: usize) -> u32
    requires { i ≤ usable_units + 4 }
    ensures { result ≡ R.value_at s.now i }
{
    unit(s, i + 1) * 65536 + unit(s, i)
}

// The factor that a distance leads back to; none where the distance is above the position.
#[tactic(auto, unfolding(crate::specs::Reading::factor_at))]
fn factor(q: usize, distance: usize) -> Option<u32>
    requires { q < usable_units }
    ensures { result ≡ R.factor_at q distance }
{
    if distance <= q {
        let at = (q - distance) as u32;
        Some(at)
    } else {
        None
    }
}

// A `match` by the specs' two cases, which `unfolding` names; `left?` inside the struct would hide that there may be no node.
#[tactic(auto, unfolding(crate::specs::Reading::alone))]
fn alone(action: u32, left: Option<u32>) -> Option<Node>
    ensures { result ≡ R.alone action left }
{
    match left {
        Some(at) => Some(Node::Product {
            action,
            left: at,
            right: None,
        }),
        None => None,
    }
}

#[tactic(auto, unfolding(crate::specs::Reading::paired))]
fn paired(action: u32, left: Option<u32>, right: Option<u32>) -> Option<Node>
    ensures { result ≡ R.paired action left right }
{
    match (left, right) {
        (Some(left), Some(_)) => Some(Node::Product {
            action,
            left,
            right,
        }),
        _ => None,
    }
}

// Heads below 0x8000: the short Sum, and the Products with distances.
#[tactic(auto, unfolding(crate::specs::Reading::near_spelt))]
fn near(s: &[u16], q: usize, head: u32) -> Option<Node>
    requires { (q < usable_units) × (head < 0x8000) }
    ensures { result ≡ R.near_spelt s.now q head }
{
    if head < 0x2000 {
        return Some(Node::Sum {
            count: head / 256,
            nonterminal: head % 256,
        });
    }
    if head < 0x4000 {
        return alone(head % 256, factor(q, ((head - 0x2000) / 256) as usize));
    }
    let action = unit(s, q + 1);
    if head < 0x6000 {
        return alone(action, factor(q, (head - 0x4000) as usize));
    }
    let left = factor(q, (head % 256) as usize);
    let right = factor(q, ((head - 0x6000) / 256) as usize);
    paired(action, left, right)
}

// Heads from 0x8000 to 0xBFFF: the leaves.
#[tactic(auto, unfolding(crate::specs::Reading::leaf_spelt))]
fn leaf(s: &[u16], q: usize, head: u32) -> Option<Node>
    requires { (q < usable_units) × (0x8000 ≤ head) }
    ensures { result ≡ R.leaf_spelt s.now q head }
{
    if head < 0x9000 {
        return Some(Node::Evaluated {
            symbol: head - 0x8000,
        });
    }
    if head < 0xA000 {
        return Some(Node::NullingLeaf {
            symbol: head - 0x9000,
        });
    }
    let symbol = value(s, q + 2);
    if head == 0xA000 {
        return Some(Node::Evaluated { symbol });
    }
    if head == 0xA001 {
        return Some(Node::NullingLeaf { symbol });
    }
    None
}

// Heads from 0xC000 on: the longest Product and the longest Sum.
#[tactic(auto, unfolding(crate::specs::Reading::long_spelt))]
fn long(s: &[u16], q: usize, head: u32) -> Option<Node>
    requires { (q < usable_units) × ((0xC000 ≤ head) × (head < 0x10000)) }
    ensures { result ≡ R.long_spelt s.now q head }
{
    let second = unit(s, q + 1);
    let third = value(s, q + 2);
    if head < 0xE000 {
        let action = (head - 0xC000) * 65536 + second;
        let right = long_right(value(s, q + 4));
        return Some(Node::Product {
            action,
            left: third,
            right,
        });
    }
    let count = (head - 0xE000) * 65536 + second;
    Some(Node::Sum {
        count,
        nonterminal: third,
    })
}

// The one node whose units could stand at q.
pub fn spelt(s: &[u16], q: usize) -> Option<Node>
    requires { q < usable_units }
    ensures { result ≡ R.spelt s.now q }
{
    let head = unit(s, q);
    if head < 0x8000 {
        return near(s, q, head);
    }
    if head < 0xC000 {
        return leaf(s, q, head);
    }
    long(s, q, head)
}
