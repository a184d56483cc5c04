// The units of a node at a position: a function for each kind of node, a branch for each row of the table.
ghost use Rattle.std.specs.Prelude.{◌≡◌, false, ◌<◌, ◌≤◌, ℕ, List, length, take, Some, None};
ghost use Rattle.node.specs.Choice.{pick};
ghost use Rattle.node.specs.Rows as U;

use crate::Node;
use crate::factor::NO_FACTOR;
use std::marker::Model;

// Counts from COUNT_LIMIT on, actions from ACTION_LIMIT on and a present right factor NO_FACTOR are unfit at every position.
const COUNT_LIMIT: u32 = 0x1000_0000;

const ACTION_LIMIT: u32 = 0x2000_0000;

// The most units that a node has.
const LONGEST: usize = 6;

// The units of a node, one behind another, at the front of room for the longest.
#[derive(Drop)]
pub struct Units {
    units: [u16; LONGEST],
    count: usize,
}

impl Model for Units {
    ghost Value = { List ℕ };

    ghost view = { λ u. take u.count u.units };

    ghost invariant = { λ u. u.count ≤ 6 };
}

impl Units {
    fn new(row: &[u16]) -> Self
        requires { length row.now ≤ 6 }
        ensures { result ≡ row.now }
    {
        let mut units = [0; LONGEST];
        units[..row.len()].copy_from_slice(row);
        Units {
            units,
            count: row.len(),
        }
    }

    pub fn as_slice(&self) -> &[u16]
        ensures { result.now ≡ self.now }
    {
        &self.units[..self.count]
    }
}

// The two halves of a value, a unit each. The library splits a u32 into bytes alone, which is no plainer.
fn low(x: u32) -> u16
    ensures { result ≡ U.low x }
{
    (x % 65536) as u16
}

fn high(x: u32) -> u16
    ensures { result ≡ U.high x }
{
    (x / 65536) as u16
}

// A factor lies strictly before its node.
fn unfit_factor(p: usize, factor: u32) -> bool
    ensures { result ≡ U.unfit_factor p factor }
{
    p <= factor as usize
}

// A `match`, as the specs have it: `is_some_and` would put the same test into a closure, and be no plainer.
#[tactic(auto, unfolding(crate::specs::Rows::unfit_right))]
fn unfit_right(p: usize, right: Option<u32>) -> bool
    ensures { result ≡ U.unfit_right p right }
{
    match right {
        Some(factor) => unfit_factor(p, factor) || factor == NO_FACTOR,
        None => false,
    }
}

// The fields of a Product by themselves, here and below: an enum's variant is no type, so that no parameter can be a Product.
#[tactic(auto, unfolding(crate::specs::Rows::unfit_product))]
fn unfit_product(p: usize, action: u32, left: u32, right: Option<u32>) -> bool
    ensures { result ≡ U.unfit_product p action left right }
{
    ACTION_LIMIT <= action || unfit_factor(p, left) || unfit_right(p, right)
}

#[tactic(auto, unfolding(crate::specs::Rows::unfit))]
fn unfit(p: usize, node: Node) -> bool
    ensures { result ≡ U.unfit p node }
{
    match node {
        Node::Sum { count, .. } => COUNT_LIMIT <= count,
        Node::Product {
            action,
            left,
            right,
        } => unfit_product(p, action, left, right),
        Node::NullingLeaf { .. } | Node::Evaluated { .. } => false,
    }
}

// Sum: the short row, and the other.
#[tactic(auto, unfolding(crate::specs::Rows::sum_row, crate::specs::Choice::both_below))]
fn sum_row(count: u32, nonterminal: u32) -> Units
    requires { count < U.count_limit }
    ensures { result ≡ U.sum_row count nonterminal }
{
    if count < 32 && nonterminal < 256 {
        let unit = (count * 256 + nonterminal) as u16;
        return Units::new(&[unit]);
    }
    let head = 0xE000 + high(count);
    Units::new(&[head, low(count), low(nonterminal), high(nonterminal)])
}

// Other Product: its right factor as it stands, NO_FACTOR for none. No Option: both callers have the word, and the specs take it.
#[tactic(auto, unfolding(crate::specs::Rows::long_product))]
fn long_product(action: u32, left: u32, right: u32) -> Units
    requires { action < U.action_limit }
    ensures { result ≡ U.long_product action left right }
{
    let head = 0xC000 + high(action);
    Units::new(&[
        head,
        low(action),
        low(left),
        high(left),
        low(right),
        high(right),
    ])
}

// Product without a right factor: one unit, two units, and the other.
#[tactic(auto, unfolding(crate::specs::Rows::alone_row, crate::specs::Choice::both_below))]
fn alone_row(p: usize, action: u32, left: u32) -> Units
    requires { (action < U.action_limit) × (left < p) }
    ensures { result ≡ U.alone_row p action left }
{
    let back = p - left as usize;
    if back < 32 && action < 256 {
        let unit = (0x2000 + back * 256 + action as usize) as u16;
        return Units::new(&[unit]);
    }
    if back < 8192 && action < 65536 {
        let head = (0x4000 + back) as u16;
        let second = action as u16;
        return Units::new(&[head, second]);
    }
    long_product(action, left, NO_FACTOR)
}

// Product with a right factor: two units, and the other.
#[tactic(auto, unfolding(crate::specs::Rows::pair_row, crate::specs::Choice::both_below))]
fn pair_row(p: usize, action: u32, left: u32, right: u32) -> Units
    requires { (action < U.action_limit) × ((left < p) × (right < p)) }
    ensures { result ≡ U.pair_row p action left right }
{
    let left_back = p - left as usize;
    let right_back = p - right as usize;
    if action < 65536 && right_back < 32 && left_back < 256 {
        let head = (0x6000 + right_back * 256 + left_back) as u16;
        let second = action as u16;
        return Units::new(&[head, second]);
    }
    long_product(action, left, right)
}

#[tactic(auto, unfolding(crate::specs::Rows::product_row))]
fn product_row(p: usize, action: u32, left: u32, right: Option<u32>) -> Units
    requires { U.unfit_product p action left right ≡ false }
    ensures { result ≡ U.product_row p action left right }
{
    match right {
        None => alone_row(p, action, left),
        Some(factor) => pair_row(p, action, left, factor),
    }
}

// The two kinds of leaf differ in their heads: `short` for a symbol below 4096, `wide` for any other.
#[tactic(auto, unfolding(crate::specs::Rows::leaf_row))]
fn leaf_row(short: u16, wide: u16, symbol: u32) -> Units
    requires { short < 0xF000 }
    ensures { result ≡ U.leaf_row short wide symbol }
{
    if symbol < 4096 {
        let unit = short + symbol as u16;
        return Units::new(&[unit]);
    }
    Units::new(&[wide, 0, low(symbol), high(symbol)])
}

// The units of a node that is fit at p, by the first row that fits. Inlined, as `units_of` is: a reader compares the units where they are
// made. Copied, they would first be stored one by one and then be waited for.
#[inline(always)]
#[tactic(auto, unfolding(crate::specs::Rows::row_of))]
fn row_of(p: usize, node: Node) -> Units
    requires { U.unfit p node ≡ false }
    ensures { result ≡ U.row_of p node }
{
    match node {
        Node::Sum { count, nonterminal } => sum_row(count, nonterminal),
        Node::Product {
            action,
            left,
            right,
        } => product_row(p, action, left, right),
        Node::Evaluated { symbol } => leaf_row(0x8000, 0xA000, symbol),
        Node::NullingLeaf { symbol } => leaf_row(0x9000, 0xA001, symbol),
    }
}

// The units of a node at p; none where it is unfit there.
#[inline(always)]
pub fn units_of(p: usize, node: Node) -> Option<Units>
    ensures { result ≡ pick (U.unfit p node) None (Some (U.row_of p node)) }
{
    if unfit(p, node) {
        return None;
    }
    Some(row_of(p, node))
}
