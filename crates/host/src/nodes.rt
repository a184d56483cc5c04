// A node as five numbers.
ghost use Rattle.std.specs.Prelude.{◌≡◌};
ghost use Rattle.host.specs.Nodes.{told_by, factor_by, numbers_of};

use node::Node;

// The kinds of a node are numbers in the C interface.
const SUM: u32 = 0;

const PRODUCT: u32 = 1;

const NULLING_LEAF: u32 = 2;

const EVALUATED: u32 = 3;

// What stands in the place of a kind where the store ends.
pub const END: u32 = 4;

// The numbers of the refusals, as the C interface has them.
pub const UNFIT: u32 = 10;

pub const NO_ROOM: u32 = 11;

pub const NO_NODE: u32 = 12;

// The node that five numbers tell; none where the first is no kind of a node.
#[tactic(auto, unfolding(crate::specs::Nodes::told_by))]
pub fn node_of(numbers: &[u32; 5]) -> Option<Node>
    ensures { result ≡ told_by numbers.now }
{
    let first = numbers[1];
    let second = numbers[2];
    match numbers[0] {
        SUM => Some(Node::Sum {
            count: first,
            nonterminal: second,
        }),
        PRODUCT => Some(Node::Product {
            action: first,
            left: second,
            right: factor(numbers[3], numbers[4]),
        }),
        NULLING_LEAF => Some(Node::NullingLeaf { symbol: first }),
        EVALUATED => Some(Node::Evaluated { symbol: first }),
        _ => None,
    }
}

// A right factor, where it is present.
#[tactic(auto, unfolding(crate::specs::Nodes::factor_by))]
fn factor(present: u32, right: u32) -> Option<u32>
    ensures { result ≡ factor_by present right }
{
    if present == 0 { None } else { Some(right) }
}

// The five numbers of a node.
#[tactic(auto, unfolding(crate::specs::Nodes::numbers_of))]
pub fn numbers_of(node: Node) -> [u32; 5]
    ensures { result ≡ numbers_of node }
{
    match node {
        Node::Sum { count, nonterminal } => [SUM, count, nonterminal, 0, 0],
        Node::Product {
            action,
            left,
            right,
        } => match right {
            Some(factor) => [PRODUCT, action, left, 1, factor],
            None => [PRODUCT, action, left, 0, 0],
        },
        Node::NullingLeaf { symbol } => [NULLING_LEAF, symbol, 0, 0, 0],
        Node::Evaluated { symbol } => [EVALUATED, symbol, 0, 0, 0],
    }
}
