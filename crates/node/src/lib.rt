// The node store: nodes of a parse forest in u16 units, one node behind another. Write one, read one, walk.
#![tactic(auto)]

ghost use Rattle.std.specs.Prelude.{◌≡◌};
ghost use Rattle.node.specs.Answers.{written, found, walked};
ghost use Rattle.node.specs.Writing.{StoreOutcome, write_at, usable};
ghost use Rattle.node.specs.Reading.{read_at, Exactly};
ghost use Rattle.node.specs.Walking.{walk_at};

pub mod factor;
mod placing;
mod reading;
mod rows;
mod spelling;

// A node. Factors are positions of nodes in the same store; a Product may have no right one.
#[derive(Clone, Copy, PartialEq, Eq, Debug)]
pub enum Node {
    Sum {
        count: u32,
        nonterminal: u32,
    },
    Product {
        action: u32,
        left: u32,
        right: Option<u32>,
    },
    NullingLeaf {
        symbol: u32,
    },
    Evaluated {
        symbol: u32,
    },
}

// Why a node was not written: 10 or 11, with the position asked for.
#[derive(Clone, Copy, PartialEq, Eq, Debug)]
pub enum Unwritten {
    Unfit(usize),
    NoRoom(usize),
}

// 12: no node was read. It has the unit at which the fault was seen.
#[derive(Clone, Copy, PartialEq, Eq, Debug)]
pub struct NoNode(pub usize);

// What a walk answers: how many nodes it read and the position behind the last, and where it stopped at a 12 the unit of its fault.
#[derive(Clone, Copy, PartialEq, Eq, Debug)]
pub struct Walked {
    pub count: usize,
    pub behind: usize,
    pub fault: Option<usize>,
}

// Writes a node at p, in the first row of the table that fits, and answers the position behind it.
pub fn write(store: &mut [u16], p: usize, node: Node) -> Result<usize, Unwritten>
    ensures { record { answer = written result; store = store.new } ≡ write_at store.old p node }
{
    match rows::units_of(p, node) {
        Some(units) => placing::place_units(store, p, units.as_slice()),
        None => Err(Unwritten::Unfit(p)),
    }
}

// Reads the first node from p on: the node and the position behind it, or `None` at the end.
pub fn read(store: &[u16], p: usize) -> Result<Option<(Node, usize)>, NoNode>
    ensures answers { found result ≡ read_at store.now p }
    ensures exactly { Exactly (usable store.now) p (found result) }
{
    let end = placing::usable(store.len());
    reading::read_units(&store[..end], p)
}

// Reads on from p, to the end or the first 12.
pub fn walk(store: &[u16], p: usize) -> Walked
    ensures { walked result ≡ walk_at store.now p }
{
    let end = placing::usable(store.len());
    reading::walk_units(&store[..end], p)
}
