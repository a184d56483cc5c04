// Answers requests on a node store, so that another program can compare: a line for each, of eight words in hexadecimal, eight digits a
// word, parted by single blanks. The first word of a request tells what to do:
//   0 n                                            the store has n units
//   1 a b u                                        units a to b - 1 become u
//   2 low high kind first second present right     write at the position of these two halves
//   3 low high                                     read there
//   4 low high                                     walk from there
//   5 a                                            the seven units from a on, all ones past the end
// A node's kind is 0 Sum (count, nonterminal), 1 Product (action, left, whether a right factor is present, and it), 2 NullingLeaf (symbol),
// 3 Evaluated (symbol). Answers: a write tells its number and the halves of the position behind, or of the place where it is refused; a read
// its number, the node, where 4 is the end and 5 nothing, and the halves of the position behind, or of the place; a walk its number, the count
// and the halves of the position behind, and those of the place.
#![tactic(auto)]

mod words;

use node::{NoNode, Node, Unwritten, Walked};
use programs::reading::read_full;
use std::io;
use std::io::Read;
use words::{LINE, WORDS, line_of, words_of};

// The largest store, past the units that are usable.
const UNITS: usize = 40000;

// The most requests that are answered.
const REQUESTS: u32 = 4_000_000;

// What a line asks for.
#[derive(Clone, Copy, PartialEq, Eq, Debug)]
enum Request {
    Resize(usize),
    Fill { from: usize, to: usize, unit: u16 },
    Write(usize, Node),
    Read(usize),
    Walk(usize),
    Show(u32),
}

// The halves of a position. `as` has to lose nothing, so the remainder and the quotient are taken before it.
fn low(x: usize) -> u32 {
    (x % 0x1_0000_0000) as u32
}

fn high(x: usize) -> u32 {
    (x / 0x1_0000_0000) as u32
}

fn position(low: u32, high: u32) -> usize {
    high as usize * 0x1_0000_0000 + low as usize
}

// The node of a kind: its words, whether a right factor is present, and it. Crate host has this and its converse too: a program that
// replays shares nothing with it but `node`.
fn node_of(kind: u32, first: u32, second: u32, present: u32, right: u32) -> Node {
    match kind {
        0 => Node::Sum {
            count: first,
            nonterminal: second,
        },
        1 => Node::Product {
            action: first,
            left: second,
            right: if present == 0 { None } else { Some(right) },
        },
        2 => Node::NullingLeaf { symbol: first },
        _ => Node::Evaluated { symbol: first },
    }
}

fn request_of(words: [u32; WORDS]) -> Request {
    let at = position(words[1], words[2]);
    match words[0] {
        0 => Request::Resize(words[1] as usize),
        1 => Request::Fill {
            from: words[1] as usize,
            to: words[2] as usize,
            unit: (words[3] % 65536) as u16,
        },
        2 => Request::Write(
            at,
            node_of(words[3], words[4], words[5], words[6], words[7]),
        ),
        3 => Request::Read(at),
        4 => Request::Walk(at),
        _ => Request::Show(words[1]),
    }
}

fn written(answer: Result<usize, Unwritten>) -> [u32; WORDS] {
    let (number, place) = match answer {
        Ok(behind) => (0, behind),
        Err(Unwritten::Unfit(p)) => (10, p),
        Err(Unwritten::NoRoom(p)) => (11, p),
    };
    [number, low(place), high(place), 0, 0, 0, 0, 0]
}

fn found(answer: Result<Option<(Node, usize)>, NoNode>) -> [u32; WORDS] {
    match answer {
        Ok(Some((node, q))) => of_node(node, q),
        Ok(None) => [0, 4, 0, 0, 0, 0, 0, 0],
        Err(NoNode(unit)) => [12, 5, 0, 0, 0, 0, low(unit), high(unit)],
    }
}

fn of_node(node: Node, q: usize) -> [u32; WORDS] {
    match node {
        Node::Sum { count, nonterminal } => [0, 0, count, nonterminal, 0, 0, low(q), high(q)],
        Node::Product {
            action,
            left,
            right: Some(right),
        } => [0, 1, action, left, 1, right, low(q), high(q)],
        Node::Product {
            action,
            left,
            right: None,
        } => [0, 1, action, left, 0, 0, low(q), high(q)],
        Node::NullingLeaf { symbol } => [0, 2, symbol, 0, 0, 0, low(q), high(q)],
        Node::Evaluated { symbol } => [0, 3, symbol, 0, 0, 0, low(q), high(q)],
    }
}

fn walked(answer: Walked) -> [u32; WORDS] {
    let (number, unit) = match answer.fault {
        None => (0, 0),
        Some(unit) => (12, unit),
    };
    let behind = answer.behind;
    [
        number,
        low(answer.count),
        low(behind),
        high(behind),
        low(unit),
        high(unit),
        0,
        0,
    ]
}

fn unit(store: &[u16], i: usize) -> u32 {
    if i < store.len() {
        store[i] as u32
    } else {
        0xFFFF_FFFF
    }
}

fn shown(store: &[u16], from: u32) -> [u32; WORDS] {
    let mut words = [0; WORDS];
    for k in 0..7 {
        words[k] = unit(store, from as usize + k);
    }
    words
}

fn fill(store: &mut [u16], from: usize, to: usize, unit: u16) {
    if from <= to && to <= store.len() {
        store[from..to].fill(unit);
    }
}

fn tell(rt: &impl Print, words: [u32; WORDS]) -> io::Result<()> {
    rt.write_all(&line_of(words))
}

// Answers one request on the first `count` units, and how many units the store has from then on. Where these are more than there are, it
// has all that there are from then on, and the request is passed over.
fn answer(rt: &impl Print, store: &mut [u16], count: usize, request: Request) -> io::Result<usize> {
    if store.len() < count {
        return Ok(store.len());
    }
    let units = &mut store[..count];
    match request {
        Request::Resize(wanted) => return Ok(wanted),
        Request::Fill { from, to, unit } => fill(units, from, to, unit),
        Request::Write(p, node) => tell(rt, written(node::write(units, p, node)))?,
        Request::Read(p) => tell(rt, found(node::read(units, p)))?,
        Request::Walk(p) => tell(rt, walked(node::walk(units, p)))?,
        Request::Show(from) => tell(rt, shown(units, from))?,
    }
    Ok(count)
}

fn serve<R: Read>(rt: &impl Print, from: &mut R, store: &mut [u16]) -> io::Result<()> {
    let mut count = 0;
    for _ in 0..REQUESTS {
        let mut line = [0; LINE];
        if read_full(from, &mut line) < LINE {
            return Ok(());
        }
        count = answer(rt, store, count, request_of(words_of(&line)))?;
    }
    Ok(())
}

fn main(rt: HostRuntime) -> io::Result<()> {
    let mut store = [0; UNITS];
    serve(&rt, &mut rt.reader(), &mut store)
}
