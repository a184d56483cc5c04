// The trees of a forest for hosts: how many there are under a handle, and each by its number.
ghost use Rattle.std.specs.Prelude.{◌≡◌};
ghost use Rattle.trees.specs.Answers.{counted, told};
ghost use Rattle.host.specs.Trees.{number_in, values_in, trees_or, place_or, count_in, CountsIn, TellsIn};

use crate::nodes::NO_NODE;
use crate::parse_words::TOO_SHORT;
use trees::{Uncounted, Untold};

// The numbers of the refusals, as the C interface has them.
const TOO_MANY_TREES: u32 = 23;

const NO_SUCH_TREE: u32 = 24;

// Puts the number of trees, or the place of a 12, into the host's words, and answers the number.
fn tell_counted(answer: Result<u64, Uncounted>, trees: &mut u64, place: &mut usize) -> u32
    ensures number { result ≡ number_in (counted answer) }
    ensures trees { trees.new ≡ trees_or trees.old (values_in (counted answer)) }
    ensures place { place.new ≡ place_or place.old (values_in (counted answer)) }
{
    match answer {
        Ok(number) => {
            *trees = number;
            0
        }
        Err(Uncounted::Faulty(at)) => {
            *place = at;
            NO_NODE
        }
        Err(Uncounted::TooMany) => TOO_MANY_TREES,
    }
}

// Puts the number of words, or the place of a 12, into the host's words, and answers the number.
fn tell_told(answer: Result<usize, Untold>, count: &mut usize, place: &mut usize) -> u32
    ensures number { result ≡ number_in (told answer) }
    ensures count { count.new ≡ count_in (values_in (told answer)) }
    ensures place { place.new ≡ place_or place.old (values_in (told answer)) }
{
    match answer {
        Ok(written) => {
            *count = written;
            0
        }
        Err(Untold::TooShort(needed)) => {
            *count = needed;
            TOO_SHORT
        }
        Err(Untold::Faulty(at)) => {
            *count = 0;
            *place = at;
            NO_NODE
        }
        Err(Untold::NoSuch) => {
            *count = 0;
            NO_SUCH_TREE
        }
    }
}

// How many trees there are under a handle of a node store.
pub fn brinesaddle_count(store: &[u16], handle: usize, trees: &mut u64, place: &mut usize) -> u32
    ensures { CountsIn store.now handle trees.old place.old result trees.new place.new }
{
    tell_counted(trees::count(store, handle), trees, place)
}

// The words of the k-th tree under a handle, in preorder: rule numbers, and the tokens of leaves.
pub fn brinesaddle_tree(
    store: &[u16],
    handle: usize,
    k: u64,
    out: &mut [u32],
    count: &mut usize,
    place: &mut usize,
) -> u32
    ensures { TellsIn store.now handle k out.old out.new place.old result count.new
        place.new }
{
    tell_told(trees::tree(store, handle, k, out), count, place)
}
