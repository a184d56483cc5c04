// Reading over the usable units of a store.
ghost use Rattle.std.specs.Prelude.{◌≡◌, ◌<◌, ◌≤◌, length};
ghost use Rattle.node.specs.Answers.{met, found, walked};
ghost use Rattle.node.specs.Writing.{usable_units};
ghost use Rattle.node.specs.Reading as R;
ghost use Rattle.node.specs.Walking as W;

use crate::rows::units_of;
use crate::spelling::spelt;
use crate::{NoNode, Node, Walked};

// The unit that reading skips.
const FILLER: u16 = 0xFFFF;

// How many fillers units begin with.
fn fillers(units: &[u16]) -> usize
    ensures { result ≡ R.fillers units.now }
{
    units.iter().take_while(|unit| **unit == FILLER).count()
}

// The first position from p on that holds no filler.
fn head_from(s: &[u16], p: usize) -> usize
    ensures { result ≡ R.head_from s.now p }
{
    if p < s.len() { p + fillers(&s[p..]) } else { p }
}

// Whether the head of units stands at q and all of them have room in the store.
fn head_right(s: &[u16], q: usize, units: &[u16]) -> bool
    requires { (q < length s.now) × (0 < length units.now) }
    ensures { result ≡ R.head_right s.now q units.now }
{
    s[q] == units[0] && units.len() <= s.len() - q
}

// Whether units stand at q, one by one up to the first that is another: mostly there are one or two, where `starts_with` looks at their
// number first.
fn stands(s: &[u16], q: usize, units: &[u16]) -> bool
    requires { (q < length s.now) × (0 < length units.now) }
    ensures { result ≡ R.stand s.now q units.now }
{
    if s.len() - q < units.len() {
        return false;
    }
    for (i, unit) in units.iter().enumerate() {
        if s[q + i] != *unit {
            return false;
        }
    }
    true
}

// The node that stands at q: the one whose units, written there, are the units there. Otherwise the unit at which a fault is seen: the
// head, unless it is right. Then the units are those of a leaf but for the second, which must be zero.
fn read_here(s: &[u16], q: usize) -> Result<(Node, usize), NoNode>
    requires { (q < length s.now) × (length s.now ≤ usable_units) }
    ensures { met result ≡ R.read_here s.now q }
{
    let Some(node) = spelt(s, q) else {
        return Err(NoNode(q));
    };
    let Some(row) = units_of(q, node) else {
        return Err(NoNode(q));
    };
    let units = row.as_slice();
    if stands(s, q, units) {
        return Ok((node, q + units.len()));
    }
    let second = q + 1;
    if head_right(s, q, units) {
        return Err(NoNode(second));
    }
    Err(NoNode(q)) // cut off, or in another form than its own
}

// The first node from p on.
pub fn read_units(s: &[u16], p: usize) -> Result<Option<(Node, usize)>, NoNode>
    requires { length s.now ≤ usable_units }
    ensures { found result ≡ R.read_units s.now p }
{
    let q = head_from(s, p);
    if q < s.len() {
        return Ok(Some(read_here(s, q)?));
    }
    Ok(None)
}

// The nodes from p on, to the end or the first 12.
pub fn walk_units(s: &[u16], p: usize) -> Walked
    requires { length s.now ≤ usable_units }
    ensures { walked result ≡ W.walk_from s.now p 0 }
{
    let mut count: usize = 0;
    let mut at = p;
    // No count: each turn passes a whole node.
    loop {
        match read_units(s, at) {
            Ok(Some((_, behind))) => {
                at = behind;
                count += 1;
            }
            Ok(None) => {
                return Walked {
                    count,
                    behind: at,
                    fault: None,
                };
            }
            Err(NoNode(unit)) => {
                return Walked {
                    count,
                    behind: at,
                    fault: Some(unit),
                };
            }
        }
    }
}
