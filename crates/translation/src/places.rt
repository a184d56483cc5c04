// Symbols that stay: their numbers, the places of a right side, and how many new symbols all rules need.
ghost use Rattle.std.specs.Prelude.{◌≡◌, ◌-◌, ◌*◌, ◌≤◌, length as length_of};
ghost use Rattle.written.specs.Form as form;
ghost use Rattle.written.specs.Translation as translation;
ghost use Rattle.translation.specs.inner.Marks.{most_symbols, marked};

use crate::form::LONGEST;
use crate::marks::Marks;
use crate::rules::{Written, WrittenRule};

// The number of symbol `x`: how many below it stay.
pub fn number(keep: &Marks, x: usize) -> usize
    requires { x ≤ most_symbols }
    ensures { (result ≡ translation.number (marked keep.now) x) × (result ≤ x) }
{
    keep[..x].iter().filter(|stays| **stays).count()
}

// Room for the places of a right side.
pub type Places = [u16; LONGEST];

// The places of a rule, in their order.
pub fn places<'a>(rule: &WrittenRule<'_>, keep: &Marks, room: &'a mut Places) -> &'a [u16]
    ensures { (result.now ≡ translation.places (marked keep.now) rule.now.right) × (length_of result.now ≤ form.longest) }
{
    let mut k = 0;
    for x in rule.right() {
        if keep[x as usize] {
            room[k] = x;
            k += 1;
        }
    }
    &room[..k]
}

// How many new symbols all rules need.
pub fn count_new(written: &Written<'_>, keep: &Marks) -> usize
    ensures { (result ≡ translation.all_new (marked keep.now) (form.written_of written.now).rules) × (result ≤ form.longest * 65535) }
{
    let mut room = [0; LONGEST];
    let mut total = 0;
    for rule in written.rules() {
        total += places(&rule, keep, &mut room).len().saturating_sub(2);
    }
    total
}
