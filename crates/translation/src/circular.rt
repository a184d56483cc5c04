// Whether a nonterminal derives itself.
ghost use Rattle.std.specs.Prelude.{◌≡◌, false, ℕ, ◌≤◌, ◌<◌, length as length_of, replicate};
ghost use Rattle.laws.specs.Decides.{Decides};
ghost use Rattle.written.specs.Written.{MayBeEmpty};
ghost use Rattle.written.specs.Lists.{Each};
ghost use Rattle.written.specs.Form.{written_of};
ghost use Rattle.written.specs.Refusals.{Circular};
ghost use Rattle.translation.specs.inner.Symbols.{LowRule};
ghost use Rattle.translation.specs.inner.Marks.{most_symbols, marked, MarksAre, walk};
ghost use Rattle.translation.specs.inner.Circles as circles;

use crate::marks::{MOST, Marks};
use crate::rules::{Written, WrittenRule};

// How many symbols on the right may not be empty.
fn filled(rule: &WrittenRule<'_>, empty: &Marks) -> usize
    ensures { result ≡ circles.filled_in (marked empty.now) rule.now.right }
{
    rule.right().filter(|x| !empty[*x as usize]).count()
}

// Whether a rule with `k` places that may not be empty leads to a place, by whether that may be empty.
fn leads(k: usize, empty: bool) -> bool
    ensures { result ≡ circles.leading k empty }
{
    k == 0 || k == 1 && !empty
}

// Marks those on the right of a rule, with `k` places that may not be empty, that it leads to.
fn mark_led(rule: &WrittenRule<'_>, empty: &Marks, led: &mut Marks, k: usize)
    ensures { led.new ≡ circles.marks_if (λ (x : ℕ). circles.leading k (marked empty.now x)) led.old rule.now.right }
{
    for x in rule.right() {
        let x = x as usize;
        if leads(k, empty[x]) {
            led[x] = true;
        }
    }
}

// Marks the symbols that a held one leads to, and no others.
fn led_by(written: &Written<'_>, empty: &Marks, held: &Marks, led: &mut Marks)
    ensures walked { led.new
        ≡ walk (circles.leads (marked empty.now) (marked held.now)) (replicate most_symbols false) (written_of written.now).rules }
    ensures low { Each LowRule (written_of written.now).rules }
{
    *led = [false; MOST];
    for rule in written.rules() {
        if held[rule.left() as usize] {
            mark_led(&rule, empty, led, filled(&rule, empty));
        }
    }
}

// Drops the held symbols that are not led to. Whether there was one.
fn drop_others(held: &mut Marks, led: &Marks) -> bool
    ensures { circles.Dropped held.old led.now held.new result }
{
    let mut some = false;
    for a in 0..MOST {
        if held[a] && !led[a] {
            held[a] = false;
            some = true;
        }
    }
    some
}

// Drops the held symbols that no held one leads to. Whether there was one.
fn drop_once(written: &Written<'_>, empty: &Marks, held: &mut Marks, led: &mut Marks) -> bool
    ensures walked { led.new
        ≡ walk (circles.leads (marked empty.now) (marked held.old)) (replicate most_symbols false) (written_of written.now).rules }
    ensures low { Each LowRule (written_of written.now).rules }
    ensures dropped { circles.Dropped held.old led.new held.new result }
{
    led_by(written, empty, held, led);
    drop_others(held, led)
}

// Of the symbols held, all at first, those are kept to which one held leads. Of those left when none can be dropped one leads to itself.
pub fn circular(written: &Written<'_>, empty: &Marks, held: &mut Marks, led: &mut Marks) -> bool
    requires { MarksAre (MayBeEmpty (written_of written.now)) empty.now }
    ensures { Decides result (Circular (written_of written.now)) }
{
    *held = [true; MOST];
    while drop_once(written, empty, held, led) {}
    held.contains(&true)
}
