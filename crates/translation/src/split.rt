// The rules that the written rules are split into, listed.
ghost use Rattle.std.specs.Prelude.{◌+◌, ◌≤◌, ◌<◌, length as length_of};
ghost use Rattle.grammar.specs.inner.Decoded.{rules_of as listed};
ghost use Rattle.written.specs.Form as form;
ghost use Rattle.written.specs.Split as spec;
ghost use Rattle.written.specs.Translation as translation;
ghost use Rattle.translation.specs.inner.Marks.{marked};
ghost use Rattle.translation.specs.inner.Lists.{Lists};

use crate::form::LONGEST;
use crate::list::{Full, RuleList};
use crate::marks::Marks;
use crate::places::{number, places};
use crate::rules::Written;
use grammar::rules::NONE;

// Which symbols stay, and which may be empty.
#[derive(Clone, Copy)]
pub struct Tests<'a> {
    pub keep: &'a Marks,
    pub empty: &'a Marks,
}

// Lists the rules of a ::= two places or more: each place but the first and the last gives a new symbol, from `from` on.
fn join(
    list: &mut RuleList,
    tests: &Tests<'_>,
    a: usize,
    held: &[u16],
    from: usize,
) -> Result<(), Full>
    requires { (a < 65536) × (2 ≤ length_of held.now) × (from + length_of held.now < 65536) }
    ensures { Lists (listed list.old.rules) result (listed list.new.rules)
        (spec.split (translation.number (marked tests.now.keep.now)) (marked tests.now.empty.now) a held.now from) }
{
    let first = held[0] as usize;
    let mut head = number(tests.keep, first);
    let mut head_empty = tests.empty[first];
    let mut fresh = from;
    for i in 1..held.len() - 1 {
        let x = held[i] as usize;
        let x_empty = tests.empty[x];
        list.pair(fresh, head, number(tests.keep, x), head_empty, x_empty)?;
        head = fresh;
        head_empty = head_empty && x_empty;
        fresh += 1;
    }
    let last = held[held.len() - 1] as usize;
    list.pair(
        a,
        head,
        number(tests.keep, last),
        head_empty,
        tests.empty[last],
    )
}

// Lists the rules of a ::= its places.
fn split(
    list: &mut RuleList,
    tests: &Tests<'_>,
    a: usize,
    held: &[u16],
    from: usize,
) -> Result<(), Full>
    requires { (a < 65536) × (from + length_of held.now < 65536) }
    ensures { Lists (listed list.old.rules) result (listed list.new.rules)
        (spec.split (translation.number (marked tests.now.keep.now)) (marked tests.now.empty.now) a held.now from) }
{
    match held.len() {
        0 => Ok(()),
        1 => list.add(a, number(tests.keep, held[0] as usize), NONE),
        _ => join(list, tests, a, held, from),
    }
}

// Lists the rules of the written rules, where new symbols are numbered from `from` on. The list is lent: 17 KB of a call's stack, once.
pub fn list(
    written: &Written<'_>,
    tests: &Tests<'_>,
    from: usize,
    list: &mut RuleList,
) -> Result<(), Full>
    requires { from + translation.all_new (marked tests.now.keep.now) (form.written_of written.now).rules ≤ 512 }
    ensures { Lists (listed list.old.rules) result (listed list.new.rules)
        (translation.splits (marked tests.now.keep.now) (marked tests.now.empty.now) (form.written_of written.now).rules from) }
{
    let mut room = [0; LONGEST];
    let mut fresh = from;
    for rule in written.rules() {
        let held = places(&rule, tests.keep, &mut room);
        let a = number(tests.keep, rule.left() as usize);
        split(list, tests, a, held, fresh)?;
        fresh += held.len().saturating_sub(2);
    }
    Ok(())
}
