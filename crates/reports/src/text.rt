// Items as lines of text.
ghost use Rattle.std.specs.Prelude.{◌≡◌, ◌++◌, ◌+◌, ◌-◌, ◌≤◌, length};
ghost use Rattle.laws.specs.Records.{flat};
ghost use Rattle.grammar.specs.inner.Decoded.{rules_of};
ghost use Rattle.advance.specs.NewItems.{items_from};
ghost use Rattle.reports.specs.Decimal.{decimal};
ghost use Rattle.reports.specs.Lists.{line};
ghost use Rattle.reports.specs.inner.Puts.{Puts, Listable};
ghost use Rattle.reports.specs.inner.Lines.{most_line, PutAt, Listed, Shows, line_at, lines_of};

use crate::Unfilled;
use crate::decimal::{digits, put_decimal};
use grammar::rules::Rules;

// What stands behind the left side, the first symbol, the second and the origin.
const BECOMES: [u8; 5] = *b" ::= ";

const DOT: [u8; 3] = *b" * ";

const FROM: [u8; 3] = *b" @ ";

const NEWLINE: [u8; 1] = *b"\n";

// How many bytes these are.
const SIGNS: usize = 5 + 3 + 3 + 1;

// The numbers of a line.
#[derive(Clone, Copy)]
struct Shown {
    left: usize,
    first: usize,
    second: usize,
    origin: usize,
}

// What the line of the item at place `p` shows.
fn show(rules: &Rules, items: &[u32], p: usize) -> Shown
    requires { Listed rules.now.count items.now p }
    ensures { Shows rules.now.words rules.now.count items.now p result }
{
    let rule = item::rule(items, p) as usize;
    Shown {
        left: rules.left(rule),
        first: rules.first(rule),
        second: rules.second(rule),
        origin: item::origin(items, p) as usize,
    }
}

// How long the line of the item at place `p` is.
fn line_length(rules: &Rules, items: &[u32], p: usize) -> usize
    requires { Listed rules.now.count items.now p }
    ensures { (result ≡ length (line_at rules.now.words rules.now.count items.now p)) × (result ≤ most_line) }
{
    let shown = show(rules, items, p);
    let symbols = digits(shown.left) + digits(shown.first) + digits(shown.second);
    symbols + digits(shown.origin) + SIGNS
}

// How long the lines of the items at the places from `from` up to and without `to` are.
// No struct of `rules`, `items`, `from` and `to`, here, below and in words.rt: the loop of each would only take it apart.
fn text_length(rules: &Rules, items: &[u32], from: usize, to: usize) -> usize
    requires { Listable rules.now.count items.now from to }
    ensures { result ≡ length (lines_of rules.now.words rules.now.count items.now from to) }
{
    let mut total = 0;
    for p in from..to {
        total += line_length(rules, items, p);
    }
    total
}

// Copies bytes to `at`; answers the place behind them. Crate programs has this too: the library stands on nothing of the programs.
// The place behind is the answer here and below: a struct of a lent slice and a place, for two values, is no plainer.
fn put(out: &mut [u8], at: usize, bytes: &[u8]) -> usize
    requires { at + length bytes.now ≤ length out.old }
    ensures { PutAt out.old at bytes.now result out.new }
{
    let end = at + bytes.len();
    out[at..end].copy_from_slice(bytes);
    end
}

// Puts a number, and what stands behind it, at `at`; answers the place behind both.
fn put_number(out: &mut [u8], at: usize, n: usize, sign: &[u8]) -> usize
    requires { at + (length (decimal n) + length sign.now) ≤ length out.old }
    ensures { PutAt out.old at (decimal n ++ sign.now) result out.new }
{
    let end = put_decimal(out, at, n);
    put(out, end, sign)
}

// Puts the line of the item at place `p` at `at`; answers the place behind it.
fn put_line(rules: &Rules, items: &[u32], p: usize, out: &mut [u8], at: usize) -> usize
    requires { Listed rules.now.count items.now p
        × (at + length (line_at rules.now.words rules.now.count items.now p) ≤ length out.old) }
    ensures { PutAt out.old at (line_at rules.now.words rules.now.count items.now p) result
        out.new }
{
    let shown = show(rules, items, p);
    let first_at = put_number(out, at, shown.left, &BECOMES);
    let second_at = put_number(out, first_at, shown.first, &DOT);
    let origin_at = put_number(out, second_at, shown.second, &FROM);
    put_number(out, origin_at, shown.origin, &NEWLINE)
}

// Puts the lines of the items at the places from `from` up to and without `to`, one behind the other; answers how long they are.
fn put_lines(rules: &Rules, items: &[u32], from: usize, to: usize, out: &mut [u8]) -> usize
    requires { Listable rules.now.count items.now from to
        × (length (lines_of rules.now.words rules.now.count items.now from to) ≤ length out.old) }
    ensures { PutAt out.old 0 (lines_of rules.now.words rules.now.count items.now from to) result
        out.new }
{
    let mut at = 0;
    for p in from..to {
        at = put_line(rules, items, p, out, at);
    }
    at
}

// The items at the places from `from` up to and without `to`, a line each; nothing is written where the place is too short.
pub fn list_text(
    rules: &Rules,
    items: &[u32],
    from: usize,
    to: usize,
    out: &mut [u8],
) -> Result<usize, Unfilled>
    requires { Listable rules.now.count items.now from to }
    ensures { Puts
        (flat (line (rules_of rules.now)) (items_from items.now from (to - from)))
        out.old result out.new }
{
    let needed = text_length(rules, items, from, to);
    if out.len() < needed {
        return Err(Unfilled::TooShort(needed));
    }
    Ok(put_lines(rules, items, from, to, out))
}
