// The bytes of the file.
ghost use Rattle.std.specs.Prelude.{◌≡◌, ◌∷◌, ◌++◌, ◌+◌, ◌-◌, ◌*◌, ◌≤◌, ◌<◌, length as length_of, set};
ghost use Rattle.std.proofs.lemmas.List.Edits.{sets};
ghost use Rattle.laws.specs.Records.{flat};
ghost use Rattle.grammar.specs.Accepted.{max_symbols, max_rules};
ghost use Rattle.grammar.specs.File.{header_bytes, rule_bytes};
ghost use Rattle.grammar.specs.inner.Decoded.{rules_of as listed};
ghost use Rattle.written.specs.Split as spec;
ghost use Rattle.written.specs.Order.{ordered};
ghost use Rattle.written.specs.Translation.{rules_of, blocks, up_from};
ghost use Rattle.written.specs.Bytes.{u16_bytes, u32_bytes, bytes_of_rule, bytes_of};
ghost use Rattle.translation.specs.inner.Sides.{level_of};
ghost use Rattle.translation.specs.inner.Puts.{Puts};

use crate::marks::mark_within;
use crate::sides::{Sides, is_marked, keep_named, named_by};
use grammar::file::{HEADER, RULE, VERSION};
use grammar::limits::SYMBOLS;
use grammar::rules::Rules;

// A number in two bytes, the high one first.
fn put_u16(file: &mut [u8], at: usize, n: usize)
    requires { (at + 2 ≤ length_of file.old) × (n < 65536) }
    ensures { file.new ≡ sets file.old at (u16_bytes n) }
{
    file[at..at + 2].copy_from_slice(&(n as u16).to_be_bytes());
}

// One in four.
fn put_u32(file: &mut [u8], at: usize, n: usize)
    requires { (at + 4 ≤ length_of file.old) × (n < 4294967296) }
    ensures { file.new ≡ sets file.old at (u32_bytes n) }
{
    file[at..at + 4].copy_from_slice(&(n as u32).to_be_bytes());
}

// A rule in six. Three numbers, as in list.rt.
fn put_rule(file: &mut [u8], at: usize, a: usize, b: usize, c: usize)
    requires { (at + rule_bytes ≤ length_of file.old) × (a < 65536) × (b < 65536) × (c < 65536) }
    ensures { file.new ≡ sets file.old at (bytes_of_rule (spec.rule a b c)) }
{
    put_u16(file, at, a);
    put_u16(file, at + 2, b);
    put_u16(file, at + 4, c);
}

// The rules of one left side, in the order of the list. The place behind them is the answer: a struct of the lent bytes and a place would
// serve this function and the next alone.
fn put_rules_of(file: &mut [u8], at: usize, rules: &Rules, a: usize) -> usize
    requires { (rules.now.count ≤ max_rules)
        × (at + length_of (flat bytes_of_rule (rules_of (listed rules.now) a)) ≤ length_of file.old) }
    ensures { Puts file.old at (flat bytes_of_rule (rules_of (listed rules.now) a)) file.new result }
{
    let mut here = at;
    for r in 0..rules.count {
        if rules.left(r) == a {
            put_rule(file, here, a, rules.first(r), rules.second(r));
            here += RULE;
        }
    }
    here
}

// A level: the rules of the left sides that are left and that no rule names. The place behind them.
fn put_level(
    file: &mut [u8],
    at: usize,
    rules: &Rules,
    left: &Sides,
    named: &Sides,
    from: usize,
    to: usize,
) -> usize
    requires { (rules.now.count ≤ max_rules)
        × (at + length_of (flat bytes_of_rule (blocks (listed rules.now) (level_of left.now named.now from to))) ≤ length_of file.old) }
    ensures { Puts file.old at
        (flat bytes_of_rule (blocks (listed rules.now) (level_of left.now named.now from to))) file.new result }
{
    let mut here = at;
    for a in from..to {
        if is_marked(left, a) && !is_marked(named, a) {
            here = put_rules_of(file, here, rules, a);
        }
    }
    here
}

// The rules of the left sides from `from` up to `to`, level after level.
fn put_levels(file: &mut [u8], at: usize, rules: &Rules, from: usize, to: usize)
    requires { (rules.now.count ≤ max_rules) × (from ≤ to) × (to ≤ max_symbols)
        × (at + length_of
        (flat bytes_of_rule (blocks (listed rules.now) (ordered (to - from) (listed rules.now) (up_from from (to - from)))))
        ≤ length_of file.old) }
    ensures { file.new ≡ sets file.old at
        (flat bytes_of_rule (blocks (listed rules.now) (ordered (to - from) (listed rules.now) (up_from from (to - from))))) }
{
    let mut left = [false; SYMBOLS];
    mark_within(&mut left, from, to);
    let mut here = at;
    for _round in from..to {
        let named = named_by(rules, &left);
        here = put_level(file, here, rules, &left, &named, from, to);
        keep_named(&mut left, &named);
    }
}

// The version.
fn put_version(file: &mut [u8])
    requires { header_bytes ≤ length_of file.old }
    ensures { file.new ≡ set file.old 0 1 }
{
    file[0] = VERSION as u8;
}

// Version, L, N, T, R.
fn put_header(file: &mut [u8], symbols: usize, tokens: usize, count: usize)
    requires { (header_bytes ≤ length_of file.old) × (symbols < 65536) × (tokens < 65536) × (count < 65536) }
    ensures { file.new ≡ sets file.old 0
        (1 ∷ (u32_bytes (header_bytes + rule_bytes * count) ++ (u16_bytes symbols ++ (u16_bytes tokens ++ u16_bytes count)))) }
{
    put_version(file);
    put_u32(file, 1, HEADER + RULE * count);
    put_u16(file, 5, symbols);
    put_u16(file, 7, tokens);
    put_u16(file, 9, count);
}

// The whole file: rule 0 is W ::= S end, and behind it stand the `count` rules of the list.
pub fn write(file: &mut [u8], rules: &Rules, tokens: usize, start: usize, wrapper: usize)
    requires { (rules.now.count < max_rules) × (tokens ≤ wrapper) × (wrapper + 2 ≤ max_symbols) × (start < 65536)
        × (header_bytes + rule_bytes * (rules.now.count + 1) ≤ length_of file.old)
        × (length_of (blocks (listed rules.now) (ordered (wrapper - tokens) (listed rules.now) (up_from tokens (wrapper - tokens))))
        ≡ rules.now.count) }
    ensures { file.new ≡ sets file.old 0 (bytes_of (record {
      symbols = wrapper + 2;
      tokens = tokens;
      rules = spec.rule wrapper start (wrapper + 1)
          ∷ blocks (listed rules.now) (ordered (wrapper - tokens) (listed rules.now) (up_from tokens (wrapper - tokens)));
    })) }
{
    put_header(file, wrapper + 2, tokens, rules.count + 1);
    put_rule(file, HEADER, wrapper, start, wrapper + 1);
    put_levels(file, HEADER + RULE, rules, tokens, wrapper);
}
