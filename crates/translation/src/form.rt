// The written form, version 2: its header, its rules in place, and whether bytes are of that form.
ghost use Rattle.std.specs.Prelude.{◌≡◌, ◌+◌, ◌*◌, ◌≤◌, ◌<◌, length as length_of};
ghost use Rattle.laws.specs.Decides.{Decides};
ghost use Rattle.written.specs.Form.{written_header, rule_head, tokens_in, end_in, count_in, start_in, left_at, length_at, behind};
ghost use Rattle.written.specs.Form.{RuleStands, RulesStand, Formed};
ghost use Rattle.translation.specs.inner.Symbols.{AllBelow};

use crate::rules::Symbols;
use grammar::file::u16_at;

// The version.
pub const VERSION: u8 = 2;

// The bytes before the rules, and those of a rule before its symbols.
pub const HEADER: usize = 9;

pub const HEAD: usize = 4;

// The most symbols on the right.
pub const LONGEST: usize = 16;

// T, the number of tokens.
pub fn tokens(written: &[u8]) -> usize
    requires { written_header ≤ length_of written.now }
    ensures { (result ≡ tokens_in written.now) × (result < 65536) }
{
    u16_at(written, 1)
}

// T+M, the number of tokens and nonterminals.
pub fn end(written: &[u8]) -> usize
    requires { written_header ≤ length_of written.now }
    ensures { (result ≡ end_in written.now) × (result < 131072) }
{
    u16_at(written, 1) + u16_at(written, 3)
}

// R, the number of rules.
pub fn rule_count(written: &[u8]) -> usize
    requires { written_header ≤ length_of written.now }
    ensures { (result ≡ count_in written.now) × (result < 65536) }
{
    u16_at(written, 5)
}

// S, the start symbol.
pub fn start(written: &[u8]) -> usize
    requires { written_header ≤ length_of written.now }
    ensures { (result ≡ start_in written.now) × (result < 65536) }
{
    u16_at(written, 7)
}

// Whether the `n` symbols at `at` are all below `end`.
fn all_below(written: &[u8], at: usize, n: usize, end: usize) -> bool
    requires { at + 2 * n ≤ length_of written.now }
    ensures { Decides result (AllBelow end written.now at n) }
{
    Symbols::new(written, at, n).all(|x| (x as usize) < end)
}

// Whether a rule stands at `at`.
fn rule_stands(written: &[u8], at: usize) -> bool
    requires { (written_header ≤ length_of written.now) × (at ≤ length_of written.now) }
    ensures { Decides result (RuleStands written.now at) }
{
    if written.len() - at < HEAD {
        return false;
    }
    let a = u16_at(written, at);
    let n = u16_at(written, at + 2);
    tokens(written) <= a
        && a < end(written)
        && n <= LONGEST
        && 2 * n <= written.len() - at - HEAD
        && all_below(written, at + HEAD, n, end(written))
}

// Where the rule behind the one at `at` begins.
pub fn next(written: &[u8], at: usize) -> usize
    requires { RuleStands written.now at }
    ensures { (result ≡ behind written.now at) × (result ≤ length_of written.now) }
{
    at + HEAD + 2 * u16_at(written, at + 2)
}

// Whether all rules stand, and the bytes end behind the last.
fn rules_stand(written: &[u8]) -> bool
    requires { written_header ≤ length_of written.now }
    ensures { Decides result (RulesStand written.now written_header (count_in written.now)) }
{
    let mut at = HEADER;
    for _rule in 0..rule_count(written) {
        if !rule_stands(written, at) {
            return false;
        }
        at = next(written, at);
    }
    at == written.len()
}

// Whether the bytes are of the form.
pub fn formed(written: &[u8]) -> bool
    ensures { Decides result (Formed written.now) }
{
    HEADER <= written.len()
        && written[0] == VERSION
        && tokens(written) <= start(written)
        && start(written) < end(written)
        && rules_stand(written)
}
