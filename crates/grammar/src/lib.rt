// The grammar file, version 1: its header, its rules decoded into words, and its check.
#![tactic(auto)]

ghost use Rattle.std.specs.Prelude.{◌≡◌, replicate};
ghost use Rattle.laws.specs.Decides.{Decides};
ghost use Rattle.grammar.specs.Accepted as asked;
ghost use Rattle.grammar.specs.Answers.{Verdict, number_of};
ghost use Rattle.grammar.specs.inner.Checking.{Sized};
ghost use Rattle.grammar.specs.inner.Decoded.{all_words, decoded, Decodes};

pub mod chains;
mod conditions;
pub mod file;
pub mod limits;
mod marked;
mod pairs;
mod productive;
mod reachable;
pub mod rules;

use crate::conditions::{ruled, sized, wraps};
use crate::file::{malformed, rule_count, symbols, tokens};
use crate::pairs::equal_pair;
use crate::productive::all_productive;
use crate::reachable::all_reachable;
use crate::rules::{Rules, decode};

// Why a file is refused: its bytes are no grammar file, or its grammar breaks a rule.
#[derive(Clone, Copy, PartialEq, Eq, Debug)]
pub enum Fault {
    Malformed,
    Broken,
}

// The rules, N, the number of symbols, and T, the number of ordinary tokens.
#[derive(Clone, Copy)]
pub struct Grammar {
    pub rules: Rules,
    pub symbols: usize,
    pub tokens: usize,
}

impl Grammar {
    // No rule, no symbol and no token.
    pub fn new() -> Grammar
        ensures { (result.rules.words ≡ replicate all_words 0) × (result.rules.count ≡ 0) × (result.symbols ≡ 0) × (result.tokens ≡ 0) }
    {
        Grammar {
            rules: Rules::new(),
            symbols: 0,
            tokens: 0,
        }
    }
}

// Whether the decoded rules are a grammar as is asked for.
fn accepted(grammar: &Grammar) -> bool
    requires { Sized grammar.now.symbols grammar.now.tokens grammar.now.rules.count }
    ensures { Decides result (asked.Accepted (decoded grammar.now)) }
{
    wraps(grammar)
        && ruled(grammar)
        && !equal_pair(&grammar.rules)
        && all_productive(grammar)
        && all_reachable(grammar)
}

// The check of any bytes. The rules of an accepted file are left in `grammar`, linked, so that no call decodes its file again.
// Lent, and no value of the answer: the clause `decoded` says of a refusal that the lent grammar stays as it was.
pub fn read(file: &[u8], grammar: &mut Grammar) -> Result<(), Fault>
    ensures verdict { Verdict file.now (number_of result) }
    ensures decoded { Decodes file.now (number_of result) grammar.old grammar.new }
{
    if malformed(file) {
        return Err(Fault::Malformed);
    }
    if !sized(symbols(file), tokens(file), rule_count(file)) {
        return Err(Fault::Broken);
    }
    let found = decode(file);
    if !accepted(&found) {
        return Err(Fault::Broken);
    }
    *grammar = found;
    grammar.rules.link();
    Ok(())
}

// The check alone.
pub fn check(file: &[u8]) -> Result<(), Fault>
    ensures { Verdict file.now (number_of result) }
{
    let mut grammar = Grammar::new();
    read(file, &mut grammar)
}
