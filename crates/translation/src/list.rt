// The list of rules, each once.
ghost use Rattle.std.specs.Prelude.{◌≡◌, [], ◌∷◌, ◌<◌, length as length_of};
ghost use Rattle.grammar.specs.Accepted.{max_rules};
ghost use Rattle.grammar.specs.inner.Decoded.{all_words, rules_of as listed};
ghost use Rattle.written.specs.Split as spec;
ghost use Rattle.written.specs.Translation.{equal, has_rule};
ghost use Rattle.translation.specs.inner.Lists.{rule_in, Lists};

use grammar::limits::RULES;
use grammar::rules::{NONE, Rules};

// The rules listed so far: fewer than a file can have, which has rule 0 besides.
#[derive(Drop)]
pub struct RuleList {
    pub rules: Rules,
    ghost long: { length_of rules.words ≡ all_words },
    ghost few: { rules.count < max_rules },
}

// There is no room for another rule.
#[derive(Clone, Copy, PartialEq, Eq, Debug)]
pub struct Full;

// Whether rule `r` is a ::= b c. A rule goes as three numbers: callers would write `Rule { left: a, first: b, second: NONE }` for
// `a, b, NONE`, and `Rules`, where the words stand one by one, would take it apart again.
fn is_rule(rules: &Rules, r: usize, a: usize, b: usize, c: usize) -> bool
    requires { r < max_rules }
    ensures { result ≡ equal (rule_in rules.now.words r) (spec.rule a b c) }
{
    rules.left(r) == a && rules.first(r) == b && rules.second(r) == c
}

impl RuleList {
    // No rule.
    pub fn new() -> RuleList
        ensures { listed result.rules ≡ [] }
    {
        RuleList {
            rules: Rules::new(),
        }
    }

    // Whether one of the rules is a ::= b c.
    fn has(&self, a: usize, b: usize, c: usize) -> bool
        ensures { result ≡ has_rule (listed self.now.rules) (spec.rule a b c) }
    {
        for r in 0..self.rules.count {
            if is_rule(&self.rules, r, a, b, c) {
                return true;
            }
        }
        false
    }

    // One rule more, unless the list has it.
    pub fn add(&mut self, a: usize, b: usize, c: usize) -> Result<(), Full>
        requires { (a < 65536) × (b < 65536) × (c < 65536) }
        ensures { Lists (listed self.old.rules) result (listed self.new.rules) (spec.rule a b c ∷ []) }
    {
        if self.has(a, b, c) {
            return Ok(());
        }
        if RULES <= self.rules.count + 1 {
            return Err(Full);
        }
        self.rules.push(a, b, c);
        Ok(())
    }

    // The same where `yes` says so. No `if` at the callers: `given` in the specs is this step too, and its two cases are proved once.
    fn add_if(&mut self, yes: bool, a: usize, b: usize, c: usize) -> Result<(), Full>
        requires { (a < 65536) × (b < 65536) × (c < 65536) }
        ensures { Lists (listed self.old.rules) result (listed self.new.rules) (spec.given yes (spec.rule a b c ∷ [])) }
    {
        if !yes {
            return Ok(());
        }
        self.add(a, b, c)
    }

    // A pair's rules more: a ::= b c; a ::= b where c may be empty; a ::= c where b may be empty.
    pub fn pair(
        &mut self,
        a: usize,
        b: usize,
        c: usize,
        b_empty: bool,
        c_empty: bool,
    ) -> Result<(), Full>
        requires { (a < 65536) × (b < 65536) × (c < 65536) }
        ensures { Lists (listed self.old.rules) result (listed self.new.rules) (spec.pair a b c b_empty c_empty) }
    {
        self.add(a, b, c)?;
        self.add_if(c_empty, a, b, NONE)?;
        self.add_if(b_empty, a, c, NONE)
    }
}
