// The search for a pair of equal rules.
ghost use Rattle.std.specs.Prelude.{◌≡◌, ◌≤◌, ◌<◌};
ghost use Rattle.laws.specs.Decides.{Decides};
ghost use Rattle.grammar.specs.Accepted.{max_rules};
ghost use Rattle.grammar.specs.inner.Checking.{Same, EqualPair};

use crate::rules::Rules;

// Whether the rules `q` and `r` are equal.
// By hand, word by word: `==` of the two rules' slices would need to say where in the words they lie, and be no plainer.
fn same(rules: &Rules, q: usize, r: usize) -> bool
    requires { (q < max_rules) × (r < max_rules) }
    ensures { Decides result (Same rules.now.words q r) }
{
    rules.left(q) == rules.left(r)
        && rules.first(q) == rules.first(r)
        && rules.second(q) == rules.second(r)
}

// Whether two rules are equal: every pair is looked at, up to the first that is.
// Not inlined: its inner loop is all that a check of many rules does, and by itself it is laid out as one (docs/DESIGN-PASS.md, "Loops by themselves").
#[inline(never)]
pub fn equal_pair(rules: &Rules) -> bool
    requires { rules.now.count ≤ max_rules }
    ensures { Decides result (EqualPair rules.now.words rules.now.count) }
{
    for r in 0..rules.count {
        for q in 0..r {
            if same(rules, q, r) {
                return true;
            }
        }
    }
    false
}
