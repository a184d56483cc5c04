// What 18 and 19 ask of every nonterminal. The marks are lent for the work alone.
ghost use Rattle.std.specs.Prelude.{◌≤◌, ◌<◌};
ghost use Rattle.written.specs.Form.{end_in};
ghost use Rattle.translation.specs.inner.Marks.{most_symbols};
ghost use Rattle.translation.specs.Conditions.{SaysFruitful, SaysReachable};

use crate::grow::fruitful;
use crate::marks::{MOST, Marks};
use crate::reach::reachable;
use crate::rules::Written;

// Whether every nonterminal derives a token string. Of one that two bytes cannot name there is no rule.
pub fn all_fruitful(written: &Written<'_>, marks: &mut Marks) -> bool
    ensures { SaysFruitful written.now result }
{
    let all = written.end();
    if MOST < all {
        return false;
    }
    fruitful(written, marks);
    !marks[written.tokens()..all].contains(&false)
}

// Whether every nonterminal is reachable, where two bytes can name them all.
pub fn all_reachable(written: &Written<'_>, marks: &mut Marks) -> bool
    requires { end_in written.now ≤ most_symbols }
    ensures { SaysReachable written.now result }
{
    reachable(written, marks);
    !marks[written.tokens()..written.end()].contains(&false)
}
