// The checks that a call on a parse makes first, all but a start.
ghost use Rattle.parse.specs.Words.{seen};
ghost use Rattle.recognizer.specs.inner.Opening.{Readies};

use crate::Refusal;
use crate::within::well_formed;
use grammar::Grammar;
use parse::{State, View};

// Checks a file, and a state in the words within the capacities; leaves an accepted file's grammar in `grammar`.
// `grammar` is lent as in `grammar::read`.
pub fn ready(
    file: &[u8],
    state: State,
    view: &View<'_, '_>,
    grammar: &mut Grammar,
) -> Result<(), Refusal>
    ensures { Readies file.now state (seen view.now) grammar.new result }
{
    grammar::read(file, grammar)?;
    if !well_formed(grammar, state, view) {
        return Err(Refusal::IllFormed);
    }
    Ok(())
}
