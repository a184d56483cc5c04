// Steps 2 and 3: completing pairs of a set and a symbol.
#![tactic(auto)]

pub mod medial;
pub mod pass;
pub mod predictions;
pub mod scan;
pub mod sums;

ghost use Rattle.std.specs.Prelude.{◌≡◌, ◌*◌, ◌<◌};
ghost use Rattle.laws.specs.Bits.{word_bits};
ghost use Rattle.bits.specs.Width.{row_words};
ghost use Rattle.completion.specs.Lent.{its_rules, pass_in, after, Kept};
ghost use Rattle.completion.specs.inner.Ready.{Reads, Sound, IsSet};
ghost use Rattle.completion.specs.Complete.{complete};

use crate::pass::{Full, Pass};

// A set and a symbol, and the handle of the symbol's node.
#[derive(Clone, Copy)]
pub struct Pair {
    pub set: usize,
    pub symbol: usize,
    pub link: u32,
}

impl Pass<'_> {
    // Completes a pair: nothing if the symbol is not predicted at the set.
    pub fn complete(&mut self, pair: Pair) -> Result<(), Full>
        requires rules_fit { Reads self.old }
        requires set { IsSet self.old.starts.now pair.set × (pair.symbol < word_bits * row_words) }
        requires pass_fits { Sound self.old }
        ensures kept { Kept self.old self.new }
        ensures pass { after result self.new ≡ complete (its_rules self.old) self.old.starts.now self.old.rows.now
            pair.set pair.symbol pair.link (pass_in self.old) }
    {
        if !bits::has_at(self.rows, pair.set, pair.symbol) {
            return Ok(());
        }
        self.complete_medial_items(pair)?;
        self.complete_unary_predictions(pair)?;
        self.complete_binary_predictions(pair)
    }
}
