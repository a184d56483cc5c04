// Step 2 of a position: each of its kinds that is predicted gets its node and is completed with the latest set.
ghost use Rattle.std.specs.Prelude.{◌≡◌, ◌*◌, ◌<◌};
ghost use Rattle.laws.specs.Bits.{word_bits};
ghost use Rattle.bits.specs.Width.{row_words};
ghost use Rattle.completion.specs.Lent.{its_rules, pass_in, after, Kept};
ghost use Rattle.completion.specs.Scan.{scan, scan_all};
ghost use Rattle.completion.specs.inner.Ready.{Reads, IsSet, PassFits, UnitsFit, Charted, KindsFit};

use crate::Pair;
use crate::pass::{Full, Pass};
use node::Node;

impl Pass<'_> {
    // Writes the node of a kind and completes set `e` and it: nothing if it is not predicted there.
    fn scan(&mut self, kind: usize, e: usize) -> Result<(), Full>
        requires rules_fit { Reads self.old }
        requires set { IsSet self.old.starts.now e × (kind < word_bits * row_words) }
        requires pass_fits { PassFits (pass_in self.old) × UnitsFit (pass_in self.old)
            × Charted (its_rules self.old) self.old.starts.now (pass_in self.old) }
        ensures kept { Kept self.old self.new }
        ensures pass { after result self.new ≡ scan (its_rules self.old) self.old.starts.now self.old.rows.now e kind (pass_in self.old) }
    {
        if !bits::has_at(self.rows, e, kind) {
            return Ok(());
        }
        let pair = Pair {
            set: e,
            symbol: kind,
            link: self.used as u32,
        };
        self.append(Node::Evaluated {
            symbol: kind as u32,
        })?;
        self.complete(pair)
    }

    // The same of each kind of a position, in their order.
    pub fn scan_all(&mut self, kinds: &[u16], e: usize) -> Result<(), Full>
        requires rules_fit { Reads self.old }
        requires set { IsSet self.old.starts.now e × KindsFit kinds.now }
        requires pass_fits { PassFits (pass_in self.old) × UnitsFit (pass_in self.old)
            × Charted (its_rules self.old) self.old.starts.now (pass_in self.old) }
        ensures kept { Kept self.old self.new }
        ensures pass { after result self.new
            ≡ scan_all (its_rules self.old) self.old.starts.now self.old.rows.now e kinds.now (pass_in self.old) }
    {
        for &kind in kinds {
            self.scan(usize::from(kind), e)?;
        }
        Ok(())
    }
}
