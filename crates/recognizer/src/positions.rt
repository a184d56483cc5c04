// What a run reads, position by position.
ghost use Rattle.std.specs.Prelude.{List, ℕ};
ghost use Rattle.earley.specs.Positions as earley;
ghost use Rattle.recognizer.specs.inner.Reading.{Nexts, tokens_left, counted_left};

// Positions that are read one by one.
// No `Iterator`: the clauses of a run need `left`, the kinds themselves, and an iterator's ghost members have no such list.
pub trait Positions<'a> {
    // The kinds of each that is left.
    ghost left: { Self → earley.Positions };

    // The kinds of the next, and `None` behind the last.
    fn next(&mut self) -> Option<&'a [u16]>
        ensures { Nexts result (left self.old) (left self.new) };
}

// Tokens, each a position of one kind.
#[derive(Clone, Copy)]
pub struct Tokens<'a>(pub &'a [u16]);

impl<'a> Positions<'a> for Tokens<'a> {
    ghost left = { tokens_left };

    fn next(&mut self) -> Option<&'a [u16]> {
        if self.0.is_empty() {
            return None;
        }
        let (kinds, rest) = self.0.split_at(1);
        self.0 = rest;
        Some(kinds)
    }
}

// How many kinds, then the kinds, position by position. One that is cut off has no kind.
#[derive(Clone, Copy)]
pub struct Counted<'a>(pub &'a [u16]);

impl<'a> Positions<'a> for Counted<'a> {
    ghost left = { counted_left };

    fn next(&mut self) -> Option<&'a [u16]> {
        if self.0.is_empty() {
            return None;
        }
        let many = usize::from(self.0[0]);
        let behind = &self.0[1..];
        if many > behind.len() {
            self.0 = &[];
            return Some(&[]);
        }
        let (kinds, rest) = behind.split_at(many);
        self.0 = rest;
        Some(kinds)
    }
}
