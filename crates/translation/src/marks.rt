// Marks, one for each symbol that two bytes can name.
ghost use Rattle.std.specs.Prelude.{◌≤◌, length as length_of};
ghost use Rattle.translation.specs.inner.Marks.{OnlyWithin};

// As many symbols as two bytes can name.
pub const MOST: usize = 65536;

// A mark for each.
pub type Marks = [bool; MOST];

// Marks the symbols from `from` up to `to`, and no others.
pub fn mark_within(marks: &mut [bool], from: usize, to: usize)
    requires { (from ≤ to) × (to ≤ length_of marks.old) }
    ensures { OnlyWithin from to marks.new }
{
    marks.fill(false);
    marks[from..to].fill(true);
}
