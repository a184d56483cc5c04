// The lines of the driver, written into lent bytes.
ghost use Rattle.std.specs.Prelude.{◌≡◌, ◌++◌, ◌+◌, ◌≤◌, length, take};
ghost use Rattle.io.specs.Counts.{IsPrefixLen};
ghost use Rattle.programs.specs.Text.{text_room};
ghost use Rattle.driver.specs.Text.{Report, finished_line};

use programs::text::{STOPPED, put, put_line};

// The heads of the lines.
const READ: [u8; 5] = *b"read ";

const SET: [u8; 4] = *b"set ";

// The lines that have no number.
const YES: [u8; 13] = *b"finished yes\n";

const NO: [u8; 12] = *b"finished no\n";

// The line on a sentence, at `at`; answers the place behind it, as `programs::text::put` does.
fn put_finished(out: &mut [u8], at: usize, yes: bool) -> usize
    requires { at + 13 ≤ length out.old }
    ensures place { result ≤ at + 13 }
    ensures text { take result out.new ≡ take at out.old ++ finished_line yes }
{
    if yes {
        put(out, at, &YES)
    } else {
        put(out, at, &NO)
    }
}

// The four lines on a parse; answers how long they are.
pub fn report(out: &mut [u8], taken: usize, stopped: usize, yes: bool, set: usize) -> usize
    requires { text_room ≤ length out.old }
    ensures place { IsPrefixLen result out.new }
    ensures text { Report taken stopped yes set (take result out.new) }
{
    let first = put_line(out, 0, &READ, taken);
    let second = put_line(out, first, &STOPPED, stopped);
    let third = put_finished(out, second, yes);
    put_line(out, third, &SET, set)
}
