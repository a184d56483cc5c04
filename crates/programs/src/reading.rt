// A stream read into lent bytes.
ghost use Rattle.std.specs.Prelude.{take};
ghost use Rattle.std.specs.Io.KnownBytes.{Consumes};
ghost use Rattle.io.specs.Counts.{IsPrefixLen};

use std::io::Read;

// Reads until `buf` is full, the input ends or a read fails; answers how many bytes it put at the front of `buf`. A read that fails, also
// one that a signal interrupts, ends the input.
pub fn read_full<R: Read>(from: &mut R, buf: &mut [u8]) -> usize
    ensures place { IsPrefixLen result buf.new }
    ensures bytes { Consumes (R.remaining from.old) (R.remaining from.new) (take result buf.new) }
{
    let mut done = 0;
    // No count: each turn goes on by as many bytes as came.
    while done < buf.len() {
        match from.read(&mut buf[done..]) {
            Ok(0) | Err(_) => break,
            Ok(n) => done += n,
        }
    }
    done
}
