// Lines of text, written into lent bytes.
ghost use Rattle.std.specs.Prelude.{◌≡◌, [], ◌++◌, ◌+◌, ◌≤◌, ◌<◌, length, take};
ghost use Rattle.io.specs.Counts.{IsPrefixLen};
ghost use Rattle.programs.specs.Text.{Line, grammar_head, text_room, number_room};

// The heads of lines that more than one program has.
pub const STOPPED: [u8; 8] = *b"stopped ";

const GRAMMAR: [u8; 8] = *b"grammar ";

// Room for every text of a program: the heads, and three numbers of up to twenty digits with their line ends.
pub const ROOM: usize = 128;

// Copies bytes to `at`; answers the place behind them. (A struct of lent bytes and a place, for two values, would be no plainer.)
// Crate reports has this too: it is of the library, which stands on no crate of the programs.
pub fn put(out: &mut [u8], at: usize, bytes: &[u8]) -> usize
    requires { at + length bytes.now ≤ length out.old }
    ensures place { result ≡ at + length bytes.now }
    ensures text { take result out.new ≡ take at out.old ++ bytes.now }
{
    let end = at + bytes.len();
    out[at..end].copy_from_slice(bytes);
    end
}

// A line of a head and a number, at `at`; answers the place behind it.
pub fn put_line(out: &mut [u8], at: usize, head: &[u8], number: usize) -> usize
    requires { at + length head.now + number_room ≤ length out.old }
    ensures place { result ≤ at + length head.now + number_room }
    ensures text { Line (take at out.old) head.now number (take result out.new) }
{
    let mut digits = [0u8; 20];
    let count = io::decimal(number as u64, &mut digits);
    let from = put(out, at, head);
    let to = put(out, from, &digits[..count]);
    put(out, to, b"\n")
}

// The line on a grammar that is refused.
pub fn refusal(out: &mut [u8], number: usize) -> usize
    requires { text_room ≤ length out.old }
    ensures place { IsPrefixLen result out.new }
    ensures text { Line [] grammar_head number (take result out.new) }
{
    put_line(out, 0, &GRAMMAR, number)
}
