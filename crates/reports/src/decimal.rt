// Numbers in decimal. By hand: `io::decimal` is of u64 into 20 bytes of its own, and the library stands on no `io`.
ghost use Rattle.std.specs.Prelude.{◌≡◌, ◌+◌, ◌≤◌, ◌<◌, length};
ghost use Rattle.reports.specs.Decimal.{digit, decimal};
ghost use Rattle.reports.specs.inner.Lines.{most_digits, PutAt};

const BASE: usize = 10;

// How many digits `n` has.
pub fn digits(n: usize) -> usize
    ensures { (result ≡ length (decimal n)) × (result ≤ most_digits) }
{
    if n < BASE {
        return 1;
    }
    digits(n / BASE) + 1
}

// A digit as an ASCII code.
fn ascii(value: usize) -> u8
    requires { value < 10 }
    ensures { result ≡ digit value }
{
    b'0' + value as u8
}

// Puts `n` at `at`: the tens, if there are any, and behind them the last digit. Answers the place behind it, as `put` of text.rt does.
pub fn put_decimal(out: &mut [u8], at: usize, n: usize) -> usize
    requires { at + length (decimal n) ≤ length out.old }
    ensures { PutAt out.old at (decimal n) result out.new }
{
    if n < BASE {
        out[at] = ascii(n);
        return at + 1;
    }
    let last = put_decimal(out, at, n / BASE);
    out[last] = ascii(n % BASE);
    last + 1
}
