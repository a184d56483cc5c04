// Words in hexadecimal in a line of text.
ghost use Rattle.std.specs.Prelude.{◌<◌};

// The words of a line.
pub const WORDS: usize = 8;

// Each word of eight digits, with a blank or the line's end behind it.
pub const LINE: usize = 72;

const DIGITS: [u8; 16] = *b"0123456789abcdef";

// Of a byte that is no digit, 0: by hand, since the library takes no such byte.
fn digit(b: u8) -> u32
    ensures { result < 16 }
{
    match b {
        b'0'..=b'9' => (b - b'0') as u32,
        b'a'..=b'f' => (b - b'a') as u32 + 10,
        _ => 0,
    }
}

// The words of a line.
pub fn words_of(line: &[u8; LINE]) -> [u32; WORDS] {
    let mut words = [0; WORDS];
    for k in 0..WORDS {
        for i in 0..8 {
            words[k] = words[k] << 4 | digit(line[k * 9 + i]);
        }
    }
    words
}

// The line of words by hand: the digits go to fixed places of one slice, where `{:08x}` would print a word at a time.
pub fn line_of(words: [u32; WORDS]) -> [u8; LINE] {
    let mut line = [b' '; LINE];
    for k in 0..WORDS {
        for i in 0..8 {
            line[k * 9 + i] = DIGITS[(words[k] >> (28 - 4 * i)) as usize % 16];
        }
    }
    line[LINE - 1] = b'\n';
    line
}
