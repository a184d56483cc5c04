// Reads decimal numbers from text, for the programs that replay recorded answers.
#![tactic(auto)]

// A number, and the place behind its digits.
#[derive(Clone, Copy, PartialEq, Eq, Debug)]
pub struct Number {
    pub value: u64,
    pub next: usize,
}

// The number whose digits begin at `at` or at the first digit behind it. At the end of the text it is 0; digits past the largest u64
// are dropped.
pub fn read(text: &[u8], at: usize) -> Number {
    let begin = skip(text, at);
    let mut value: u64 = 0;
    for i in begin..text.len() {
        if !text[i].is_ascii_digit() {
            return Number { value, next: i };
        }
        value = with_digit(value, text[i]);
    }
    Number {
        value,
        next: begin.max(text.len()),
    }
}

// The place of the first digit at `at` or behind it, or the end.
fn skip(text: &[u8], at: usize) -> usize {
    for i in at..text.len() {
        if text[i].is_ascii_digit() {
            return i;
        }
    }
    at.max(text.len())
}

// The low four bits of a digit's byte are the digit.
fn with_digit(value: u64, byte: u8) -> u64 {
    let more = value
        .checked_mul(10)
        .and_then(|tens| tens.checked_add(u64::from(byte % 16)));
    more.unwrap_or(value)
}
