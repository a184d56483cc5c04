// The header of a grammar file.
ghost use Rattle.std.specs.Prelude.{◌≡◌, ◌+◌, ◌≤◌, ◌<◌, length};
ghost use Rattle.grammar.specs.File.{u16_at, u32_at, header_bytes, symbols_of, tokens_of, rule_count_of, Malformed};
ghost use Rattle.laws.specs.Decides.{Decides};

// The version.
pub const VERSION: usize = 1;

// The bytes before the rules, and those of a rule.
pub const HEADER: usize = 11;

pub const RULE: usize = 6;

// The big-endian number in the two bytes at `at`.
pub fn u16_at(file: &[u8], at: usize) -> usize
    requires { at + 2 ≤ length file.now }
    ensures { (result ≡ u16_at file.now at) × (result < 65536) }
{
    usize::from(u16::from_be_bytes([file[at], file[at + 1]]))
}

// The big-endian number in the four bytes at `at`.
pub fn u32_at(file: &[u8], at: usize) -> usize
    requires { at + 4 ≤ length file.now }
    ensures { result ≡ u32_at file.now at }
{
    u32::from_be_bytes([file[at], file[at + 1], file[at + 2], file[at + 3]]) as usize
}

// N, the number of symbols.
pub fn symbols(file: &[u8]) -> usize
    requires { header_bytes ≤ length file.now }
    ensures { (result ≡ symbols_of file.now) × (result < 65536) }
{
    u16_at(file, 5)
}

// T, the number of ordinary tokens.
pub fn tokens(file: &[u8]) -> usize
    requires { header_bytes ≤ length file.now }
    ensures { (result ≡ tokens_of file.now) × (result < 65536) }
{
    u16_at(file, 7)
}

// R, the number of rules.
pub fn rule_count(file: &[u8]) -> usize
    requires { header_bytes ≤ length file.now }
    ensures { (result ≡ rule_count_of file.now) × (result < 65536) }
{
    u16_at(file, 9)
}

// Whether the bytes are no grammar file at all.
pub fn malformed(file: &[u8]) -> bool
    ensures { Decides result (Malformed file.now) }
{
    file.len() < HEADER
        || usize::from(file[0]) != VERSION
        || u32_at(file, 1) != file.len()
        || file.len() != HEADER + RULE * rule_count(file)
}
