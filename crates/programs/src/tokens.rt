// Tokens, two bytes each, the high one first.
ghost use Rattle.std.specs.Prelude.{◌≡◌, [], ◌∷◌, ◌*◌, ◌≤◌, ◌<◌, length, take};
ghost use Rattle.io.specs.Counts.{IsPrefixLen};
ghost use Rattle.programs.specs.Tokens.{tokens_of};

// A token that no grammar has.
const FOREIGN: u16 = 65535;

// The token that two bytes say, or a lone one.
fn token(bytes: &[u8]) -> u16
    requires { (0 < length bytes.now) × (length bytes.now ≤ 2) }
    ensures { tokens_of bytes.now ≡ result ∷ [] }
{
    match *bytes {
        [high, low] => u16::from_be_bytes([high, low]),
        _ => FOREIGN,
    }
}

// The tokens that bytes say, a lone last byte one that no grammar has; answers how many.
pub fn decode(bytes: &[u8], words: &mut [u16]) -> usize
    requires { length bytes.now ≤ 2 * length words.old }
    ensures place { IsPrefixLen result words.new }
    ensures said { take result words.new ≡ tokens_of bytes.now }
{
    for (i, pair) in bytes.chunks(2).enumerate() {
        words[i] = token(pair);
    }
    bytes.len().div_ceil(2)
}
