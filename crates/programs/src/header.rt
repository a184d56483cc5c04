// The grammar that the input begins with: what its header says, how much is read, and what all bytes that came say.
ghost use Rattle.std.specs.Prelude.{◌≤◌, length as length_of, take};
ghost use Rattle.io.specs.Counts.{IsPrefixLen};
ghost use Rattle.programs.specs.Header.{longest_file, Says, Judged, ReadTo};

use crate::reading::read_full;
use grammar::Fault;
use grammar::file::{HEADER, RULE, VERSION, rule_count, u32_at};
use grammar::limits::RULES;
use std::io::Read;

// The longest file that its header lets through.
pub const LONGEST: usize = HEADER + RULE * RULES;

// A header: the version, the length told, and then the number of rules. Answers the length of the whole file, or a refusal by these alone.
pub fn told(bytes: &[u8]) -> Result<usize, Fault>
    ensures { Says bytes.now result }
{
    if bytes.len() < HEADER || usize::from(bytes[0]) != VERSION {
        return Err(Fault::Malformed);
    }
    let count = rule_count(bytes);
    let length = HEADER + RULE * count;
    if u32_at(bytes, 1) != length {
        return Err(Fault::Malformed);
    }
    if count > RULES {
        return Err(Fault::Broken);
    }
    Ok(length)
}

// Reads the grammar: its header, and then as many bytes as that tells. Answers how many came.
pub fn read_grammar<R: Read>(from: &mut R, file: &mut [u8]) -> usize
    requires { longest_file ≤ length_of file.old }
    ensures place { IsPrefixLen result file.new }
    ensures far { ReadTo (take result file.new) }
{
    let first = read_full(from, &mut file[..HEADER]);
    match told(&file[..first]) {
        Ok(length) => HEADER + read_full(from, &mut file[HEADER..length]),
        Err(_) => first,
    }
}

// What the bytes that came say of the grammar: its length, or a refusal.
pub fn judged(bytes: &[u8]) -> Result<usize, Fault>
    ensures { Judged bytes.now result }
{
    let length = told(bytes)?;
    if bytes.len() < length {
        return Err(Fault::Malformed);
    }
    Ok(length)
}
