// Standard input is a grammar file, then two bytes a token, at most 32 tokens. Both engines read every beginning of them; the answer is where they
// first part, or one line on a grammar or on tokens that are refused.
#![tactic(auto)]

mod beginnings;
mod engines;
mod text;

ghost use Rattle.std.specs.Prelude.{◌≤◌, length, take};
ghost use Rattle.io.specs.Counts.{IsPrefixLen};
ghost use Rattle.grammar.specs.File.{grammar_of};
ghost use Rattle.demands.specs.Calls.{Checked as Sound};
ghost use Rattle.programs.specs.Text.{text_room};
ghost use Rattle.compare.specs.Writes.{token_bytes, ComparesBytes, Answered, ReadBehind, Written, AgreesIn};

use beginnings::compare;
use engines::TOKENS;
use programs::header::{LONGEST, judged, read_grammar};
use programs::reading::read_full;
use programs::text::{ROOM, refusal};
use programs::tokens::decode;
use recognizer::Refusal;
use std::io::Read;

// One byte more than the most tokens have, so that more are seen.
const BYTES: usize = 2 * TOKENS + 1;

// Reads the tokens behind a grammar whose header is not refused; answers how many bytes came.
fn read_tokens<R: Read>(from: &mut R, bytes: &[u8], rest: &mut [u8]) -> usize
    ensures place { IsPrefixLen result rest.new }
    ensures far { ReadBehind bytes.now result }
{
    match judged(bytes) {
        Ok(_) => read_full(from, rest),
        Err(_) => 0,
    }
}

// Writes the lines on tokens that are not too many; answers how long they are.
fn compare_bytes(file: &[u8], rest: &[u8], out: &mut [u8]) -> usize
    requires { Sound file.now (grammar_of file.now) × (length rest.now ≤ token_bytes) × (text_room ≤ length out.old) }
    ensures place { IsPrefixLen result out.new }
    ensures text { ComparesBytes file.now rest.now (take result out.new) }
{
    let mut tokens = [0u16; TOKENS];
    let count = decode(rest, &mut tokens);
    text::report(out, compare(file, &tokens[..count]))
}

// Writes the line on a file that is no grammar, or the lines on the tokens behind it; answers how long they are.
fn check_and_compare(file: &[u8], rest: &[u8], out: &mut [u8]) -> usize
    requires { text_room ≤ length out.old }
    ensures place { IsPrefixLen result out.new }
    ensures text { Answered file.now rest.now (take result out.new) }
{
    if let Err(fault) = grammar::check(file) {
        return refusal(out, Refusal::from(fault).number() as usize);
    }
    if 2 * TOKENS < rest.len() {
        return text::too_many(out);
    }
    compare_bytes(file, rest, out)
}

// Writes what comes of the grammar in the bytes that came, and of those behind it; answers how long that is.
fn answer(bytes: &[u8], rest: &[u8], out: &mut [u8]) -> usize
    requires { text_room ≤ length out.old }
    ensures place { IsPrefixLen result out.new }
    ensures text { Written bytes.now rest.now (take result out.new) }
    ensures agreement { AgreesIn (take result out.new) }
{
    match judged(bytes) {
        Ok(length) => check_and_compare(&bytes[..length], rest, out),
        Err(fault) => refusal(out, Refusal::from(fault).number() as usize),
    }
}

fn main(rt: HostRuntime) {
    let mut from = rt.reader();
    let mut file = [0u8; LONGEST];
    let came = read_grammar(&mut from, &mut file);
    let mut rest = [0u8; BYTES];
    let more = read_tokens(&mut from, &file[..came], &mut rest);
    let mut out = [0u8; ROOM];
    let count = answer(&file[..came], &rest[..more], &mut out);
    if rt.write_all(&out[..count]).is_err() {
        let _ = rt.eprintln("compare: the output could not be written");
    }
}
