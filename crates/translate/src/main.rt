// Standard input is a written grammar. Standard output is its grammar file, or nothing where it is refused; a line on standard error says
// which.
#![tactic(auto)]

ghost use Rattle.std.specs.Prelude.{◌≡◌};
ghost use Rattle.io.specs.Counts.{IsPrefixLen};
ghost use Rattle.translate.specs.Lines.{line_of, file_of, Answered};

use programs::header::LONGEST;
use programs::reading::read_full;
use translation::{Refusal, Translated, form};

// One byte more than a written grammar can have, so that a longer input is seen to be none.
const INPUT: usize = form::HEADER + 65535 * (form::HEAD + 2 * form::LONGEST) + 1;

// What is written: so many bytes of the file, and the line on standard error.
#[derive(Clone, Copy)]
struct Said {
    file: usize,
    line: &'static [u8],
}

// The line on an answer. Whole lines, and not `Refusal::number` in digits: `line` is a slice that no buffer holds.
fn line_on(told: Result<Translated, Refusal>) -> &'static [u8]
    ensures { result.now ≡ line_of told }
{
    match told {
        Ok(translated) => {
            if translated.empty {
                b"empty yes\n"
            } else {
                b"empty no\n"
            }
        }
        Err(Refusal::Malformed) => b"written 16\n",
        Err(Refusal::Circular) => b"written 17\n",
        Err(Refusal::Barren) => b"written 18\n",
        Err(Refusal::Unreachable) => b"written 19\n",
        Err(Refusal::NoSentence) => b"written 20\n",
        Err(Refusal::NoRoom) => b"written 21\n",
    }
}

// The bytes of the file; none where it is refused.
fn file_length(told: Result<Translated, Refusal>) -> usize
    ensures { result ≡ file_of told }
{
    told.map_or(0, |translated| translated.length)
}

// Translates the bytes that came into `file`.
fn answer(written: &[u8], file: &mut [u8]) -> Said
    ensures place { IsPrefixLen result.file file.new }
    ensures answered { Answered written.now file.old file.new result.file result.line.now }
{
    let told = translation::translate(written, file);
    Said {
        file: file_length(told),
        line: line_on(told),
    }
}

fn main(rt: HostRuntime) {
    let mut written = [0u8; INPUT];
    let came = read_full(&mut rt.reader(), &mut written);
    let mut file = [0u8; LONGEST];
    let said = answer(&written[..came], &mut file);
    if rt.write_all(&file[..said.file]).is_err() {
        let _ = rt.eprintln("translate: the output could not be written");
    }
    let _ = rt.stderr().write_all(said.line);
}
