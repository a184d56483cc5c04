// Standard input is a grammar file, then two bytes a token. The answer is four lines, or one on a grammar that is refused.
#![tactic(auto)]

mod text;
mod tokens;

ghost use Rattle.std.specs.Prelude.{◌≡◌, ◌≤◌, length as length_of, take};
ghost use Rattle.io.specs.Counts.{IsPrefixLen};
ghost use Rattle.parse.specs.Words.{words_in, seen, Kept};
ghost use Rattle.programs.specs.Text.{text_room};
ghost use Rattle.driver.specs.Writes.{SaysFinished, Followed, Recognized, Answered, Written};

use parse::{State, View, Words};
use programs::header::{LONGEST, judged, read_grammar};
use programs::text::{ROOM, refusal};
use recognizer::Refusal;
use std::io::Read;
use tokens::read_tokens;

// The sets that are lent.
const SETS: usize = 256;

// The words of so many sets; items, queue and store at their largest. Crate compare has more sets: one place for both would be no plainer.
const ITEMS: usize = item::ITEM_WORDS * parse::room::ITEMS;

const STARTS: usize = SETS + 1;

const ROWS: usize = bits::WIDTH * SETS;

const QUEUE: usize = binary_heap::entry::ENTRY_WORDS * parse::room::QUEUED;

const STORE: usize = parse::room::UNITS;

// Whether a parse is finished. A refused report says no.
fn is_finished(file: &[u8], state: State, view: &View<'_, '_>) -> bool
    ensures { SaysFinished file.now state (seen view.now) result }
{
    matches!(recognizer::finished(file, state, view), Ok(Some(_)))
}

// Reads the tokens of a parse and writes the lines on what came of them; answers how long they are.
fn follow<R: Read>(
    from: &mut R,
    file: &[u8],
    state: State,
    words: &mut Words<'_>,
    out: &mut [u8],
) -> usize
    requires { text_room ≤ length_of out.old }
    ensures place { IsPrefixLen result out.new }
    ensures text { Followed file.now state (words_in words.old) (take result out.new) }
    ensures kept { Kept words.old words.new }
{
    let ran = read_tokens(from, file, state, words);
    let yes = is_finished(file, ran.state, &words.view());
    let stopped = ran.stopped.map_or(0, |why| why.number() as usize);
    text::report(out, ran.taken, stopped, yes, ran.state.set)
}

// Starts a parse and follows it; answers how long the lines are.
fn recognize<R: Read>(from: &mut R, file: &[u8], words: &mut Words<'_>, out: &mut [u8]) -> usize
    requires { text_room ≤ length_of out.old }
    ensures place { IsPrefixLen result out.new }
    ensures text { Recognized file.now (words_in words.old) (take result out.new) }
    ensures kept { Kept words.old words.new }
{
    let fresh = State {
        set: 0,
        items: 0,
        used: 0,
    };
    match recognizer::start(file, fresh, words) {
        Ok(state) => follow(from, file, state, words, out),
        Err(why) => refusal(out, why.number() as usize),
    }
}

// The same with the words that are lent.
fn recognize_whole<R: Read>(from: &mut R, file: &[u8], out: &mut [u8]) -> usize
    requires { text_room ≤ length_of out.old }
    ensures place { IsPrefixLen result out.new }
    ensures text { Answered file.now (take result out.new) }
{
    let mut items = [0u32; ITEMS];
    let mut starts = [0u32; STARTS];
    let mut rows = [0u64; ROWS];
    let mut queue = [0u32; QUEUE];
    let mut store = [0u16; STORE];
    let mut words = Words {
        items: &mut items,
        starts: &mut starts,
        rows: &mut rows,
        queue: &mut queue,
        store: &mut store,
    };
    recognize(from, file, &mut words, out)
}

// Writes what comes of the grammar in the bytes that came, and of the tokens behind it; answers how long that is.
fn answer<R: Read>(from: &mut R, bytes: &[u8], out: &mut [u8]) -> usize
    requires { text_room ≤ length_of out.old }
    ensures place { IsPrefixLen result out.new }
    ensures text { Written bytes.now (take result out.new) }
{
    match judged(bytes) {
        Ok(length) => recognize_whole(from, &bytes[..length], out),
        Err(fault) => refusal(out, Refusal::from(fault).number() as usize),
    }
}

fn main(rt: HostRuntime) {
    let mut from = rt.reader();
    let mut file = [0u8; LONGEST];
    let came = read_grammar(&mut from, &mut file);
    let mut out = [0u8; ROOM];
    let count = answer(&mut from, &file[..came], &mut out);
    if rt.write_all(&out[..count]).is_err() {
        let _ = rt.eprintln("driver: the output could not be written");
    }
}
