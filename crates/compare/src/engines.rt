// The two engines on one token string.
ghost use Rattle.std.specs.Prelude.{◌≤◌, ◌<◌, length};
ghost use Rattle.grammar.specs.File.{grammar_of};
ghost use Rattle.parse.specs.Words.{set_room, words_in, seen, Kept};
ghost use Rattle.recognizer.specs.Answers.{stop_number};
ghost use Rattle.demands.specs.Calls.{Checked};
ghost use Rattle.agreement.specs.Compared.{Plain};
ghost use Rattle.compare.specs.Engines.{most_tokens, SaysAll, Follows, Reads, MainSays};

use parse::{State, View, Words};
use recognizer::Refusal;

// The most tokens that are compared.
pub const TOKENS: usize = 32;

// The words of a parse, each capacity at its largest.
const ITEMS: usize = item::ITEM_WORDS * parse::room::ITEMS;

const STARTS: usize = parse::room::SETS + 1;

const ROWS: usize = bits::WIDTH * parse::room::SETS;

const QUEUE: usize = binary_heap::entry::ENTRY_WORDS * parse::room::QUEUED;

const STORE: usize = parse::room::UNITS;

// The words of the plain engine's table: a row for each stretch.
const TABLE: usize = bits::WIDTH * (TOKENS * (TOKENS + 1) / 2);

// What the main engine makes of a token string: its refusal, where there is one, and whether all tokens are taken and finished.
#[derive(Clone, Copy)]
pub struct Said {
    pub stopped: Option<Refusal>,
    pub yes: bool,
}

// Whether a parse is finished, where `all` tells whether its tokens were all taken.
fn is_sentence(file: &[u8], state: State, view: &View<'_, '_>, all: bool) -> bool
    ensures { SaysAll file.now state (seen view.now) all result }
{
    matches!(recognizer::finished(file, state, view), Ok(Some(_))) && all
}

// Runs the tokens behind a start.
fn follow(file: &[u8], state: State, words: &mut Words<'_>, tokens: &[u16]) -> Said
    ensures says { Follows file.now state (words_in words.old) tokens.now (stop_number result.stopped) result.yes }
    ensures kept { Kept words.old words.new }
{
    let ran = recognizer::run(file, state, words, tokens);
    let all = ran.taken == tokens.len();
    let yes = is_sentence(file, ran.state, &words.view(), all);
    Said {
        stopped: ran.stopped,
        yes,
    }
}

// Starts a parse and runs the tokens.
fn read(file: &[u8], words: &mut Words<'_>, tokens: &[u16]) -> Said
    requires { Checked file.now (grammar_of file.now) × (0 < set_room (words_in words.old)) }
    ensures says { Reads file.now (words_in words.old) tokens.now (stop_number result.stopped) result.yes }
    ensures kept { Kept words.old words.new }
{
    let fresh = State {
        set: 0,
        items: 0,
        used: 0,
    };
    let started = recognizer::start(file, fresh, words).unwrap();
    follow(file, started, words, tokens)
}

// The main engine.
pub fn main_says(file: &[u8], tokens: &[u16]) -> Said
    requires { Checked file.now (grammar_of file.now) }
    ensures { MainSays file.now tokens.now (stop_number result.stopped) result.yes }
{
    let mut items = [0u32; ITEMS];
    let mut starts = [0u32; STARTS];
    let mut rows = [0u64; ROWS];
    let mut queue = [0u32; QUEUE];
    let mut store = [0u16; STORE];
    let mut words = Words {
        items: &mut items,
        starts: &mut starts,
        rows: &mut rows,
        queue: &mut queue,
        store: &mut store,
    };
    read(file, &mut words, tokens)
}

// The plain engine.
pub fn plain_says(file: &[u8], tokens: &[u16]) -> bool
    requires { length tokens.now ≤ most_tokens }
    ensures { Plain file.now tokens.now result }
{
    let mut table = [0u64; TABLE];
    plain::plain(file, tokens, &mut table).is_ok_and(|told| told.yes)
}
