// The latest set as records, out of its plain words.
ghost use Rattle.std.specs.Prelude.{◌≡◌, ◌+◌, ◌*◌, ◌≤◌, length};
ghost use Rattle.parse.specs.Words.{seen};
ghost use Rattle.reports.specs.Answers.{filled_number, filled_count};
ghost use Rattle.host.specs.inner.Records.{record_words, set_words, record_at, filled, left_of, Fillable, Prepared};

use parse::{State, View};
use reports::{Record, Unfilled};

// The words of a record.
pub const RECORD_WORDS: usize = 5;

// The words of as many records as a set has at most.
pub const SET_WORDS: usize = 20480;

// The record whose words stand behind those of `i` records.
pub fn record_at(words: &[u32], i: usize) -> Record
    requires { record_words * i + record_words ≤ length words.now }
    ensures { result ≡ record_at words.now i }
{
    let at = RECORD_WORDS * i;
    Record {
        rule: words[at],
        left: words[at + 1],
        first: words[at + 2],
        second: words[at + 3],
        origin: words[at + 4],
    }
}

// Puts the first `n` records of the words into the front of a place.
pub fn fill(words: &[u32], n: usize, records: &mut [Record])
    requires { Fillable n words.now records.old }
    ensures { records.new ≡ filled words.now n records.old }
{
    for i in 0..n {
        records[i] = record_at(words, i);
    }
}

// All of a report of records but the filling: the plain words, for a place of `room` records. Answers how many to fill.
pub fn prepare(
    file: &[u8],
    state: State,
    view: &View<'_, '_>,
    room: usize,
    words: &mut [u32],
) -> Result<usize, Unfilled>
    requires { length words.old ≡ set_words }
    ensures { Prepared file.now state (seen view.now) room (filled_number result) (left_of result)
        (filled_count result) words.new }
{
    let records = reports::latest_words(file, state, view, words)? / RECORD_WORDS;
    if room < records {
        return Err(Unfilled::TooShort(records));
    }
    Ok(records)
}
