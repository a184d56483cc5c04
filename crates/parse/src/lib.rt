// The words of a parse, and whether they are well formed.
#![tactic(auto)]

ghost use Rattle.std.specs.Prelude.{◌≡◌, ◌+◌, ◌/◌, ◌≤◌, length};
ghost use Rattle.bits.specs.Width.{row_words};
ghost use Rattle.grammar.specs.Accepted.{max_rules};
ghost use Rattle.grammar.specs.inner.Decoded.{rules_of};
ghost use Rattle.laws.specs.Decides.{Decides};
ghost use Rattle.node.specs.Writing.{usable_units};
ghost use Rattle.parse.specs.Words.{words_in, seen};
ghost use Rattle.parse.specs.WellFormed.{WellFormed};

use bits::WIDTH;
use grammar::rules::Rules;
use item::ITEM_WORDS;

pub mod nodes;
pub mod order;
pub mod padding;
pub mod room;
pub mod rows;
pub mod sets;
pub mod spare;

// A parse by value: the number of the latest set, the number of items in all sets, and the number of used units of the store.
#[derive(Clone, Copy, PartialEq, Eq, Debug)]
pub struct State {
    pub set: usize,
    pub items: usize,
    pub used: usize,
}

// The words that a host lends to a parse, to be changed.
#[derive(Drop)]
pub struct Words<'a> {
    pub items: &'a mut [u32],
    pub starts: &'a mut [u32],
    pub rows: &'a mut [u64],
    pub queue: &'a mut [u32],
    pub store: &'a mut [u16],
}

// The same words, to be read alone. The items have a life of their own, since `latest_set` hands out a part of them alone.
#[derive(Clone, Copy)]
pub struct View<'i, 'a> {
    pub items: &'i [u32],
    pub starts: &'a [u32],
    pub rows: &'a [u64],
    pub queue: &'a [u32],
    pub store: &'a [u16],
}

impl Words<'_> {
    // The words as they are now, to be read.
    pub fn view(&self) -> View<'_, '_>
        ensures { seen result ≡ words_in self.now }
    {
        View {
            items: self.items,
            starts: self.starts,
            rows: self.rows,
            queue: self.queue,
            store: self.store,
        }
    }
}

// Whether a state and words are well formed for rules over `symbols` symbols. The words are those within the capacities;
// whatever they and the state hold, no word past the capacities is read. The used units are read as nodes last.
pub fn well_formed(rules: &Rules, symbols: usize, state: State, view: &View<'_, '_>) -> bool
    requires { (rules.now.count ≤ max_rules)
        × ((length view.now.starts.now ≡ length view.now.rows.now / row_words + 1) × (length view.now.store.now ≤ usable_units)) }
    ensures { Decides result (WellFormed symbols (rules_of rules.now) state (seen view.now)) }
{
    let State {
        set,
        items: held,
        used,
    } = state;
    if set >= view.rows.len() / WIDTH
        || held > view.items.len() / ITEM_WORDS
        || used > view.store.len()
    {
        return false;
    }
    if !sets::starts_fit(state, view.starts) {
        return false;
    }
    if !sets::sets_fit(rules, set, view.items, view.starts) {
        return false;
    }
    if !rows::rows_below(symbols, set, view.rows) {
        return false;
    }
    if !spare::spare_clear(state, view) {
        return false;
    }
    nodes::store_fits(view.items, held, &view.store[..used])
}
