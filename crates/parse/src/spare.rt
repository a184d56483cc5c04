// All spare words are 0, and all spare units fillers.
ghost use Rattle.std.specs.Prelude.{◌+◌, ◌*◌, ◌≤◌, length};
ghost use Rattle.item.specs.Item.{item_words};
ghost use Rattle.bits.specs.Width.{row_words};
ghost use Rattle.laws.specs.Decides.{Decides};
ghost use Rattle.parse.specs.Words.{seen};
ghost use Rattle.parse.specs.inner.Parts.{SpareClear};

use crate::padding::is_spare;
use crate::{State, View};
use bits::WIDTH;
use item::ITEM_WORDS;

// Whether they are.
pub fn spare_clear(state: State, view: &View<'_, '_>) -> bool
    requires { (item_words * state.items ≤ length view.now.items.now) × (row_words * (state.set + 1) ≤ length view.now.rows.now) }
    ensures { Decides result (SpareClear state (seen view.now)) }
{
    if !is_spare(view.items, ITEM_WORDS * state.items) {
        return false;
    }
    if !is_spare(view.starts, state.set + 2) {
        return false;
    }
    if !is_spare(view.rows, WIDTH * (state.set + 1)) {
        return false;
    }
    if !is_spare(view.queue, 0) {
        return false;
    }
    is_spare(view.store, state.used)
}
