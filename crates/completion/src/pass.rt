// A completion pass: its pushes and writes, each refused where there is no place.
ghost use Rattle.std.specs.Prelude.{◌≡◌, ◌<◌};
ghost use Rattle.completion.specs.Pass.{store, enqueue, append};
ghost use Rattle.completion.specs.Lent.{pass_in, after, Kept};
ghost use Rattle.completion.specs.inner.Ready.{PassFits};

use binary_heap::entry::{ENTRY_WORDS, Entry};
use grammar::rules::Rules;
use item::Item;
use node::Node;

// The refusals: no place for an item, no place in the queue, no place for a node.
#[derive(Clone, Copy, PartialEq, Eq, Debug)]
pub enum Full {
    Items,
    Queue,
    Store,
}

// The rules and sets that it reads, the words that it writes, and how far it has come: the items stored so far, those of the sets included;
// the entries of the queue; the used units of the store. No invariant says what a pass rests on: `store` and `append` ask nothing of it.
#[derive(Drop)]
pub struct Pass<'a> {
    pub rules: &'a Rules,
    pub starts: &'a [u32],
    pub rows: &'a [u64],
    pub items: &'a mut [u32],
    pub queue: &'a mut [u32],
    pub store: &'a mut [u16],
    pub stored: usize,
    pub queued: usize,
    pub used: usize,
}

impl Pass<'_> {
    // Stores an item behind the others.
    pub fn store(&mut self, item: Item) -> Result<(), Full>
        ensures kept { Kept self.old self.new }
        ensures pass { after result self.new ≡ store item.origin item.rule item.handle (pass_in self.old) }
        ensures queue { self.new.queue.now ≡ self.old.queue.now }
    {
        if self.stored >= self.items.len() / item::ITEM_WORDS {
            return Err(Full::Items);
        }
        item::write(self.items, self.stored, item);
        self.stored += 1;
        Ok(())
    }

    // Queues the place of an item with a right factor.
    pub fn enqueue(&mut self, place: usize, right: u32) -> Result<(), Full>
        requires { PassFits (pass_in self.old) × (place < self.old.stored) }
        ensures kept { Kept self.old self.new }
        ensures pass { after result self.new ≡ enqueue place right (pass_in self.old) }
    {
        let capacity = self.queue.len() / ENTRY_WORDS;
        let queued = self.queued;
        // By itself, since `self.items` and `self.queue` are lent at once.
        let items = &mut *self.items;
        let entry = Entry {
            place: place as u32,
            right,
        };
        // Not `.ok_or(Full::Queue)?`: its proof did not close.
        match binary_heap::push(items, self.queue, capacity, queued, entry) {
            None => Err(Full::Queue),
            Some(n) => {
                self.queued = n;
                Ok(())
            }
        }
    }

    // Writes a node behind the used units.
    pub fn append(&mut self, node: Node) -> Result<(), Full>
        ensures kept { Kept self.old self.new }
        ensures pass { after result self.new ≡ append node (pass_in self.old) }
        ensures queue { self.new.queue.now ≡ self.old.queue.now }
    {
        // Not `.map_err(..)?`: its proof did not close.
        match node::write(self.store, self.used, node) {
            Ok(behind) => {
                self.used = behind;
                Ok(())
            }
            Err(_) => Err(Full::Store),
        }
    }
}
