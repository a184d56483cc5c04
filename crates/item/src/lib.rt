// An item is three words of a lent slice: its origin, its rule, and the handle of its first symbol's node. The library tells, stores and
// compares items through this crate alone; elsewhere their words are only cleared, tested for 0, and lent on.
#![tactic(auto)]

ghost use Rattle.std.specs.Prelude.{◌≡◌, length, ltb};
ghost use Rattle.item.specs.Item.{HasPlace, origin_at, rule_at, handle_at, item_at, key_at, stored};

// An item: where it began, its rule, and the handle of its first symbol's node.
#[derive(Clone, Copy, PartialEq, Eq)]
pub struct Item {
    pub origin: u32,
    pub rule: u32,
    pub handle: u32,
}

// The words that an item takes.
pub const ITEM_WORDS: usize = 3;

// The origin of the item at place `p`.
pub fn origin(items: &[u32], p: usize) -> u32
    requires { HasPlace items.now p }
    ensures { result ≡ origin_at items.now p }
{
    items[ITEM_WORDS * p]
}

// The rule of the item at place `p`.
pub fn rule(items: &[u32], p: usize) -> u32
    requires { HasPlace items.now p }
    ensures { result ≡ rule_at items.now p }
{
    items[ITEM_WORDS * p + 1]
}

// The handle of the item at place `p`.
pub fn handle(items: &[u32], p: usize) -> u32
    requires { HasPlace items.now p }
    ensures { result ≡ handle_at items.now p }
{
    items[ITEM_WORDS * p + 2]
}

// The item at place `p`.
pub fn read(items: &[u32], p: usize) -> Item
    requires { HasPlace items.now p }
    ensures { result ≡ item_at items.now p }
{
    Item {
        origin: origin(items, p),
        rule: rule(items, p),
        handle: handle(items, p),
    }
}

// Stores an item at place `p`, and changes no other word.
pub fn write(items: &mut [u32], p: usize, item: Item)
    requires { HasPlace items.old p }
    ensures { items.new ≡ stored items.old p item }
{
    items[ITEM_WORDS * p] = item.origin;
    items[ITEM_WORDS * p + 1] = item.rule;
    items[ITEM_WORDS * p + 2] = item.handle;
}

// Whether the item at place `p` is greater than the one at place `q`: by origin, then by rule.
pub fn greater(items: &[u32], p: usize, q: usize) -> bool
    requires { HasPlace items.now p × HasPlace items.now q }
    ensures { result ≡ ltb (key_at items.now q) (key_at items.now p) }
{
    // Not `>` of pairs: that reads the rules where the origins differ too, and a heap's replay took 9 instructions in 100 more.
    let (p_origin, q_origin) = (origin(items, p), origin(items, q));
    p_origin > q_origin || p_origin == q_origin && rule(items, p) > rule(items, q)
}
