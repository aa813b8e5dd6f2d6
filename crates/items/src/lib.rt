// The reader of the items of a pattern: the refusals 10 to 15, or the items; and what lists items, a list of them or two arrays.
#![tactic(auto)]

ghost use Rattle.std.specs.Prelude.{◌≡◌, List, ◌≤◌, ◌<◌, IfOk, length, get_or};
ghost use Rattle.expressions.specs.declared.Item.{Item};
ghost use Rattle.expressions.specs.declared.Item.TheVariants.{Empty as empty};
ghost use Rattle.refusals.specs.Numbers.{refusal_of};
ghost use Rattle.item.specs.Faults.{item_of};
ghost use Rattle.items.specs.Refusals.{read, items_in, items_refusal};
ghost use Rattle.items.specs.Tables.{items_on, Scanned};

use arrayvec::ArrayVec;
use expressions::Item;
use refusals::Refusal;

// The items of a pattern, in fixed memory.
pub type Items = ArrayVec<Item, 64>;

// The first items: where the next begins, how many operands they leave, and themselves.
#[derive(Drop)]
struct Scan {
    at: usize,
    depth: usize,
    items: Items,
}

// The first `count` items: refusals 10 to 13.
fn scan_items(rest: &[u8], alphabet: u32, count: usize) -> Result<Scan, Refusal>
    requires { count ≤ 64 }
    ensures { Scanned (read rest.now alphabet count) result }
{
    let mut items = Items::new();
    let mut at: usize = 0;
    let mut depth: usize = 0;
    for _ in 0..count {
        let item = item::item_at(rest, alphabet, at, depth)?;
        let kind = item::kind_of(item);
        at += item::width_of(usize::from(kind));
        depth = depth + 1 - item.arity();
        items.push(item);
    }
    Ok(Scan { at, depth, items })
}

// The items of a pattern of `count` items, whose bytes are `rest`, or the first refusal of 10 to 15 that applies.
pub fn read_items(rest: &[u8], alphabet: u32, count: usize) -> Result<Items, Refusal>
    requires { count ≤ 64 }
    ensures refusal { refusal_of result ≡ items_refusal rest.now alphabet count }
    ensures items { IfOk result (λ l. l.items ≡ items_in rest.now alphabet count) }
{
    let s = scan_items(rest, alphabet, count)?;
    if s.depth != 1 {
        return Err(Refusal::OperandsLeft);
    }
    let at = s.at;
    let bytes = (at + 7) / 8;
    if rest.len() != bytes {
        return Err(Refusal::Trailing);
    }
    if fields::field(rest, at, 8 * bytes - at) != 0 {
        return Err(Refusal::Trailing);
    }
    Ok(s.items)
}

// The item of a kind, with the set where the kind has one. A kind of 4 or more is a star.
fn item_of(kind: u8, set: u32) -> Item
    ensures { result ≡ item_of kind set }
{
    match kind {
        0 => Item::Empty,
        1 => Item::Events(set),
        2 => Item::Sequence,
        3 => Item::Choice,
        _ => Item::Repeat,
    }
}

// What has the items of a pattern one behind the other: a list of them, or two arrays as C has them.
pub trait ItemList {
    ghost list: { Self → List Item };

    // How many they are.
    fn count(&self) -> usize
        ensures { result ≡ length (list self.now) };

    // The item `i`.
    fn item(&self, i: usize) -> Item
        requires { (i < length (list self.now)) × (i < 64) }
        ensures { result ≡ get_or (list self.now) i empty };
}

impl ItemList for Items {
    ghost list = { λ l. l.items };

    fn count(&self) -> usize {
        self.len()
    }

    fn item(&self, i: usize) -> Item {
        self[i]
    }
}

// Two arrays as C has them, with a kind and a set for each of so many items. What stands behind the last of them is not read.
#[derive(Clone, Copy)]
pub struct Arrays<'a> {
    pub count: usize,
    pub kinds: &'a [u8; 64],
    pub sets: &'a [u32; 64],
}

impl<'a> ItemList for Arrays<'a> {
    ghost list = { λ l. items_on l.count l.kinds.now l.sets.now };

    fn count(&self) -> usize {
        self.count
    }

    fn item(&self, i: usize) -> Item {
        item_of(self.kinds[i], self.sets[i])
    }
}
