// The positions of a pattern, built item by item: what may follow each, and which hold each event.
#![tactic(auto)]

ghost use Rattle.std.specs.Prelude.{◌≡◌, cond, length};
ghost use Rattle.rows.specs.Rows.{row, place};
ghost use Rattle.expressions.specs.declared.Item.TheVariants.{Empty as empty, Events as events, Sequence as sequence, Choice as choice, Repeat as repeat};
ghost use Rattle.expressions.specs.Items.{pattern_of};
ghost use Rattle.items.specs.Postfix.{Postfix};
ghost use Rattle.positions.specs.Tables.{position_table};
ghost use Rattle.positions.specs.Making.{nothing, made, gains};

use expressions::Item;
use items::ItemList;

// The positions of a pattern: 0 is the beginning.
#[derive(Drop)]
pub struct Positions {
    // how many there are, the beginning included
    pub count: usize,
    // what may follow each
    pub after: [u64; 33],
    // those whose set holds each event
    pub holding: [u64; 33],
    // those at which a string may end
    pub last: u64,
}

// What an item needs to know of an operand: whether it holds the empty string, and what may begin and end its strings.
#[derive(Clone, Copy, Default)]
struct Operand {
    null: bool,
    first: u64,
    last: u64,
}

// What an item makes of the operands that it takes.
#[derive(Drop)]
struct Made {
    // an operand
    null: bool,
    first: u64,
    last: u64,
    // what ends the older operand, and what may follow it from now on
    ends: u64,
    begins: u64,
    // the events of a new position, and how many positions are new
    events: u64,
    size: usize,
}

// The set `m` where the test holds, the empty one where not.
fn only(test: bool, m: u64) -> u64
    ensures { result ≡ cond test m 0 }
{
    if test { m } else { 0 }
}

// In a row of sets each member of `m` below 33 gains the set `x`: what may follow each position, or which positions hold each
// event.
fn gain(sets: &mut [u64; 33], m: u64, x: u64)
    requires { length sets.old ≡ 33 }
    ensures { sets.new ≡ row 33 (gains (place sets.old) m x) }
{
    for p in masks::members_of(m & 0x1ffffffff) {
        sets[p] |= x;
    }
}

// The empty string.
fn take_empty() -> Made
    ensures { result ≡ made empty 0 nothing nothing }
{
    Made {
        null: true,
        first: 0,
        last: 0,
        ends: 0,
        begins: 0,
        events: 0,
        size: 0,
    }
}

// One event of a set: a new position.
fn take_events(set: u32, at: u64) -> Made
    ensures { result ≡ made (events set) at nothing nothing }
{
    Made {
        null: false,
        first: at,
        last: at,
        ends: 0,
        begins: 0,
        events: u64::from(set),
        size: 1,
    }
}

// Sequence: what begins the newer operand may follow what ends the older.
fn take_sequence(older: Operand, newer: Operand) -> Made
    ensures { result ≡ made sequence 0 older newer }
{
    Made {
        null: older.null & newer.null,
        first: older.first | only(older.null, newer.first),
        last: only(newer.null, older.last) | newer.last,
        ends: older.last,
        begins: newer.first,
        events: 0,
        size: 0,
    }
}

// Choice: nothing more follows.
fn take_choice(older: Operand, newer: Operand) -> Made
    ensures { result ≡ made choice 0 older newer }
{
    Made {
        null: older.null | newer.null,
        first: older.first | newer.first,
        last: older.last | newer.last,
        ends: 0,
        begins: 0,
        events: 0,
        size: 0,
    }
}

// Star: what begins its operand may follow what ends it.
fn take_repeat(one: Operand) -> Made
    ensures { result ≡ made repeat 0 one nothing }
{
    let mut many = one;
    many.null = true;
    Made {
        null: many.null,
        first: many.first,
        last: many.last,
        ends: many.last,
        begins: many.first,
        events: 0,
        size: 0,
    }
}

// What an item makes. A new position is `at`; of one operand it is the older that is read, of none neither.
fn take_item(item: Item, at: u64, older: Operand, newer: Operand) -> Made
    ensures { result ≡ made item at older newer }
{
    match item {
        Item::Empty => take_empty(),
        Item::Events(set) => take_events(set, at),
        Item::Sequence => take_sequence(older, newer),
        Item::Choice => take_choice(older, newer),
        Item::Repeat => take_repeat(older),
    }
}

// The positions of the pattern that the items build. The operands stand in an array, the newest at the place `depth - 1`; an
// item's own takes the place of the oldest that it takes. They are never more than 32, since the items that are left make one of them. It is no
// list that grows, since an item that takes no operand reads places past the newest. At last what begins the one operand left follows the beginning.
pub fn positions_of<L: ItemList>(items: &L) -> Positions
    requires { Postfix (L.list items.now) }
    ensures { result ≡ position_table (pattern_of (L.list items.now)) }
{
    let mut operands = [Operand::default(); 34];
    let mut depth: usize = 0;
    let mut count: usize = 1;
    let mut after = [0u64; 33];
    let mut holding = [0u64; 33];
    for i in 0..items.count() {
        let item = items.item(i);
        let base = depth - item.arity();
        let at = masks::with_state(0, count as u32);
        let made = take_item(item, at, operands[base], operands[base + 1]);
        operands[base] = Operand {
            null: made.null,
            first: made.first,
            last: made.last,
        };
        depth = base + 1;
        count += made.size;
        gain(&mut after, made.ends, made.begins);
        gain(&mut holding, made.events, at);
    }
    let whole = operands[0];
    after[0] = whole.first;
    Positions {
        count,
        after,
        holding,
        last: whole.last | only(whole.null, 1),
    }
}
