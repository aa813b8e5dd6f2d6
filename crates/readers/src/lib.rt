// The readers of typed patterns: choices, sequences and units, which call each other. Each tells where it has come to, the next place of the text,
// or that what it reads is broken. The items go into a lent order, each as the place of its first byte.
#![tactic(auto)]

ghost use Rattle.std.specs.Prelude.{◌≡◌, false, [], ◌≤◌, length, drop};
ghost use Rattle.grammar.specs.Grammar.{opening};
ghost use Rattle.grammar.specs.Ways.{starts_with, chain, choices, sequences, one_unit};
ghost use Rattle.readers.specs.Readers.{Lent, Starred, Closes, Went, Read};

use arrayvec::ArrayVec;
use leaves::{is_at, leaf_end};

// The places of the first bytes of items, in fixed memory.
pub type Order = ArrayVec<u8, 256>;

// The stars from `from` on: the place behind them.
fn stars(text: &[u8], from: usize, order: &mut Order) -> usize
    requires { Lent text.now order.old.items from × (from ≤ length text.now) }
    ensures { Starred text.now from order.old.items order.new.items result }
{
    // A `while`, since the place at which it stops is the answer.
    let mut at = from;
    while is_at(text, at, b'*') {
        order.push(at as u8);
        at += 1;
    }
    at
}

// A unit without round brackets.
fn plain(text: &[u8], at: usize, order: &mut Order) -> Option<usize>
    requires { Lent text.now order.old.items at × (starts_with opening (drop at text.now) ≡ false) }
    ensures { Went text.now at order.old.items order.new.items one_unit result }
{
    let end = leaf_end(text, at)?;
    order.push(at as u8);
    Some(stars(text, end, order))
}

// What is left of a unit behind the choice in its brackets.
fn closed(text: &[u8], at: usize, order: &mut Order) -> Option<usize>
    requires { Lent text.now order.old.items at }
    ensures { Closes text.now at order.old.items order.new.items result }
{
    if is_at(text, at, b')') {
        Some(stars(text, at + 1, order))
    } else {
        None
    }
}

// A unit: letter, set, empty string or a choice in brackets, with its stars.
#[cycle(choice_sequence_unit)]
fn unit(text: &[u8], at: usize, order: &mut Order) -> Option<usize>
    requires { Lent text.now order.old.items at }
    ensures { Went text.now at order.old.items order.new.items one_unit result }
{
    if is_at(text, at, b'(') {
        let end = choice(text, at + 1, order)?;
        return closed(text, end, order);
    }
    plain(text, at, order)
}

// A sequence: units, a `;` between them. It is no one reader with the choice, since the grammar has a rule for each; and a `while` in both, since each
// turn goes on where the reader of an operand came to.
#[cycle(choice_sequence_unit)]
fn sequence(text: &[u8], from: usize, order: &mut Order) -> Option<usize>
    requires { Lent text.now order.old.items from }
    ensures { Went text.now from order.old.items order.new.items (chain sequences) result }
{
    let mut at = unit(text, from, order)?;
    while is_at(text, at, b';') {
        let end = unit(text, at + 1, order)?;
        order.push(at as u8);
        at = end;
    }
    Some(at)
}

// A choice: sequences, a `|` between them.
#[cycle(choice_sequence_unit)]
fn choice(text: &[u8], from: usize, order: &mut Order) -> Option<usize>
    requires { Lent text.now order.old.items from }
    ensures { Went text.now from order.old.items order.new.items (chain choices) result }
{
    let mut at = sequence(text, from, order)?;
    while is_at(text, at, b'|') {
        let end = sequence(text, at + 1, order)?;
        order.push(at as u8);
        at = end;
    }
    Some(at)
}

// The choice with which a text begins, its items in a lent order, whatever it held before. Where there is no choice, the order is left open.
pub fn read_choice(text: &[u8], order: &mut Order) -> Option<usize>
    requires { length text.now ≤ 255 }
    ensures { Read text.now order.new.items result }
{
    order.clear();
    choice(text, 0, order)
}
