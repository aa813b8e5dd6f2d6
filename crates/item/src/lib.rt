// One item of a pattern: its bits, its operands, and the refusals 10 to 13.
#![tactic(auto)]

ghost use Rattle.std.specs.Prelude.{◌≡◌, ◌≤◌, IfOk};
ghost use Rattle.plan.specs.Checks.{first};
ghost use Rattle.refusals.specs.Numbers.{refusal_of};
ghost use Rattle.item.specs.Faults.{cut, set_at, item_at, width, strange, set_faults, faults};
ghost use Rattle.item.specs.Found.{kind_of};

use expressions::Item;
use refusals::Refusal;

// Whether the bytes end before the bit `n`.
fn is_cut(rest: &[u8], n: usize) -> bool
    requires { n ≤ 65536 }
    ensures { result ≡ cut rest.now n }
{
    rest.len() < (n + 7) / 8
}

// How many bits an item of a kind has. Any number may be asked.
pub fn width_of(kind: usize) -> usize
    ensures { result ≡ width kind }
{
    if kind == 1 { 34 } else { 3 }
}

// The kind of an item, as a number.
pub fn kind_of(item: Item) -> u8
    ensures { result ≡ kind_of item }
{
    match item {
        Item::Empty => 0,
        Item::Events(_) => 1,
        Item::Sequence => 2,
        Item::Choice => 3,
        Item::Repeat => 4,
    }
}

// Whether an event of the set is none of the alphabet.
fn is_strange(alphabet: u32, set: u32) -> bool
    ensures { result ≡ strange alphabet set }
{
    set & alphabet != set
}

// The set of the item that begins at the bit `at`, where its kind has one; or 10 where the bytes end inside it, 12 where an event of it is none of
// the alphabet.
fn read_set(rest: &[u8], alphabet: u32, at: usize) -> Result<u32, Refusal>
    requires { at ≤ 4096 }
    ensures refusal { refusal_of result ≡ first (set_faults rest.now alphabet) at }
    ensures set { IfOk result (λ set. set ≡ set_at rest.now at) }
{
    if is_cut(rest, at + 34) {
        return Err(Refusal::ItemsCut);
    }
    let set = fields::events(rest, at + 3);
    if is_strange(alphabet, set) {
        return Err(Refusal::StrangeEvent);
    }
    Ok(set)
}

// The item that begins at the bit `at`, where there are `depth` operands, or its refusal.
pub fn item_at(rest: &[u8], alphabet: u32, at: usize, depth: usize) -> Result<Item, Refusal>
    requires { at ≤ 4096 }
    ensures refusal { refusal_of result ≡ first (faults rest.now alphabet) (record { at = at; depth = depth }) }
    ensures item { IfOk result (λ item. item ≡ item_at rest.now at) }
{
    if is_cut(rest, at + 3) {
        return Err(Refusal::ItemsCut);
    }
    let item = match fields::field(rest, at, 3) {
        0 => Item::Empty,
        1 => Item::Events(read_set(rest, alphabet, at)?),
        2 => Item::Sequence,
        3 => Item::Choice,
        4 => Item::Repeat,
        _ => return Err(Refusal::NoKind),
    };
    if depth < item.arity() {
        return Err(Refusal::FewOperands);
    }
    Ok(item)
}
