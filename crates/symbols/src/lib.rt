// The items that begin at places of a typed pattern, and its letters.
#![tactic(auto)]

ghost use Rattle.std.specs.Prelude.{◌≡◌, true, not, [], ◌∷◌, ◌-◌, ◌≤◌, ◌^◌, length, take, drop};
ghost use Rattle.std.specs.Int.Bits.{bit_and};
ghost use Rattle.masks.specs.Mask.{has};
ghost use Rattle.plan.specs.Checks.{any};
ghost use Rattle.grammar.specs.Meaning.{listed};
ghost use Rattle.grammar.specs.Ways.{is_letter, event_of, letters, set_from, item_from, items_by, typed_letters};

use expressions::Item;
use items::Items;
use leaves::is_at;

// The set of a letter alone.
fn single(c: u8) -> u32
    requires { is_letter c ≡ true }
    ensures { result ≡ 2 ^ event_of c }
{
    1u32 << (c - 96)
}

// The set of the letters from the place `from` on, up to the first other byte.
fn listed_from(text: &[u8], from: usize) -> u32
    requires { from ≤ length text.now }
    ensures { result ≡ listed (letters (drop from text.now)) }
{
    let rest = &text[from..];
    let mut set = 0;
    for c in rest {
        if !c.is_ascii_lowercase() {
            return set;
        }
        set |= single(*c);
    }
    set
}

// The alphabet without a set.
fn without(alphabet: u32, set: u32) -> u32
    ensures { result ≡ alphabet - bit_and alphabet set }
{
    alphabet - (alphabet & set)
}

// The set whose first bracket stands before the place `at`.
fn bracketed_from(text: &[u8], at: usize, alphabet: u32) -> u32
    requires { at ≤ length text.now }
    ensures { result ≡ set_from alphabet (drop at text.now) }
{
    if is_at(text, at, b'^') {
        return without(alphabet, listed_from(text, at + 1));
    }
    listed_from(text, at)
}

// The item that begins at the place `at`, the empty string where none begins.
pub fn item_from(text: &[u8], at: usize, alphabet: u32) -> Item
    ensures { result ≡ item_from alphabet (drop at text.now) }
{
    match text.get(at) {
        Some(c @ b'a'..=b'z') => Item::Events(single(*c)),
        Some(b'[') => Item::Events(bracketed_from(text, at + 1, alphabet)),
        Some(b';') => Item::Sequence,
        Some(b'|') => Item::Choice,
        Some(b'*') => Item::Repeat,
        _ => Item::Empty,
    }
}

// The items that begin at the places of the order, the first 64 of them at most.
pub fn items_by(text: &[u8], alphabet: u32, order: &[u8]) -> Items
    ensures { result.items ≡ items_by alphabet text.now (take 64 order.now) }
{
    let first = &order[..order.len().min(64)];
    let mut items = Items::new();
    for at in first {
        items.push(item_from(text, usize::from(*at), alphabet));
    }
    items
}

// Whether a byte is a letter whose event is none of the alphabet.
fn is_strange(c: u8, alphabet: u32) -> bool
    ensures { result ≡ any (λ e. not (has alphabet e)) (typed_letters (c ∷ [])) }
{
    c.is_ascii_lowercase() && !masks::has(u64::from(alphabet), u32::from(c - 96))
}

// Whether the event of a letter of the text is none of the alphabet.
pub fn has_strange(text: &[u8], alphabet: u32) -> bool
    ensures { result ≡ any (λ e. not (has alphabet e)) (typed_letters text.now) }
{
    text.iter().any(|c| is_strange(*c, alphabet))
}
