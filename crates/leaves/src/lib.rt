// The parts of a typed pattern without round brackets: single bytes, letters and sets.
#![tactic(auto)]

ghost use Rattle.std.specs.Prelude.{◌≡◌, List, ℕ, ◌≤◌, length, drop};
ghost use Rattle.grammar.specs.Grammar.{Tree};
ghost use Rattle.grammar.specs.Ways.{starts_with, starts_with_letter, past_letters, listing, in_set, leaf};
ghost use Rattle.leaves.specs.Ends.{Ends};

// Whether the byte stands at the place `at`.
pub fn is_at(text: &[u8], at: usize, byte: u8) -> bool
    ensures { result ≡ starts_with byte (drop at text.now) }
{
    text.get(at) == Some(&byte)
}

// Whether a letter stands at the place `at`.
pub fn letter_at(text: &[u8], at: usize) -> bool
    ensures { result ≡ starts_with_letter (drop at text.now) }
{
    text.get(at).is_some_and(|c| c.is_ascii_lowercase())
}

// The first place from `from` on where no letter stands.
fn past_letters(text: &[u8], from: usize) -> usize
    requires { from ≤ length text.now }
    ensures { (drop result text.now ≡ past_letters (drop from text.now)) × (from ≤ result) × (result ≤ length text.now) }
{
    // A `while`, since the place at which it stops is the answer.
    let mut at = from;
    while letter_at(text, at) {
        at += 1;
    }
    at
}

// The end of a set whose letters begin at `at`: the place behind it. None where the set is broken.
fn listing_end(text: &[u8], at: usize) -> Option<usize>
    requires { at ≤ length text.now }
    ensures { (tree : List ℕ → Tree) → Ends (listing tree (drop at text.now)) text.now at result }
{
    let end = past_letters(text, at);
    if is_at(text, end, b']') {
        Some(end + 1)
    } else {
        None
    }
}

// The end of a set whose first bracket stands before `at`.
fn set_end(text: &[u8], at: usize) -> Option<usize>
    requires { at ≤ length text.now }
    ensures { Ends (in_set (drop at text.now)) text.now at result }
{
    if is_at(text, at, b'^') {
        return listing_end(text, at + 1);
    }
    listing_end(text, at)
}

// The end of the letter, the empty string or the set that begins at `at`.
pub fn leaf_end(text: &[u8], at: usize) -> Option<usize>
    ensures { Ends (leaf (drop at text.now)) text.now at result }
{
    match text.get(at) {
        Some(b'a'..=b'z') => Some(at + 1),
        Some(b'0') => Some(at + 1),
        Some(b'[') => set_end(text, at + 1),
        _ => None,
    }
}
