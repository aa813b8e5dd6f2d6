// The table of moves of a numbered automaton: 64 rows by 32 events.
#![tactic(auto)]

ghost use Rattle.std.specs.Prelude.{◌≡◌, ℕ, ◌<◌, ◌≤◌, length, replicate};
ghost use Rattle.rows.specs.Rows.{row as row_of};
ghost use Rattle.expressions.specs.Expression.{Expression};
ghost use Rattle.automaton.specs.Automaton.{state_at, moved, table_of};
ghost use Rattle.automaton.specs.Tables.{Of, Known, Apart, with_last};
ghost use Rattle.automaton.specs.Search.{Moves, FirstAt};

use positions::Positions;

// The place of `t`, if there is one. The place `guess` is asked first: the sets are apart.
fn find_near(sets: &[u64], t: u64, guess: usize) -> Option<usize>
    requires { Apart sets.now }
    ensures { FirstAt sets.now t result }
{
    if guess < sets.len() && sets[guess] == t {
        return Some(guess);
    }
    automaton::find(sets, t)
}

// The moves of the state `k` by the watched events, put into its row, which has `k` everywhere: no other event moves it. `to` are the positions
// that may follow the state, and `none` is the number of the empty set. Where an event moves to the same set as the one before, its number is
// known; else the state behind `k` is asked first. A set that is no state would get the number behind the last.
fn fill_row(
    row: &mut [u8; 32],
    alphabet: u32,
    holding: &[u64; 33],
    to: u64,
    sets: &[u64],
    none: Option<usize>,
    k: usize,
)
    requires { (length sets.now ≤ 64) × (k < length sets.now) × Apart sets.now × FirstAt sets.now 0 none × (row.old ≡ replicate 32 k) }
    ensures { (r : Expression) → Moves r (state_at sets.now k) to holding.now → row.new ≡ row_of 32 (moved r alphabet sets.now k) }
{
    let mut t: u64 = 0;
    let mut number = none;
    for e in masks::members_of(u64::from(alphabet)) {
        let next = to & holding[e];
        if next != t {
            t = next;
            number = find_near(sets, t, k + 1);
        }
        row[e] = number.unwrap_or(sets.len()) as u8;
    }
}

// The table of moves of positions, whatever their last ones are. Past the last state each row has its own number. The empty set is looked for once.
pub fn moves_of(positions: &Positions, alphabet: u32, sets: &[u64]) -> [[u8; 32]; 64]
    requires { (length sets.now ≤ 64) × Apart sets.now × ((last : ℕ) × Known (with_last last positions.now)) }
    ensures { (r : Expression) (last : ℕ) → Of r (with_last last positions.now) → result ≡ table_of r alphabet sets.now }
{
    let mut moves = [[0u8; 32]; 64];
    let none = automaton::find(sets, 0);
    for k in 0..64 {
        moves[k] = [k as u8; 32];
        if k < sets.len() {
            let to = automaton::reach(&positions.after, positions.count, sets[k]);
            fill_row(
                &mut moves[k],
                alphabet,
                &positions.holding,
                to,
                sets,
                none,
                k,
            );
        }
    }
    moves
}
