// What is read back of the bytes of a plan, into lent arrays: its tables, and the automaton of its pattern.
#![tactic(auto)]

ghost use Rattle.std.specs.Prelude.{◌≡◌, ◌≤◌, length};
ghost use Rattle.rows.specs.Rows.{row, padded, place};
ghost use Rattle.expressions.specs.Items.{pattern_of};
ghost use Rattle.item.specs.Found.{set_of};
ghost use Rattle.items.specs.Postfix.{Postfix};
ghost use Rattle.plan.specs.Checks.{first};
ghost use Rattle.refusals.specs.Numbers.{refusal_of};
ghost use Rattle.pattern.specs.Refusals.{readable, acceptable};
ghost use Rattle.readback.specs.Tables.{counts_in, kinds_of, sets_of, tables, tables_in};
ghost use Rattle.readback.specs.Property.{property, property_in, property_under, limit};

use expressions::Item;
use items::Items;
use refusals::Refusal;
use sections::{Decoded, Kind};

// The counts of a plan, in the order of its head, and its alphabet.
fn counts_of(d: &Decoded) -> [usize; 9]
    ensures { result ≡ counts_in d.now }
{
    [
        d.jobs.count,
        d.nodes,
        d.steps,
        d.calls,
        d.accepts,
        d.channels.count,
        usize::from(d.kind == Kind::None),
        d.items,
        d.alphabet as usize,
    ]
}

// The kinds and the sets of items, in arrays as C has them: 0 where the kind has no set, and behind the last item.
fn list_items(items: &Items, kinds: &mut [u8; 64], sets: &mut [u32; 64])
    ensures { (kinds.new ≡ padded 64 (kinds_of items.now.items)) × (sets.new ≡ padded 64 (sets_of items.now.items)) }
{
    *kinds = [0; 64];
    *sets = [0; 64];
    for (i, item) in items.iter().enumerate() {
        kinds[i] = item::kind_of(*item);
        sets[i] = set_of(*item);
    }
}

// The set of an item, empty where its kind has none.
fn set_of(item: Item) -> u32
    ensures { result ≡ set_of item }
{
    if let Item::Events(set) = item { set } else { 0 }
}

// The tables of the plan that the bytes hold; or the first refusal of 1 to 15 and 21 that applies, with every array as it was. The arrays are those
// that C lends.
pub fn tables_of(
    plan: &[u8],
    counts: &mut [usize; 9],
    size: &mut [u16; 16],
    entry: &mut [u8; 16],
    exit: &mut [u8; 16],
    standing: &mut [u8; 16],
    event: &mut [u8; 64],
    arcs: &mut [u32; 512],
    kinds: &mut [u8; 64],
    sets: &mut [u32; 64],
) -> Result<(), Refusal>
    ensures { (refusal_of result ≡ first readable plan.now) × (tables counts.new size.new entry.new exit.new standing.new event.new arcs.new kinds.new sets.new ≡ tables_in plan.now (tables counts.old size.old entry.old exit.old standing.old event.old arcs.old kinds.old sets.old)) }
{
    let mut words = [0u32; 512];
    let read = pattern::read_pattern(plan, &mut words)?;
    let d = &read.reading.plan;
    *counts = counts_of(d);
    *size = d.jobs.size;
    *entry = d.jobs.entry;
    *exit = d.jobs.exit;
    *standing = d.jobs.standing;
    *event = d.channels.event;
    *arcs = words;
    list_items(&read.items, kinds, sets);
    Ok(())
}

// The states in an array as C has it, with 0 behind the last.
fn list_states(sets: &[u64]) -> [u64; 64]
    requires { length sets.now ≤ 64 }
    ensures { result ≡ row 64 (place sets.now) }
{
    let mut states = [0u64; 64];
    states[..sets.len()].copy_from_slice(sets);
    states
}

// The automaton of a pattern over an alphabet; or 16 where it has more than 64 states, with every array as it was.
fn property_under(
    items: &Items,
    alphabet: u32,
    values: &mut [u64; 2],
    states: &mut [u64; 64],
    moves: &mut [[u8; 32]; 64],
) -> Result<(), Refusal>
    requires { Postfix items.now.items }
    ensures { (refusal_of result ≡ limit (pattern_of items.now.items) alphabet) × (property values.new states.new moves.new ≡ property_under (pattern_of items.now.items) alphabet (property values.old states.old moves.old)) }
{
    let positions = positions::positions_of(items);
    let Some(sets) = automaton::states_of(&positions, alphabet) else {
        return Err(Refusal::ManyStates);
    };
    let accepting = automaton::accepting_of(positions.last, &sets);
    *values = [sets.len() as u64, accepting];
    *states = list_states(&sets);
    *moves = transitions::moves_of(&positions, alphabet, &sets);
    Ok(())
}

// The automaton of a plan's own pattern; or the first refusal of 1 to 16 and 21 that applies, with every array as it was.
pub fn property_of(
    plan: &[u8],
    values: &mut [u64; 2],
    states: &mut [u64; 64],
    moves: &mut [[u8; 32]; 64],
) -> Result<(), Refusal>
    ensures { (refusal_of result ≡ first acceptable plan.now) × (property values.new states.new moves.new ≡ property_in plan.now (property values.old states.old moves.old)) }
{
    let mut words = [0u32; 512];
    let read = pattern::read_pattern(plan, &mut words)?;
    property_under(
        &read.items,
        read.reading.plan.alphabet,
        values,
        states,
        moves,
    )
}
