// The judge, the pattern part and what is read back of a plan, for programs in C and Rust.
#![tactic(auto)]

ghost use Rattle.std.specs.Prelude.{◌≡◌, ◌≤◌};
ghost use Rattle.plan.specs.Checks.{first};
ghost use Rattle.refusals.specs.Numbers.{refusal_of};
ghost use Rattle.pattern.specs.Refusals.{readable, acceptable};
ghost use Rattle.readback.specs.Tables.{number_of, tables, tables_in};
ghost use Rattle.readback.specs.Property.{property, property_in};
ghost use Rattle.promises.specs.Order.{own};
ghost use Rattle.promises.specs.Judged.{Judged, JudgedText};
ghost use Rattle.traceflow.specs.Exported.{Exported, at_end, place_of};

use refusals::Refusal;

// The answer to a plan: 0 where it is judged, with the sets in the row and the values of the verdict in `counts`; else the number
// of the first refusal that applies, with both as they were.
#[unsafe(no_mangle)]
pub extern "C" fn traceflow_judge(plan: &[u8], row: &mut [u64], counts: &mut [u64; 7]) -> u32
    ensures { Exported (Judged own plan.now) row.old counts.old result row.new counts.new }
{
    let answer = verifier::judge(plan, row);
    verdict::tell(answer, counts)
}

// The same of a plan that is judged by a text.
#[unsafe(no_mangle)]
pub extern "C" fn traceflow_judge_text(
    plan: &[u8],
    text: &[u8],
    row: &mut [u64],
    counts: &mut [u64; 7],
) -> u32
    ensures { Exported (JudgedText plan.now text.now) row.old counts.old result row.new counts.new }
{
    let answer = typed::judge_text(plan, text, row);
    verdict::tell(answer, counts)
}

// The place of a part of `bytes` bytes at the end of `all`: its first byte and its length, 0 and 0 where it has none.
fn at_end(all: usize, bytes: usize) -> [usize; 2]
    requires { bytes ≤ all }
    ensures { result ≡ at_end all bytes }
{
    if bytes == 0 {
        [0, 0]
    } else {
        [all - bytes, bytes]
    }
}

// The place of the pattern's part in a plan: its first byte and its length, 0 and 0 where one of 1 to 16 or 21 applies.
#[unsafe(no_mangle)]
pub extern "C" fn traceflow_pattern_part(plan: &[u8], place: &mut [usize; 2])
    ensures { place.new ≡ place_of plan.now }
{
    let part = pattern::pattern_part(plan);
    *place = at_end(plan.len(), part.len());
}

// What a result tells C: the number of a refusal, or 0.
fn told(found: Result<(), Refusal>) -> u32
    ensures { result ≡ number_of (refusal_of found) }
{
    match found {
        Ok(()) => 0,
        Err(refusal) => u32::from(refusal),
    }
}

// The tables of the plan that the bytes hold, and 0; or the first refusal of 1 to 15 and 21 that applies, with every array as it was.
#[unsafe(no_mangle)]
pub extern "C" fn traceflow_tables(
    plan: &[u8],
    counts: &mut [usize; 9],
    size: &mut [u16; 16],
    entry: &mut [u8; 16],
    exit: &mut [u8; 16],
    standing: &mut [u8; 16],
    event: &mut [u8; 64],
    arcs: &mut [u32; 512],
    kinds: &mut [u8; 64],
    sets: &mut [u32; 64],
) -> u32
    ensures { (result ≡ number_of (first readable plan.now)) × (tables counts.new size.new entry.new exit.new standing.new event.new arcs.new kinds.new sets.new ≡ tables_in plan.now (tables counts.old size.old entry.old exit.old standing.old event.old arcs.old kinds.old sets.old)) }
{
    told(readback::tables_of(
        plan, counts, size, entry, exit, standing, event, arcs, kinds, sets,
    ))
}

// The automaton of a plan's own pattern, and 0; or the first refusal of 1 to 16 and 21 that applies, with every array as it was.
#[unsafe(no_mangle)]
pub extern "C" fn traceflow_automaton(
    plan: &[u8],
    values: &mut [u64; 2],
    states: &mut [u64; 64],
    moves: &mut [[u8; 32]; 64],
) -> u32
    ensures { (result ≡ number_of (first acceptable plan.now)) × (property values.new states.new moves.new ≡ property_in plan.now (property values.old states.old moves.old)) }
{
    told(readback::property_of(plan, values, states, moves))
}
