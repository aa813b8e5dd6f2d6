// A plan with its pattern: the refusals 1 to 16 and 21, and the pattern's part of the plan.
#![tactic(auto)]

ghost use Rattle.std.specs.Prelude.{◌≡◌, not, length, IfOk};
ghost use Rattle.std.proofs.Math.Option.{none};
ghost use Rattle.sections.specs.Layout.{plan_of};
ghost use Rattle.expressions.specs.Items.{pattern_of};
ghost use Rattle.items.specs.Postfix.{Postfix};
ghost use Rattle.automaton.specs.Automaton.{states_of};
ghost use Rattle.words.specs.Words.{Worded};
ghost use Rattle.reader.specs.Reading.{WordsOf};
ghost use Rattle.plan.specs.Checks.{first};
ghost use Rattle.plan.specs.Refusals.{framing};
ghost use Rattle.refusals.specs.Numbers.{refusal_of};
ghost use Rattle.pattern.specs.Refusals.{over_limit, readable, PartOf};
ghost use Rattle.pattern.specs.Reading.{accepted};

use items::Items;
use reader::Reading;
use refusals::Refusal;

// A plan that was read, with the items of its pattern.
#[derive(Drop)]
pub struct PatternRead {
    pub reading: Reading,
    pub items: Items,
}

// The plan that the bytes hold and the items of its pattern, or the first refusal of 1 to 15 and 21 that applies. Where none of 1 to 4 does, its
// arcs go into the words.
pub fn read_pattern(plan: &[u8], words: &mut [u32; 512]) -> Result<PatternRead, Refusal>
    requires { length words.old ≡ 512 }
    ensures refusal { refusal_of result ≡ first readable plan.now }
    ensures plan { IfOk result (λ read. read ≡ accepted plan.now) }
    ensures words { WordsOf plan.now words.old words.new }
{
    let reading = reader::read_plan(plan, words)?;
    let at = reading.pattern;
    let items = items::read_items(&plan[at..], reading.plan.alphabet, reading.plan.items)?;
    Ok(PatternRead { reading, items })
}

// The same of a plan that passed refusals 1 to 4: the first refusal of 5 to 15 and 21 that applies, and its arcs go into the words whatever comes.
pub fn read_framed(plan: &[u8], words: &mut [u32; 512]) -> Result<PatternRead, Refusal>
    requires { (first framing plan.now ≡ none) × (length words.old ≡ 512) }
    ensures refusal { refusal_of result ≡ first readable plan.now }
    ensures plan { IfOk result (λ read. read ≡ accepted plan.now) }
    ensures words { Worded (plan_of plan.now) words.old words.new }
{
    let reading = reader::read_sections(plan, words)?;
    let start = reading.pattern;
    let items = items::read_items(&plan[start..], reading.plan.alphabet, reading.plan.items)?;
    Ok(PatternRead { reading, items })
}

// Whether the automaton of a pattern has no more than 64 states: refusal 16 does not apply.
fn few_states(items: &Items, alphabet: u32) -> bool
    requires { Postfix items.now.items }
    ensures { result ≡ not (over_limit (states_of (pattern_of items.now.items) alphabet)) }
{
    let positions = positions::positions_of(items);
    automaton::states_of(&positions, alphabet).is_some()
}

// The pattern's part of an accepted plan, where it stands in it; no bytes where one of 1 to 16 or 21 applies.
pub fn pattern_part(plan: &[u8]) -> &[u8]
    ensures { PartOf plan.now plan.entry.ref_ptr result.now result.ref_ptr }
{
    let mut words = [0u32; 512];
    let Ok(read) = read_pattern(plan, &mut words) else {
        return &plan[0..0];
    };
    let at = read.reading.pattern;
    if few_states(&read.items, read.reading.plan.alphabet) {
        &plan[at..]
    } else {
        &plan[0..0]
    }
}
