// The judge of a plan whose pattern was typed.
#![tactic(auto)]

ghost use Rattle.promises.specs.Judged.{JudgedText};

use verdict::Answer;

// The answer to a plan that is judged by a text, whatever the bytes of both: the first refusal that applies, and the row as it was;
// or the verdict under the pattern of the text, and in the first places of the row the set of each node.
pub fn judge_text(plan: &[u8], text: &[u8], row: &mut [u64]) -> Answer
    ensures { JudgedText plan.now text.now row.old result row.new }
{
    let mut words = [0u32; 512];
    let read = pattern::read_pattern(plan, &mut words)?;
    let items = text::read_text(text, read.reading.plan.alphabet)?;
    analysis::settle_plan(&read.reading, &words, &items, row)
}
