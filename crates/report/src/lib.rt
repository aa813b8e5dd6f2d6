// From the bytes of a plan, and of a text, to the line that tells the answer.
#![tactic(auto)]

ghost use Rattle.promises.specs.Order.{own};
ghost use Rattle.promises.specs.Judged.{Judged, JudgedText};
ghost use Rattle.report.specs.Reports.{Reports};

use line::Line;

// The line of the answer to a plan, for which a row of 256 places is lent.
pub fn line_for(plan: &[u8]) -> Line
    ensures { Reports (Judged own plan.now) result }
{
    let mut row = [0u64; 256];
    let answer = verifier::judge(plan, &mut row);
    line::line_of(answer)
}

// The same of a plan that is judged by a text.
pub fn line_for_text(plan: &[u8], text: &[u8]) -> Line
    ensures { Reports (JudgedText plan.now text.now) result }
{
    let mut lent = [0u64; 256];
    let told = typed::judge_text(plan, text, &mut lent);
    line::line_of(told)
}
