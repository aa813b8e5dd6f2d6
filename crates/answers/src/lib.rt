// The answer on the sets at the nodes of a plan, and the row as it is handed back.
#![tactic(auto)]

ghost use Rattle.std.specs.Prelude.{◌≡◌, ◌≤◌, leb, length};
ghost use Rattle.verdict.specs.Verdict.{verified};
ghost use Rattle.verdict.specs.Answer.{verdict};
ghost use Rattle.verdict.specs.Row.{handed};
ghost use Rattle.answers.specs.Answers.{values_on, unless_short};

use edges::Edges;
use refusals::Refusal;
use sections::Decoded;
use tally::Family;
use verdict::{Answer, Counts};

// The sets of the nodes go into the first places of the row, if it has a place for each; else none does.
fn hand_over(row: &mut [u64], masks: &[u64; 256], nodes: usize) -> bool
    requires { nodes ≤ 256 }
    ensures { (result ≡ leb nodes (length row.old)) × (row.new ≡ handed result nodes masks.now row.old) }
{
    let fits = nodes <= row.len();
    if fits {
        row[..nodes].copy_from_slice(&masks[..nodes]);
    }
    fits
}

// The answer on the sets, with their pairs, under a pattern with so many states and those that accept: 17, or the verdict. The counts of the
// plan's edges come with it.
pub fn answer_on(
    plan: &Decoded,
    edges: Edges,
    family: &Family,
    states: usize,
    accepting: u64,
    row: &mut [u64],
) -> Answer
    requires { (plan.now.jobs.count ≤ 16) × (family.now.pairs ≤ 16384) × (plan.now.nodes ≤ 256) × (states ≤ 64) }
    ensures { (result ≡ unless_short (leb plan.now.nodes (length row.old)) (verdict (verified plan.now.kind (values_on plan.now edges family.now states).ends accepting) (values_on plan.now edges family.now states))) × (row.new ≡ handed (leb plan.now.nodes (length row.old)) plan.now.nodes family.now.masks row.old) }
{
    let ends = verdict::final_set(&family.masks, plan.jobs);
    let counts = Counts {
        states: states as u32,
        meetings: edges.meetings,
        ordering: edges.ordering,
        pairs: family.pairs,
        fill: verdict::fill(family.pairs as u16, plan.nodes as u16, states as u8),
        ends,
    };
    let verified = verdict::is_verified(plan.kind, ends, accepting);
    let answer = verdict::verdict_of(verified, counts);
    if hand_over(row, &family.masks, plan.nodes) {
        Ok(answer)
    } else {
        Err(Refusal::ShortRow)
    }
}
