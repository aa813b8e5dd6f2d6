// Refusals 1 to 9 and 21 of a plan, and those of them that need no node's job: the frame of the bytes, and the sizes of the jobs.
#![tactic(auto)]

ghost use Rattle.std.specs.Prelude.{◌≡◌, ◌≤◌};
ghost use Rattle.sections.specs.Tables.{jobs_in};
ghost use Rattle.plan.specs.Checks.{first};
ghost use Rattle.plan.specs.Refusals.{outside, counts_outside, sizes_wrong, framing};
ghost use Rattle.refusals.specs.Numbers.{refusal_of};

use refusals::Refusal;
use sections::{Head, Jobs};

fn is_outside(low: usize, high: usize, n: usize) -> bool
    ensures { result ≡ outside low high n }
{
    (n < low) | (high < n)
}

// Refusal 2.
fn counts_outside(h: Head) -> bool
    ensures { result ≡ counts_outside h }
{
    let jobs = is_outside(0, 16, h.jobs);
    let nodes = is_outside(0, 256, h.nodes);
    let steps = is_outside(0, 256, h.steps);
    let calls = is_outside(0, 128, h.calls);
    let accepts = is_outside(0, 128, h.accepts);
    let channels = is_outside(0, 64, h.channels);
    let items = is_outside(1, 64, h.items);
    jobs | (nodes | (steps | (calls | (accepts | (channels | items)))))
}

// Refusals 1 to 4.
pub fn framed(plan: &[u8]) -> Result<(), Refusal>
    ensures { refusal_of result ≡ first framing plan.now }
{
    if plan.len() < 11 {
        return Err(Refusal::TooShort);
    }
    let h = sections::read_head(plan);
    if counts_outside(h) {
        return Err(Refusal::CountOutside);
    }
    let end = sections::end_of(h);
    let bytes = (end + 7) / 8;
    if plan.len() < bytes {
        return Err(Refusal::CutShort);
    }
    if fields::field(plan, end, 8 * bytes - end) != 0 {
        return Err(Refusal::Filled);
    }
    Ok(())
}

// Refusal 5.
pub fn sizes_wrong(nodes: usize, jobs: Jobs) -> bool
    requires { jobs.count ≤ 16 }
    ensures { result ≡ sizes_wrong nodes (jobs_in jobs) }
{
    let mut empty = false;
    let mut sum: usize = 0;
    for i in 0..jobs.count {
        let size = usize::from(jobs.size[i]);
        empty |= size == 0;
        sum += size;
    }
    empty | (sum != nodes)
}
