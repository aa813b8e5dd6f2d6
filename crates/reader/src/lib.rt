// The reader of a plan: the refusals before the pattern, or the plan's tables.
#![tactic(auto)]

ghost use Rattle.std.specs.Prelude.{◌≡◌, ◌++◌, ◌+◌, ◌≤◌, length, take, replicate, IfOk};
ghost use Rattle.std.proofs.Math.Option.{none};
ghost use Rattle.rows.specs.Rows.{padded};
ghost use Rattle.sections.specs.Tables.{sizes, jobs_in};
ghost use Rattle.sections.specs.Layout.{plan_of};
ghost use Rattle.plan.specs.Checks.{first};
ghost use Rattle.plan.specs.Nodes.{owners, total};
ghost use Rattle.plan.specs.Refusals.{framing, shape, order};
ghost use Rattle.words.specs.Words.{Worded};
ghost use Rattle.refusals.specs.Numbers.{refusal_of};
ghost use Rattle.reader.specs.Reading.{accepted, WordsOf};

use refusals::Refusal;
use sections::{Decoded, Jobs};

// A plan that was read: its tables, the job of each node, and the byte where the pattern starts.
#[derive(Drop)]
pub struct Reading {
    pub plan: Decoded,
    pub owner: [u8; 256],
    pub pattern: usize,
}

// `size` nodes from the node `at` on are of the job `job`.
fn own(owner: &mut [u8; 256], at: usize, size: usize, job: u8)
    requires { (at + size ≤ 256) × (owner.old ≡ padded 256 (take at owner.old)) × (length (take at owner.old) ≡ at) }
    ensures { owner.new ≡ padded 256 (take at owner.old ++ replicate size job) }
{
    owner[at..at + size].fill(job);
}

// The job of each node.
pub fn owners_of(jobs: Jobs) -> [u8; 256]
    requires { (jobs.count ≤ 16) × (total (sizes (jobs_in jobs)) ≤ 256) }
    ensures { result ≡ padded 256 (owners (jobs_in jobs)) }
{
    let mut owner = [0u8; 256];
    let mut at: usize = 0;
    for i in 0..jobs.count {
        let size = usize::from(jobs.size[i]);
        own(&mut owner, at, size, i as u8);
        at += size;
    }
    owner
}

// The reading of a plan that passed refusals 1 to 4. Its arcs go into the words.
pub fn read_sections(plan: &[u8], words: &mut [u32; 512]) -> Result<Reading, Refusal>
    requires { (first framing plan.now ≡ none) × (length words.old ≡ 512) }
    ensures refusal { refusal_of result ≡ first shape (plan_of plan.now) }
    ensures plan { IfOk result (λ reading. reading ≡ accepted plan.now) }
    ensures words { Worded (plan_of plan.now) words.old words.new }
{
    let h = sections::read_head(plan);
    let d = tables::decode(plan, h, words);
    if plan::sizes_wrong(d.nodes, d.jobs) {
        return Err(Refusal::WrongSizes);
    }
    let owner = owners_of(d.jobs);
    ends::bounded(&d, &owner, words)?;
    Ok(Reading {
        plan: d,
        owner,
        pattern: (sections::end_of(h) + 7) / 8,
    })
}

// The plan that the bytes hold, or the first refusal of 1 to 9 and 21 that applies. Where none of 1 to 4 does, its arcs go into the words.
pub fn read_plan(plan: &[u8], words: &mut [u32; 512]) -> Result<Reading, Refusal>
    requires { length words.old ≡ 512 }
    ensures refusal { refusal_of result ≡ first order plan.now }
    ensures plan { IfOk result (λ reading. reading ≡ accepted plan.now) }
    ensures words { WordsOf plan.now words.old words.new }
{
    plan::framed(plan)?;
    read_sections(plan, words)
}
