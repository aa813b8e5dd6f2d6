// Refusals 6, 21, and 7 to 9, behind the sizes of the jobs: entries and exits, whether a job ends, and the ends of arcs.
#![tactic(auto)]

ghost use Rattle.std.specs.Prelude.{◌≡◌, ◌+◌, ◌≤◌};
ghost use Rattle.rows.specs.Rows.{place};
ghost use Rattle.sections.specs.Plan.{Plan};
ghost use Rattle.sections.specs.Tables.{jobs_in};
ghost use Rattle.plan.specs.Checks.{first, any_numbered};
ghost use Rattle.plan.specs.Bounds.{OwnersBelow};
ghost use Rattle.plan.specs.Refusals.{stray, all_stand, ends};
ghost use Rattle.refusals.specs.Numbers.{refusal_of};
ghost use Rattle.words.specs.Words.{arcs_on};
ghost use Rattle.ends.specs.Faults.{faults_of, Tested, Lent};

use refusals::Refusal;
use sections::{Decoded, Jobs};

// Refusal 6.
fn any_stray(nodes: usize, owner: &[u8; 256], jobs: Jobs) -> bool
    requires { jobs.count ≤ 16 }
    ensures { result ≡ any_numbered (stray nodes (place owner.now)) (jobs_in jobs) }
{
    let mut found = false;
    for i in 0..jobs.count {
        let entry = usize::from(jobs.entry[i]);
        let exit = usize::from(jobs.exit[i]);
        let entry_job = usize::from(owner[entry]);
        let exit_job = usize::from(owner[exit]);
        let standing = jobs.standing[i] == 1;
        let strange = !(((entry < nodes) & (entry_job == i)) & ((exit < nodes) & (exit_job == i)));
        found |= strange | (standing & (exit != entry));
    }
    found
}

// Refusal 21.
fn all_stand(jobs: Jobs) -> bool
    requires { jobs.count ≤ 16 }
    ensures { result ≡ all_stand (jobs_in jobs) }
{
    let count = jobs.count;
    let mut ending = false;
    for i in 0..count {
        let standing = jobs.standing[i] == 1;
        ending |= !standing;
    }
    (0 < count) & !ending
}

// Whether an arc of a section has the fault of refusal 7, of 8, of 9.
#[derive(Clone, Copy)]
struct Faults {
    apart: bool,
    leaving: bool,
    unknown: bool,
}

// One pass over a section: the arcs that stand from the place `at` on.
fn find_faults(
    d: &Decoded,
    owner: &[u8; 256],
    words: &[u32; 512],
    at: usize,
    count: usize,
) -> Faults
    requires { (at + count ≤ 512) × OwnersBelow 16 owner.now }
    ensures { result ≡ faults_of d.now owner.now (arcs_on words.now at count) }
{
    let nodes = d.nodes;
    let channels = d.channels.count;
    let mut apart = false;
    let mut leaving = false;
    let mut unknown = false;
    for word in &words[at..at + count] {
        let from = words::from_of(*word);
        let to = words::to_of(*word);
        let label = words::label_of(*word);
        let job = usize::from(owner[from]);
        let other = usize::from(owner[to]);
        let exit = usize::from(d.jobs.exit[job]);
        let standing = d.jobs.standing[job] == 1;
        apart |= !((from < nodes) & ((to < nodes) & (job == other)));
        leaving |= !standing & (from == exit);
        unknown |= channels <= label;
    }
    Faults {
        apart,
        leaving,
        unknown,
    }
}

// The first of refusals 6, 21, and 7 to 9, by the jobs and by the faults of the steps, of the calls and of the accepts.
fn first_of(d: &Decoded, owner: &[u8; 256], s: Faults, c: Faults, a: Faults) -> Result<(), Refusal>
    requires { d.now.jobs.count ≤ 16 }
    ensures { (p : Plan) → Tested p d.now owner.now s c a → refusal_of result ≡ first ends p }
{
    let stray = any_stray(d.nodes, owner, d.jobs);
    let standing = all_stand(d.jobs);
    let apart = s.apart | (c.apart | a.apart);
    let leaving = s.leaving | (c.leaving | a.leaving);
    let unknown = c.unknown | a.unknown;
    if stray {
        return Err(Refusal::StrayEnd);
    }
    if standing {
        return Err(Refusal::NoneEnds);
    }
    if apart {
        return Err(Refusal::SplitEnds);
    }
    if leaving {
        return Err(Refusal::ExitLeft);
    }
    if unknown {
        return Err(Refusal::NoChannel);
    }
    Ok(())
}

// Refusals 6, 21, and 7 to 9, from the tables of a plan, the job of each node and the words of its arcs.
pub fn bounded(d: &Decoded, owner: &[u8; 256], words: &[u32; 512]) -> Result<(), Refusal>
    requires { (p : Plan) × Lent p d.now owner.now words.now }
    ensures { (p : Plan) → Lent p d.now owner.now words.now → refusal_of result ≡ first ends p }
{
    let s = find_faults(d, owner, words, 0, d.steps);
    let c = find_faults(d, owner, words, 256, d.calls);
    let a = find_faults(d, owner, words, 384, d.accepts);
    first_of(d, owner, s, c, a)
}
