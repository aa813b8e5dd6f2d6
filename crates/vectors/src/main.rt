// The plans with known verdicts: each is judged, and its line printed, with the row behind it. A row is lent with 7 in every
// place.
#![tactic(auto)]

ghost use Rattle.std.specs.Prelude.{◌≤◌};

// Judges a plan with a row of so many places.
fn replay(rt: &impl Print, name: &[u8], plan: &[u8], places: usize)
    requires { places ≤ 16 }
{
    let mut places_lent = [7u64; 16];
    let row: &mut [u64] = &mut places_lent[..places];
    let answer = verifier::judge(plan, row);
    shown::print_case(rt, name, answer, row);
}

// P, and P cut short or with a short row.
fn of_p(rt: &impl Print) {
    // P: one job of two nodes, 0 to 1 by event 1; the alphabet is {1}, the pattern event 1, the kind every
    let p: &[u8] =
        b"\x08\x08\x02\x00\x00\x00\x06\x00\x00\x00\x00\x08\x00\x04\x00\x02\x10\x30\x00\x00\x00\x00";
    replay(rt, b"P", p, 3);
    replay(rt, b"P, a row of two places", p, 2);
    replay(rt, b"P, a row of one place", p, 1);
    replay(rt, b"P with 10 bytes", &p[..10], 2);
    replay(rt, b"P with 16 bytes", &p[..16], 2);
    replay(rt, b"P without its last byte", &p[..21], 2);
}

// One job, under the pattern of P.
fn one_job(rt: &impl Print) {
    // P of kind none
    replay(
        rt,
        b"P of kind none",
        b"\x08\x08\x02\x00\x00\x02\x06\x00\x00\x00\x00\x08\x00\x04\x00\x02\x10\x30\x00\x00\x00\x00",
        2,
    );
    // one node, entry and exit; alphabet, pattern and kind of P
    replay(
        rt,
        b"one node",
        b"\x08\x04\x00\x00\x00\x00\x06\x00\x00\x00\x00\x04\x00\x00\x30\x00\x00\x00\x00",
        1,
    );
    // the same of kind none
    replay(
        rt,
        b"one node, of kind none",
        b"\x08\x04\x00\x00\x00\x02\x06\x00\x00\x00\x00\x04\x00\x00\x30\x00\x00\x00\x00",
        1,
    );
}

// One job, under an empty alphabet and the empty string.
fn nothing_watched(rt: &impl Print) {
    // P with an empty alphabet, the empty string as pattern, and a quiet step
    replay(
        rt,
        b"one quiet step",
        b"\x08\x08\x02\x00\x00\x00\x04\x00\x00\x00\x00\x08\x00\x04\x00\x02\x00\x00",
        2,
    );
    // in place of the step a call from 0 to 1 that nobody accepts
    replay(
        rt,
        b"a call that nobody accepts",
        b"\x08\x08\x00\x02\x00\x04\x04\x00\x00\x00\x00\x08\x00\x04\x00\x00\x10\x00\x00",
        2,
    );
    // and an accept from 0 to 1 in the same job
    replay(
        rt,
        b"the accept in the same job",
        b"\x08\x08\x00\x02\x02\x04\x04\x00\x00\x00\x00\x08\x00\x04\x00\x00\x10\x00\x00\x40\x00",
        2,
    );
    // one job of eight nodes, entry 0, exit 7, no steps; empty alphabet, the empty string
    replay(
        rt,
        b"eight nodes",
        b"\x08\x20\x00\x00\x00\x00\x04\x00\x00\x00\x00\x20\x00\x1c\x00",
        9,
    );
}

// Patterns with many states.
fn many_states(rt: &impl Print) {
    // P with alphabet {1,2} and the pattern star of {1,2}, then {1}, then {1,2} four times
    replay(
        rt,
        b"four times",
        b"\x08\x08\x02\x00\x00\x00\x33\x00\x00\x00\x00\x08\x00\x04\x00\x02\x10\x38\x00\x00\x00\x21\x80\x00\x00\x00\x8e\x00\x00\x00\x04\x70\x00\x00\x00\x23\x80\x00\x00\x01\x1c\x00\x00\x00\x08",
        2,
    );
    // five times
    replay(
        rt,
        b"five times",
        b"\x08\x08\x02\x00\x00\x00\x3b\x00\x00\x00\x00\x08\x00\x04\x00\x02\x10\x38\x00\x00\x00\x21\x80\x00\x00\x00\x8e\x00\x00\x00\x04\x70\x00\x00\x00\x23\x80\x00\x00\x01\x1c\x00\x00\x00\x08\xe0\x00\x00\x00\x40",
        2,
    );
}

// Jobs that meet.
fn more_jobs(rt: &impl Print) {
    // two jobs: 0 to 1 by event 1, call 1 to 2; accept 3 to 4, 4 to 5 by event 3; the channel gives 2; the pattern is 1, then 2, then 3
    replay(
        rt,
        b"two jobs",
        b"\x10\x18\x04\x02\x02\x04\x17\x80\x00\x00\x00\x0c\x00\x08\x03\x03\x05\x00\x00\x84\x10\x14\x62\x01\x02\x00\x0c\x10\x00\x30\x00\x00\x00\x0a\x00\x00\x00\x04\x48\x00\x00\x00\x20",
        7,
    );
    // three jobs of two nodes: the first calls, the second accepts, by event 1, which is watched; the third has no step
    replay(
        rt,
        b"a watched meeting, and a third job",
        b"\x18\x18\x00\x02\x02\x04\x06\x00\x00\x00\x00\x08\x00\x04\x02\x02\x03\x00\x81\x01\x41\x00\x01\x00\x08\x0c\x00\x30\x00\x00\x00\x00",
        6,
    );
    // the same by event 2, which is not watched
    replay(
        rt,
        b"a meeting that is not watched, and a third job",
        b"\x18\x18\x00\x02\x02\x04\x06\x00\x00\x00\x00\x08\x00\x04\x02\x02\x03\x00\x81\x01\x42\x00\x01\x00\x08\x0c\x00\x30\x00\x00\x00\x00",
        6,
    );
}

// Ordering edges, which hand on the move of a state to the nodes that hold the state.
fn ordering_edges(rt: &impl Print) {
    // one job goes 0 to 1 to 2 by events 1 and 2; the other stays at node 3, and its exit 4 is out of reach; the pattern is 1, then 2
    replay(
        rt,
        b"an onlooker",
        b"\x10\x14\x04\x00\x00\x00\x0f\x00\x00\x00\x00\x0c\x00\x08\x02\x03\x04\x00\x00\x84\x04\x08\x40\x30\x00\x00\x00\x0a\x00\x00\x00\x04",
        5,
    );
    // two jobs meet by event 1, 0 to 1 and 2 to 3, and the second goes on to 4 by event 2; the same pattern
    replay(
        rt,
        b"a meeting, then a step",
        b"\x10\x14\x02\x02\x02\x04\x0f\x00\x00\x00\x00\x08\x00\x04\x03\x02\x04\x01\x82\x08\x20\x00\x20\x01\x01\x80\x30\x00\x00\x00\x0a\x00\x00\x00\x04",
        5,
    );
    // 0 to 1 quiet, 0 to 2 and 1 to 2 by event 1, 1 to 2 by event 2; the other job is node 3; the same pattern
    replay(
        rt,
        b"handed on in two ways",
        b"\x10\x10\x08\x00\x00\x00\x0f\x00\x00\x00\x00\x0c\x00\x08\x01\x03\x03\x00\x00\x80\x00\x08\x20\x20\x41\x01\x02\x10\x30\x00\x00\x00\x0a\x00\x00\x00\x04",
        4,
    );
    // two jobs meet by event 1, 0 to 1 and 2 to 3, and a third goes 4 to 5 by event 2; the same pattern
    replay(
        rt,
        b"a third job that moves",
        b"\x18\x18\x02\x02\x02\x04\x0f\x00\x00\x00\x00\x08\x00\x04\x02\x02\x03\x00\x81\x01\x40\x80\xa2\x08\x00\x08\x00\x40\x60\x00\x30\x00\x00\x00\x0a\x00\x00\x00\x04",
        6,
    );
    // two jobs that never meet, 0 to 1 by event 1 and 2 to 3 by event 2; the pattern is 1 and 2 in either order
    replay(
        rt,
        b"side by side, in either order",
        b"\x10\x10\x04\x00\x00\x00\x1f\x00\x00\x00\x00\x08\x00\x04\x02\x02\x03\x00\x00\x84\x08\x0c\x40\x30\x00\x00\x00\x0a\x00\x00\x00\x04\x50\x00\x00\x00\x18\x00\x00\x00\x09\x80",
        5,
    );
    // the same with event 1 for both; the alphabet is {1}, the pattern 1, then 1
    replay(
        rt,
        b"side by side, both by event 1",
        b"\x10\x10\x04\x00\x00\x00\x0e\x00\x00\x00\x00\x08\x00\x04\x02\x02\x03\x00\x00\x84\x08\x0c\x20\x30\x00\x00\x00\x0c\x00\x00\x00\x04",
        5,
    );
}

// Recess days: plans without jobs.
fn no_jobs(rt: &impl Print) {
    // no jobs, an empty alphabet, the empty string
    replay(
        rt,
        b"no jobs",
        b"\x00\x00\x00\x00\x00\x00\x04\x00\x00\x00\x00\x00",
        2,
    );
    // the same of kind none
    replay(
        rt,
        b"no jobs, of kind none",
        b"\x00\x00\x00\x00\x00\x02\x04\x00\x00\x00\x00\x00",
        2,
    );
    // no jobs, the alphabet, pattern and kind of P
    replay(
        rt,
        b"no jobs, the pattern of P",
        b"\x00\x00\x00\x00\x00\x00\x06\x00\x00\x00\x00\x30\x00\x00\x00\x00",
        2,
    );
    // the same of kind none
    replay(
        rt,
        b"no jobs, the pattern of P, of kind none",
        b"\x00\x00\x00\x00\x00\x02\x06\x00\x00\x00\x00\x30\x00\x00\x00\x00",
        2,
    );
    // the first of these again, with a row of no places
    replay(
        rt,
        b"no jobs, a row of no places",
        b"\x00\x00\x00\x00\x00\x00\x04\x00\x00\x00\x00\x00",
        0,
    );
    // two channels, by events 1 and 0
    replay(
        rt,
        b"no jobs, and channels",
        b"\x00\x00\x00\x00\x00\x08\x04\x00\x00\x00\x00\x40\x00",
        0,
    );
}

// Plans that come near to one without jobs.
fn nearly_no_jobs(rt: &impl Print) {
    // jobs 0 with nodes 1
    replay(
        rt,
        b"nodes without jobs",
        b"\x00\x04\x00\x00\x00\x00\x04\x00\x00\x00\x00\x00",
        2,
    );
    // jobs 1 with nodes 0, the job of size 1
    replay(
        rt,
        b"a job without nodes",
        b"\x08\x00\x00\x00\x00\x00\x04\x00\x00\x00\x00\x04\x00\x00\x00",
        2,
    );
    // a step from 0 to 0
    replay(
        rt,
        b"a step without jobs",
        b"\x00\x00\x02\x00\x00\x00\x04\x00\x00\x00\x00\x00\x00\x00\x00",
        2,
    );
    // no jobs, an empty alphabet, the empty string, and the last filling bit set
    replay(
        rt,
        b"no jobs, and a filling bit",
        b"\x00\x00\x00\x00\x00\x00\x04\x00\x00\x00\x01\x00",
        2,
    );
}

// Standing services.
fn standing_jobs(rt: &impl Print) {
    // the memory stands: it accepts 0 to 1 by event 1, then 1 to 1 by event 2, and goes 1 to 1 quietly; the importer calls 2 to 3, the publisher
    // 4 to 5, and goes on to 6 by event 3; the pattern is 1, then 2, then 3
    replay(
        rt,
        b"a memory that stands",
        b"\x18\x1c\x04\x04\x04\x08\x17\x80\x00\x00\x00\x08\x00\x02\x02\x02\x03\x00\xc1\x01\x80\x20\x20\x05\x06\x18\x44\x04\x06\x00\x20\x28\x20\x00\x20\x00\x80\x82\x30\x00\x00\x00\x0a\x00\x00\x00\x04\x48\x00\x00\x00\x20",
        7,
    );
    // two jobs, 0 to 1 by event 1, 2 to 3 quietly; the first stands; the pattern of P, of kind none: its exit field, 0, would leave {0}
    replay(
        rt,
        b"the first of two jobs stands, of kind none",
        b"\x10\x10\x04\x00\x00\x02\x06\x00\x00\x00\x00\x08\x00\x02\x02\x02\x03\x00\x00\x84\x08\x0c\x00\x30\x00\x00\x00\x00",
        5,
    );
    // the same, of kind every, and the second stands: a step leaves its entry
    replay(
        rt,
        b"the second of two jobs stands",
        b"\x10\x10\x04\x00\x00\x00\x06\x00\x00\x00\x00\x08\x00\x04\x02\x02\x02\x80\x00\x84\x08\x0c\x00\x30\x00\x00\x00\x00",
        5,
    );
    // the same with the first job's step from its exit
    replay(
        rt,
        b"a step leaves the exit of the job that ends",
        b"\x10\x10\x04\x00\x00\x00\x06\x00\x00\x00\x00\x08\x00\x04\x02\x02\x02\x80\x80\x04\x08\x0c\x00\x30\x00\x00\x00\x00",
        5,
    );
}

// Standing services that are refused.
fn refused_services(rt: &impl Print) {
    // the first of two jobs stands, and its exit field is 1
    replay(
        rt,
        b"an exit field that differs",
        b"\x10\x10\x04\x00\x00\x00\x06\x00\x00\x00\x00\x08\x00\x06\x02\x02\x03\x00\x00\x84\x08\x0c\x00\x30\x00\x00\x00\x00",
        4,
    );
    // both jobs stand
    replay(
        rt,
        b"both jobs stand",
        b"\x10\x10\x04\x00\x00\x00\x06\x00\x00\x00\x00\x08\x00\x02\x02\x02\x02\x80\x00\x84\x08\x0c\x00\x30\x00\x00\x00\x00",
        4,
    );
    // the same with a step from 0 to 3, which would be 7
    replay(
        rt,
        b"both jobs stand, and a step leads from job to job",
        b"\x10\x10\x04\x00\x00\x00\x06\x00\x00\x00\x00\x08\x00\x02\x02\x02\x02\x80\x01\x84\x08\x0c\x00\x30\x00\x00\x00\x00",
        4,
    );
    // the same with the second exit field 3, which is 6
    replay(
        rt,
        b"both jobs stand, and an exit field differs",
        b"\x10\x10\x04\x00\x00\x00\x06\x00\x00\x00\x00\x08\x00\x02\x02\x02\x03\x80\x01\x84\x08\x0c\x00\x30\x00\x00\x00\x00",
        4,
    );
    // P whose job stands, with its entry for exit
    replay(
        rt,
        b"P whose job stands",
        b"\x08\x08\x02\x00\x00\x00\x06\x00\x00\x00\x00\x08\x00\x02\x00\x02\x10\x30\x00\x00\x00\x00",
        2,
    );
}

// Heads and jobs that are refused, a plan for each number that is not yet among them.
fn refused_jobs(rt: &impl Print) {
    // P with 17 jobs
    replay(
        rt,
        b"P with 17 jobs",
        b"\x88\x08\x02\x00\x00\x00\x06\x00\x00\x00\x00\x08\x00\x04\x00\x02\x10\x30\x00\x00\x00\x00",
        2,
    );
    // P with its byte 10 made 11
    replay(
        rt,
        b"P with a filling bit",
        b"\x08\x08\x02\x00\x00\x00\x06\x00\x00\x00\x00\x08\x00\x04\x00\x02\x11\x30\x00\x00\x00\x00",
        2,
    );
    // P with a job of size 1
    replay(
        rt,
        b"P with job size 1",
        b"\x08\x08\x02\x00\x00\x00\x06\x00\x00\x00\x00\x04\x00\x04\x00\x02\x10\x30\x00\x00\x00\x00",
        2,
    );
    // P with exit 2
    replay(
        rt,
        b"P with exit 2",
        b"\x08\x08\x02\x00\x00\x00\x06\x00\x00\x00\x00\x08\x00\x08\x00\x02\x10\x30\x00\x00\x00\x00",
        2,
    );
}

// Steps and calls that are refused, likewise.
fn refused_steps(rt: &impl Print) {
    // two jobs of two nodes, and a step from 0 to 2
    replay(
        rt,
        b"a step from job to job",
        b"\x10\x10\x02\x00\x00\x00\x06\x00\x00\x00\x00\x08\x00\x04\x02\x02\x03\x00\x01\x04\x30\x00\x00\x00\x00",
        4,
    );
    // P with its step from 1 to 0
    replay(
        rt,
        b"P with its step turned round",
        b"\x08\x08\x02\x00\x00\x00\x06\x00\x00\x00\x00\x08\x00\x04\x02\x00\x10\x30\x00\x00\x00\x00",
        2,
    );
    // P with a call on channel 0 in place of its step, and no channels
    replay(
        rt,
        b"a call without its channel",
        b"\x08\x08\x00\x02\x00\x00\x06\x00\x00\x00\x00\x08\x00\x04\x00\x02\x00\x30\x00\x00\x00\x00",
        2,
    );
}

// Items that are refused, likewise.
fn refused_items(rt: &impl Print) {
    // P with an item of kind 5
    replay(
        rt,
        b"an item of kind 5",
        b"\x08\x08\x02\x00\x00\x00\x06\x00\x00\x00\x00\x08\x00\x04\x00\x02\x10\xa0",
        2,
    );
    // P with the pattern event 2
    replay(
        rt,
        b"an event outside the alphabet",
        b"\x08\x08\x02\x00\x00\x00\x06\x00\x00\x00\x00\x08\x00\x04\x00\x02\x10\x28\x00\x00\x00\x00",
        2,
    );
    // P with a star alone
    replay(
        rt,
        b"a star alone",
        b"\x08\x08\x02\x00\x00\x00\x06\x00\x00\x00\x00\x08\x00\x04\x00\x02\x10\x80",
        2,
    );
    // P with the items {1} and {1}
    replay(
        rt,
        b"two operands left",
        b"\x08\x08\x02\x00\x00\x00\x0a\x00\x00\x00\x00\x08\x00\x04\x00\x02\x10\x30\x00\x00\x00\x0c\x00\x00\x00\x00",
        2,
    );
    // P with its last byte 01
    replay(
        rt,
        b"P with last byte 01",
        b"\x08\x08\x02\x00\x00\x00\x06\x00\x00\x00\x00\x08\x00\x04\x00\x02\x10\x30\x00\x00\x00\x01",
        2,
    );
}

fn main(rt: HostRuntime) {
    of_p(&rt);
    one_job(&rt);
    nothing_watched(&rt);
    many_states(&rt);
    more_jobs(&rt);
    ordering_edges(&rt);
    no_jobs(&rt);
    nearly_no_jobs(&rt);
    standing_jobs(&rt);
    refused_services(&rt);
    refused_jobs(&rt);
    refused_steps(&rt);
    refused_items(&rt);
}
