// Texts by which plans are judged: each case is printed as it was read, with the line of its answer and the row behind it. A case is a
// line of the input: a letter for the plan, how many places are lent, a blank, and the text. A row is lent with 7 in every place.
#![tactic(auto)]

ghost use Rattle.std.specs.Prelude.{◌≤◌};

// Judges a plan by a text with a row of so many places.
fn replay(rt: &impl Print, name: &[u8], plan: &[u8], text: &[u8], places: usize)
    requires { places ≤ 8 }
{
    let mut lent = [7u64; 8];
    let row: &mut [u64] = &mut lent[..places];
    let answer = typed::judge_text(plan, text, row);
    shown::print_case(rt, name, answer, row);
}

// P, and a byte more: one job of two nodes, 0 to 1 by event 1; the alphabet is {1}, the pattern event 1, the kind every.
const P: &[u8] =
    b"\x08\x08\x02\x00\x00\x00\x06\x00\x00\x00\x00\x08\x00\x04\x00\x02\x10\x30\x00\x00\x00\x00\x00";

// P with an alphabet of all 31 events.
const ALL_EVENTS: &[u8] =
    b"\x08\x08\x02\x00\x00\x00\x07\xff\xff\xff\xf8\x08\x00\x04\x00\x02\x10\x30\x00\x00\x00\x00";

// Two jobs: 0 to 1 by event 1, call 1 to 2; accept 3 to 4, 4 to 5 by event 3; the channel gives 2; the pattern is 1, then 2, then 3.
const TWO_JOBS: &[u8] =
    b"\x10\x18\x04\x02\x02\x04\x17\x80\x00\x00\x00\x0c\x00\x08\x03\x03\x05\x00\x00\x84\x10\x14\x62\x01\x02\x00\x0c\x10\x00\x30\x00\x00\x00\x0a\x00\x00\x00\x04\x48\x00\x00\x00\x20";

// P with alphabet {1,2} and the pattern star of {1,2}, then {1}, then {1,2} five times, which has 65 states.
const FIVE_TIMES: &[u8] =
    b"\x08\x08\x02\x00\x00\x00\x3b\x00\x00\x00\x00\x08\x00\x04\x00\x02\x10\x38\x00\x00\x00\x21\x80\x00\x00\x00\x8e\x00\x00\x00\x04\x70\x00\x00\x00\x23\x80\x00\x00\x01\x1c\x00\x00\x00\x08\xe0\x00\x00\x00\x40";

// No jobs, the alphabet and pattern of P.
const RECESS: &[u8] = b"\x00\x00\x00\x00\x00\x00\x06\x00\x00\x00\x00\x30\x00\x00\x00\x00";

// A memory that stands, accepts 0 to 1 by event 1 and 1 to 1 by event 2; two jobs call it, 2 to 3 and 4 to 5, and the second goes on to 6 by
// event 3; the pattern is 1, then 2, then 3.
const MEMORY: &[u8] =
    b"\x18\x1c\x04\x04\x04\x08\x17\x80\x00\x00\x00\x08\x00\x02\x02\x02\x03\x00\xc1\x01\x80\x20\x20\x05\x06\x18\x44\x04\x06\x00\x20\x28\x20\x00\x20\x00\x80\x82\x30\x00\x00\x00\x0a\x00\x00\x00\x04\x48\x00\x00\x00\x20";

// The same without the two jobs that end, which is refused by 21.
const NONE_ENDS: &[u8] =
    b"\x08\x08\x02\x00\x04\x08\x17\x80\x00\x00\x00\x08\x00\x02\x02\x02\x00\x88\x00\x04\x00\x10\x10\x40\x30\x00\x00\x00\x0a\x00\x00\x00\x04\x48\x00\x00\x00\x20";

// The plan that a letter names, if it names one.
fn plan_of(letter: u8) -> Option<&'static [u8]> {
    match letter {
        b'P' => Some(&P[..22]),
        // P without its last byte, which is refused by 10
        b'L' => Some(&P[..21]),
        // P with a byte more, which is refused by 15
        b'M' => Some(P),
        b'A' => Some(ALL_EVENTS),
        b'T' => Some(TWO_JOBS),
        b'F' => Some(FIVE_TIMES),
        b'R' => Some(RECESS),
        b'S' => Some(MEMORY),
        b'N' => Some(NONE_ENDS),
        _ => None,
    }
}

// The number that a digit names, at most 8; of any other byte 0.
fn number(digit: u8) -> usize
    ensures { result ≤ 8 }
{
    match digit {
        b'0'..=b'8' => usize::from(digit - b'0'),
        _ => 0,
    }
}

// Replays one case: a letter that names no plan prints nothing.
fn replay_line(rt: &impl Print, line: &[u8]) {
    if line.len() < 3 {
        return;
    }
    if let Some(plan) = plan_of(line[0]) {
        replay(rt, line, plan, &line[3..], number(line[1]));
    }
}

// Texts that no line holds.
fn replay_others(rt: &impl Print) {
    replay(rt, b"a, and a line feed", &P[..22], b"a\n", 2);
    replay(rt, b"byte 200", &P[..22], b"\xc8", 2);
}

fn main(rt: HostRuntime) {
    let mut input = [0u8; 4096];
    let n = input::read_full(&mut rt.stdin(), &mut input);
    for line in input[..n].split(|byte| *byte == b'\n') {
        replay_line(&rt, line);
    }
    replay_others(&rt);
}
