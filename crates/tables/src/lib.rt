// The sections of a plan before its pattern, read into tables.
#![tactic(auto)]

ghost use Rattle.std.specs.Prelude.{◌≡◌, ℕ, ◌+◌, ◌*◌, ◌≤◌, length};
ghost use Rattle.fields.specs.Bits.{field_at};
ghost use Rattle.rows.specs.Rows.{row};
ghost use Rattle.sections.specs.Plan.{kind_of};
ghost use Rattle.sections.specs.Layout.{job_bits, job_at, arc_at, plan_under, Readable};
ghost use Rattle.sections.specs.Tables.{job_table, channel_table, decoded_of};
ghost use Rattle.words.specs.Words.{Packed, Worded};

use sections::{Channels, Decoded, Head, Jobs, Kind};

fn kind_of(bit: usize) -> Kind
    ensures { result ≡ kind_of bit }
{
    if bit == 0 { Kind::Every } else { Kind::None }
}

// The jobs that stand from place `at` on.
fn read_jobs(plan: &[u8], at: usize, count: usize) -> Jobs
    requires { (count ≤ 16) × (at ≤ 16384) × (at + job_bits * count ≤ 8 * length plan.now) }
    ensures { result ≡ job_table (row count (λ (i : ℕ). job_at plan.now (at + job_bits * i))) }
{
    let mut size = [0u16; 16];
    let mut entry = [0u8; 16];
    let mut exit = [0u8; 16];
    let mut standing = [0u8; 16];
    for i in 0..count {
        let b = at + 26 * i;
        size[i] = fields::field(plan, b, 9) as u16;
        entry[i] = fields::field(plan, b + 9, 8) as u8;
        exit[i] = fields::field(plan, b + 17, 8) as u8;
        standing[i] = fields::field(plan, b + 25, 1) as u8;
    }
    Jobs {
        size,
        entry,
        exit,
        standing,
        count,
    }
}

// The arcs that stand from the bit `at` on, with labels of `width` bits, each as a word from the place `place` on.
fn read_arcs(
    plan: &[u8],
    width: usize,
    at: usize,
    count: usize,
    words: &mut [u32; 512],
    place: usize,
)
    requires { (width ≤ 8) × (count ≤ 256) × (at ≤ 16384) × (at + (16 + width) * count ≤ 8 * length plan.now) × (place + count ≤ 512) × (length words.old ≡ 512) }
    ensures { Packed (λ (i : ℕ). arc_at plan.now width (at + (16 + width) * i)) place count words.old words.new }
{
    for i in 0..count {
        let arc = fields::field(plan, at + (16 + width) * i, 16 + width);
        let from = arc >> (8 + width);
        let to = (arc >> width) % 256;
        let label = arc % (1 << width);
        words[place + i] = (from + 256 * to + 65536 * label) as u32;
    }
}

// The channels' events that stand from place `at` on.
fn read_channels(plan: &[u8], at: usize, count: usize) -> Channels
    requires { (count ≤ 64) × (at ≤ 16384) × (at + 5 * count ≤ 8 * length plan.now) }
    ensures { result ≡ channel_table (row count (λ (i : ℕ). field_at plan.now (at + 5 * i) 5)) }
{
    let mut event = [0u8; 64];
    for i in 0..count {
        event[i] = fields::field(plan, at + 5 * i, 5) as u8;
    }
    Channels { event, count }
}

// What the plan says before its pattern, under its head. The arcs go into the words.
pub fn decode(plan: &[u8], h: Head, words: &mut [u32; 512]) -> Decoded
    requires { Readable plan.now h × (length words.old ≡ 512) }
    ensures { (result ≡ decoded_of (plan_under plan.now h)) × Worded (plan_under plan.now h) words.old words.new }
{
    let steps_at = 85 + 26 * h.jobs;
    let channels_at = steps_at + 21 * h.steps;
    let calls_at = channels_at + 5 * h.channels;
    let accepts_at = calls_at + 22 * h.calls;
    read_arcs(plan, 5, steps_at, h.steps, words, 0);
    read_arcs(plan, 6, calls_at, h.calls, words, 256);
    read_arcs(plan, 6, accepts_at, h.accepts, words, 384);
    Decoded {
        nodes: h.nodes,
        kind: kind_of(h.kind),
        items: h.items,
        alphabet: fields::events(plan, 54),
        jobs: read_jobs(plan, 85, h.jobs),
        steps: h.steps,
        channels: read_channels(plan, channels_at, h.channels),
        calls: h.calls,
        accepts: h.accepts,
    }
}
