// The format of a plan before its pattern: its head, where its sections stand, and the tables that keep them.
#![tactic(auto)]

ghost use Rattle.std.specs.Prelude.{◌≡◌, ◌≤◌, length};
ghost use Rattle.sections.specs.Layout.{head_of, end_at};

// What a plan claims of its complete runs.
#[derive(Clone, Copy, Debug, PartialEq, Eq)]
pub enum Kind {
    Every,
    None,
}

// The counts of a plan.
#[derive(Clone, Copy)]
pub struct Head {
    pub jobs: usize,
    pub nodes: usize,
    pub steps: usize,
    pub calls: usize,
    pub accepts: usize,
    pub channels: usize,
    pub kind: usize,
    pub items: usize,
}

// The jobs, a place in each array for each; `standing` has the last bits of their records. They stay four arrays, since they are handed out to C so.
#[derive(Clone, Copy)]
pub struct Jobs {
    pub size: [u16; 16],
    pub entry: [u8; 16],
    pub exit: [u8; 16],
    pub standing: [u8; 16],
    pub count: usize,
}

// The event of each channel: an array that is handed out to C as it stands, and asked past the count.
#[derive(Clone, Copy)]
pub struct Channels {
    pub event: [u8; 64],
    pub count: usize,
}

// What a plan says before its pattern. Of its steps, calls and accepts it has how many there are; they stand in a lent row of words.
#[derive(Clone, Copy)]
pub struct Decoded {
    pub nodes: usize,
    pub kind: Kind,
    pub items: usize,
    pub alphabet: u32,
    pub jobs: Jobs,
    pub steps: usize,
    pub channels: Channels,
    pub calls: usize,
    pub accepts: usize,
}

// The head, 54 bits.
pub fn read_head(plan: &[u8]) -> Head
    requires { 7 ≤ length plan.now }
    ensures { result ≡ head_of plan.now }
{
    Head {
        jobs: fields::field(plan, 0, 5),
        nodes: fields::field(plan, 5, 9),
        steps: fields::field(plan, 14, 9),
        calls: fields::field(plan, 23, 8),
        accepts: fields::field(plan, 31, 8),
        channels: fields::field(plan, 39, 7),
        kind: fields::field(plan, 46, 1),
        items: fields::field(plan, 47, 7),
    }
}

// The place where the sections end and the filling bits begin.
pub fn end_of(h: Head) -> usize
    requires { (h.jobs ≤ 16) × (h.steps ≤ 256) × (h.channels ≤ 64) × (h.calls ≤ 128) × (h.accepts ≤ 128) }
    ensures { result ≡ end_at h }
{
    85 + 26 * h.jobs + 21 * h.steps + 5 * h.channels + 22 * h.calls + 22 * h.accepts
}
