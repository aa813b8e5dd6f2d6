// Fields of the bit-packed plan.
#![tactic(auto)]

ghost use Rattle.std.specs.Prelude.{◌≡◌, ◌+◌, ◌*◌, ◌≤◌, ◌<◌, length};
ghost use Rattle.fields.specs.Bits.{field_at, events_at};

// The unsigned field of `width` bits from place `at` on, out of the number that the bytes write which hold it.
pub fn field(plan: &[u8], at: usize, width: usize) -> usize
    requires { (width ≤ 31) × (at ≤ 65536) × (at + width ≤ 8 * length plan.now) }
    ensures { result ≡ field_at plan.now at width }
{
    let skip = at % 8;
    let count = (skip + width + 7) / 8;
    let mut acc: usize = 0;
    for byte in &plan[at / 8..at / 8 + count] {
        acc = acc * 256 + usize::from(*byte);
    }
    (acc >> (8 * count - skip - width)) % (1 << width)
}

// The set of events whose 31 bits stand from place `at` on; event e has weight 2 ^ e. The last bit has the most weight, so
// the bits of the field are taken from its end.
pub fn events(plan: &[u8], at: usize) -> u32
    requires { (at ≤ 65536) × (at + 31 ≤ 8 * length plan.now) }
    ensures { result ≡ events_at plan.now at }
{
    let mut rest = field(plan, at, 31);
    let mut set: usize = 0;
    for _ in 0..31usize {
        set = set * 2 + rest % 2;
        rest /= 2;
    }
    (set * 2) as u32
}
