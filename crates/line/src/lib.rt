// The line that tells an answer.
#![tactic(auto)]

ghost use Rattle.std.specs.Prelude.{◌≡◌, ◌++◌, ◌+◌, ◌≤◌, ◌<◌, length};
ghost use Rattle.arrayvec.specs.ArrayVec.{array_vec_len};
ghost use Rattle.line.specs.Line.{decimal, hexadecimal, fields, line_by};

use arrayvec::ArrayVec;
use verdict::{Counts, Numbered, Verdict};

// The bytes of a line, in fixed memory.
pub type Line = ArrayVec<u8, 128>;

// A text, behind the line.
fn add_text(line: &mut Line, text: &[u8])
    requires { array_vec_len line.old + length text.now ≤ 128 }
    ensures { line.new.items ≡ line.old.items ++ text.now }
{
    let _fits = line.try_extend_from_slice(text);
}

// A text and a number in decimal, behind the line.
fn add_count(line: &mut Line, text: &[u8], n: u32)
    requires { array_vec_len line.old + length text.now + 10 ≤ 128 }
    ensures { (line.new.items ≡ line.old.items ++ text.now ++ decimal n) × (length (decimal n) ≤ 10) }
{
    let mut digits = [0u8; 20];
    let k = io::decimal(u64::from(n), &mut digits);
    add_text(line, text);
    add_text(line, &digits[..k]);
}

// A text and a set in hexadecimal, behind the line.
fn add_set(line: &mut Line, text: &[u8], m: u64)
    requires { array_vec_len line.old + length text.now + 16 ≤ 128 }
    ensures { line.new.items ≡ line.old.items ++ text.now ++ hexadecimal m }
{
    let mut digits = [0u8; 16];
    let k = io::hex(m, 16, &mut digits);
    add_text(line, text);
    add_text(line, &digits[..k]);
}

// The counts and the final set of a verdict, behind its word.
fn add_fields(line: &mut Line, c: Counts)
    requires { array_vec_len line.old ≤ 12 }
    ensures { (line.new.items ≡ line.old.items ++ fields c) × (array_vec_len line.new < 128) }
{
    add_count(line, b" states ", c.states);
    add_count(line, b" meetings ", c.meetings);
    add_count(line, b" ordering ", c.ordering);
    add_count(line, b" pairs ", c.pairs);
    add_count(line, b" fill ", c.fill);
    add_set(line, b" final ", c.ends);
}

// The line that tells an answer.
pub fn line_of<R: Numbered>(a: Result<Verdict, R>) -> Line
    ensures { (result.items ≡ line_by R.numbering a) × (array_vec_len result ≤ 128) }
{
    let mut line = Line::new();
    match a {
        Err(refusal) => add_count(&mut line, b"refused ", refusal.number()),
        Ok(Verdict::Verified(c)) => {
            add_text(&mut line, b"verified");
            add_fields(&mut line, c);
        }
        Ok(Verdict::Inconclusive(c)) => {
            add_text(&mut line, b"inconclusive");
            add_fields(&mut line, c);
        }
    }
    add_text(&mut line, b"\n");
    line
}
