// What is printed of a case that is replayed.
#![tactic(auto)]

ghost use Rattle.std.specs.Prelude.{◌≡◌, length};

use std::io;
use std::io::Write;
use verdict::{Numbered, Verdict};

// Prints what stands in a row, in hexadecimal, and tells how many places it printed: all of them.
fn print_row(rt: &impl Print, row: &[u64]) -> usize
    ensures { result ≡ length row.now }
{
    let mut printed: usize = 0;
    let _ = print!(rt; "  row");
    for set in row {
        let _ = print!(rt; " {set:x}");
        printed += 1;
    }
    let _ = println!(rt; "");
    printed
}

// Prints the name of a case, the line of its answer, and the row behind it, and tells how many places of the row it printed: all of
// them. What is written no contract can say.
pub fn print_case<R: Numbered>(
    rt: &impl Print,
    name: &[u8],
    answer: Result<Verdict, R>,
    row: &[u64],
) -> usize
    ensures { result ≡ length row.now }
{
    let line = line::line_of(answer);
    let mut out = io::writer(rt);
    let _ = out.write_all(name);
    let _ = out.write_all(b"\n  ");
    let _ = out.write_all(&line);
    print_row(rt, row)
}
