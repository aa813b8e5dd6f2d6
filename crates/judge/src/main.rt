// Reads one plan from standard input, up to 4,096 bytes of it, and prints the line of its answer. An argument is a text, by which the
// plan is judged in place of its own items; with more than one nothing is judged.
#![tactic(auto)]

use line::Line;
use std::env::{Env, FillError};
use std::io;
use std::io::Write;

fn print(rt: &impl Print, line: Line) {
    let _ = io::writer(rt).write_all(&line);
}

// Whether there is an argument of this number. Argument 0 is the program's name.
fn has_argument(rt: &impl Env, number: usize) -> bool {
    let mut first = [0u8; 1];
    match rt.arg(number, &mut first) {
        Err(FillError::NotPresent) => false,
        _ => true,
    }
}

// Judges a plan by the argument. One that does not fit the buffer is longer than any text: the whole buffer stands for it.
fn judge_by_argument(rt: &(impl Print + Env), plan: &[u8]) {
    let mut text = [0u8; 4096];
    match rt.arg(1, &mut text) {
        Ok(n) => print(rt, report::line_for_text(plan, &text[..n])),
        Err(_) => print(rt, report::line_for_text(plan, &text)),
    }
}

fn main(rt: HostRuntime) {
    if has_argument(&rt, 2) {
        let _ = eprintln!(rt; "judge: more than one text");
        return;
    }
    let mut input = [0u8; 4096];
    let n = input::read_full(&mut rt.stdin(), &mut input);
    if has_argument(&rt, 1) {
        judge_by_argument(&rt, &input[..n])
    } else {
        print(&rt, report::line_for(&input[..n]))
    }
}
