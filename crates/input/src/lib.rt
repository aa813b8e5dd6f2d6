// Reading an input.
#![tactic(auto)]

ghost use Rattle.std.specs.Counts.{IsPrefixLen};

use std::io::Read;

// Reads until the buffer is full, the input ends or a read fails, and tells how many bytes stand at its start. A `while`, since a read tells how far
// it came.
pub fn read_full<R: Read>(from: &mut R, buffer: &mut [u8]) -> usize
    ensures { IsPrefixLen result buffer.new }
{
    let mut done: usize = 0;
    while done < buffer.len() {
        let Ok(n) = from.read(&mut buffer[done..]) else {
            break;
        };
        if n == 0 {
            break;
        }
        done += n;
    }
    done
}
