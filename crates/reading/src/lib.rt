// What the programs read: a slice of a fixed size, filled from a reader as far as it goes. A program's arrays have fixed sizes, and what is filled of
// them is lent as a slice: no heap, fixed memory, as the project has it.
#![tactic(auto)]

ghost use Rattle.std.specs.Prelude.{◌≤◌, length};

use std::io::Read;

// Reads until a slice is full, the input ends or a read fails; how many bytes now stand at the slice's start.
pub fn read_full<R: Read>(input: &mut R, bytes: &mut [u8]) -> usize
    ensures { result ≤ length bytes.new }
{
    let size = bytes.len();
    let mut done = 0;
    for _ in 0..size {
        match input.read(&mut bytes[done..]) {
            Ok(0) | Err(_) => break,
            Ok(n) => done += n,
        }
    }
    done
}
