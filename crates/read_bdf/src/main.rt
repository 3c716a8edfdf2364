// Reads a BDF file from standard input; writes its font, or `refused`, its number and a feed. For a file of more than 4,194,304 bytes it writes
// `too long` and a feed. Where no font was written, standard error says so.
#![tactic(auto)]

use programs::{Fault, accepted, write_fault, write_part};
use reading::read_full;
use station::station_read_bdf;

// Reads a file from standard input into `file`, which has a byte more than the longest, and writes its font by way of `font`.
fn run(rt: &HostRuntime, file: &mut [u8], font: &mut [u8]) -> Result<(), Fault> {
    let n = read_full(&mut rt.stdin(), file);
    if n == file.len() {
        return Err(Fault::TooLong);
    }
    let reply = station_read_bdf(&file[..n], font);
    accepted(reply.code)?;
    write_part(rt, font, reply.value as usize, "font");
    Ok(())
}

// Arrays of a fixed size: no heap, fixed memory.
fn main(rt: HostRuntime) {
    let mut file = [0u8; 4194305];
    let mut font = [0u8; 1048576];
    if let Err(fault) = run(&rt, &mut file, &mut font) {
        write_fault(&rt, fault);
    }
}
