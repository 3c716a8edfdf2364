// Stored BDF files, read from standard input, through the call. Of each a line of output: its number and `refused` with the refusal, or `font` with
// the font's length and hash, and then a second line: `short` with the code for an output one byte shorter than the font. Where a call that is
// refused changed its output, its line ends with `changed`. A write that fails is let pass.
#![tactic(auto)]

use reading::read_full;
use replay::{Entries, part, store, u32_of};
use station::{Number, station_read_bdf};

// The hash of bytes: from 0, each makes it 31 times as much, and the byte, modulo 1,000,003.
fn hash(bytes: &[u8]) -> u64 {
    bytes.iter().fold(0, |hash, byte| {
        (hash % 1000003 * 31 + u64::from(*byte)) % 1000003
    })
}

// Reads a file with an output that holds `filled` before.
fn read_filled(file: &[u8], filled: &[u8], output: &mut [u8]) -> Number {
    store(output, 0, filled);
    station_read_bdf(file, output)
}

// What ends a line about an output that was to stay as it was filled.
fn if_changed(filled: &[u8], output: &[u8]) -> &'static str {
    if output == filled { "" } else { " changed" }
}

// Reads a file with an output that is too short for its font.
fn show_short(out: &impl Print, number: usize, file: &[u8], filled: &[u8], output: &mut [u8]) {
    let code = read_filled(file, filled, output).code;
    let _ = println!(out; "{number} short {code}{}", if_changed(filled, output));
}

fn show_file(out: &impl Print, number: usize, file: &[u8], filled: &[u8], output: &mut [u8]) {
    let Number { code, value } = read_filled(file, filled, output);
    if code != 0 {
        let _ = println!(out; "{number} refused {code}{}", if_changed(filled, output));
        return;
    }
    let size = value as usize;
    let _ = println!(out; "{number} font {size} {}", hash(part(output, 0, size)));
    if 0 < size && size <= output.len() {
        let end = size - 1;
        show_short(out, number, file, part(filled, 0, end), &mut output[..end]);
    }
}

// The list has at most 262,144 bytes: records of 4 bytes for a length, then a file of that length.
// Arrays of a fixed size: no heap, fixed memory.
fn main(rt: HostRuntime) {
    let mut input = [0u8; 262145];
    let n = read_full(&mut rt.stdin(), &mut input);
    let list = Entries::of(&input[..n], |record| 4 + u32_of(record) as usize);
    let filled = [0xA5u8; 65536];
    let mut output = [0u8; 65536];
    for (number, record) in list.enumerate() {
        let file = part(record, 4, u32_of(record) as usize);
        show_file(&rt, number, file, &filled, &mut output);
    }
}
