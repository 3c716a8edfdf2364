// Makes a list of edits on a sheet. Reads from standard input the sheet's length (4 bytes, low byte first), the sheet, and the list, of at most
// 65,536 bytes. Writes a line with the reply's six numbers: code, made, left, top, width and height; behind it, if the code is 0, the edited sheet.
// Where the input ends before the sheet does, it writes `too short` and a feed, and for a longer list `too long` and a feed. That there is no edited
// sheet, or that not all of it was written, standard error says as well.
#![tactic(auto)]

ghost use Rattle.std.specs.Prelude.{◌≤◌};

use programs::{Fault, Sides, pixel_count, write_fault, write_part};
use reading::read_full;
use station::station_edit_list;

// Makes a list and writes what came of it.
fn make_list(rt: &HostRuntime, sheet: &mut [u8], frame: &mut [u8], list: &[u8]) {
    let reply = station_edit_list(sheet, frame, list);
    let _ = println!(rt; "{} {} {}", reply.code, reply.made, Sides::from(reply));
    if reply.code != 0 {
        let _ = eprintln!(rt; "list refused");
        return;
    }
    write_part(rt, sheet, sheet.len(), "sheet");
}

// Reads a sheet that fills `sheet`, and a list into `list`, which has a byte more than the longest; makes the list.
fn run(rt: &HostRuntime, sheet: &mut [u8], list: &mut [u8]) -> Result<(), Fault> {
    if read_full(&mut rt.stdin(), sheet) != sheet.len() {
        return Err(Fault::TooShort);
    }
    let n = read_full(&mut rt.stdin(), list);
    if n == list.len() {
        return Err(Fault::TooLong);
    }
    let mut frame = [0u8; 65536];
    let canvas = &mut frame[..pixel_count(sheet)];
    make_list(rt, sheet, canvas, &list[..n]);
    Ok(())
}

// The sheet's length that standard input begins with; of a sheet of more than 65,536 bytes one byte past that limit, and so refused.
fn sheet_length(rt: &HostRuntime) -> usize
    ensures { result ≤ 65537 }
{
    let mut head = [0u8; 4];
    read_full(&mut rt.stdin(), &mut head);
    (u32::from_le_bytes(head) as usize).min(65537)
}

// Arrays of a fixed size: no heap, fixed memory.
fn main(rt: HostRuntime) {
    let mut file = [0u8; 65537];
    let mut list = [0u8; 65537];
    let sheet = &mut file[..sheet_length(&rt)];
    if let Err(fault) = run(&rt, sheet, &mut list) {
        write_fault(&rt, fault);
    }
}
