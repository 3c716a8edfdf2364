// Reads a sheet from standard input; writes a line for each item: its number, the left, top, width and height of its measured box, the
// x and y of its next position, and how many of its characters are replaced. For a sheet that is refused it writes `refused`, its number and a
// feed. Where not all lines were written, standard error says so.
#![tactic(auto)]

use programs::{Fault, Sides, pixel_count, write_fault};
use reading::read_full;
use station::{station_bounding_box, station_draw_item};
use std::io;

// Writes an item's line.
fn write_item(out: &impl Print, sheet: &[u8], frame: &mut [u8], item: u32) -> io::Result<()> {
    let area = Sides::from(station_bounding_box(sheet, item));
    let drawn = station_draw_item(sheet, frame, item);
    println!(out; "{item} {area} {} {} {}", drawn.x, drawn.y, drawn.replaced)
}

// Writes a line for each item of a sheet.
fn write_items(rt: &HostRuntime, sheet: &[u8], frame: &mut [u8]) -> Result<(), Fault> {
    let accepted = sheet::accepted(sheet)?;
    let mut written = true;
    for item in 0..accepted.header().item_count() {
        written &= write_item(rt, sheet, frame, item).is_ok();
    }
    if !written {
        let _ = eprintln!(rt; "items not written");
    }
    Ok(())
}

// A file of more than 65,536 bytes is read past that limit, and so refused.
// Arrays of a fixed size: no heap, fixed memory.
fn main(rt: HostRuntime) {
    let mut file = [0u8; 65537];
    let n = read_full(&mut rt.stdin(), &mut file);
    let sheet = &file[..n];
    let mut frame = [0u8; 65536];
    let canvas = &mut frame[..pixel_count(sheet)];
    if let Err(fault) = write_items(&rt, sheet, canvas) {
        write_fault(&rt, fault);
    }
}
