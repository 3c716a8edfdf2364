// Reads a sheet from standard input; writes its page, or `refused`, its number and a feed. Where no page was written, standard error
// says so.
#![tactic(auto)]

use programs::{Fault, accepted, pixel_count, write_fault, write_part};
use reading::read_full;
use station::{station_draw, station_write_page};

// Draws the page on the frame and writes it.
fn write_page_of(
    rt: &HostRuntime,
    sheet: &[u8],
    frame: &mut [u8],
    page: &mut [u8],
) -> Result<(), Fault> {
    accepted(station_draw(sheet, frame))?;
    let reply = station_write_page(sheet, frame, page);
    accepted(reply.code)?;
    write_part(rt, page, reply.value as usize, "page");
    Ok(())
}

// A file of more than 65,536 bytes is read past that limit, and so refused. A page has at most 15 bytes more than pixels.
// Arrays of a fixed size: no heap, fixed memory.
fn main(rt: HostRuntime) {
    let mut file = [0u8; 65537];
    let n = read_full(&mut rt.stdin(), &mut file);
    let sheet = &file[..n];
    let mut frame = [0u8; 65536];
    let mut page = [0u8; 65551];
    let canvas = &mut frame[..pixel_count(sheet)];
    if let Err(fault) = write_page_of(&rt, sheet, canvas, &mut page) {
        write_fault(&rt, fault);
    }
}
