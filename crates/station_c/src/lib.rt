// The calls that libstation.a exports, for a host in C: each is the call of crate station by the same name, and promises the same.
#![tactic(auto)]

ghost use Rattle.std.specs.Prelude.{◌≡◌, length};
ghost use Rattle.sheet.specs.Check.{check};
ghost use Rattle.sheet.specs.Edits.{new_text, new_place, new_style};
ghost use Rattle.bdf.specs.Font.{written};
ghost use Rattle.calls.specs.Calls.{index_reply, contains_reply, bounding_box_reply, draw_item_reply, draw_item_frame, whitespace_reply, whitespace_frame, draw_code, draw_frame, edit_reply, edit_sheet, edit_frame, edit_list_reply, edit_list_sheet, edit_list_frame, on_sheet_reply, on_sheet_sheet, page_reply, page_output, read_bdf_reply, walk_reply};

use calls::{Batch, Box, Drawn, Glyph, Number, Position, Step};

// The number of the sheet's first refusal, or 0 for a sheet that is accepted.
#[unsafe(no_mangle)]
pub extern "C" fn station_check(sheet: &[u8]) -> u32
    ensures { result ≡ check sheet.now }
{
    station::station_check(sheet)
}

// The index of a character's glyph in a font, and 1 if the font's mapping lists the character, else 0.
#[unsafe(no_mangle)]
pub extern "C" fn station_index(sheet: &[u8], font: u32, character: u32) -> Glyph
    ensures { result ≡ index_reply sheet.now font character }
{
    station::station_index(sheet, font, character)
}

// Whether a font's mapping lists a character: 1 or 0.
#[unsafe(no_mangle)]
pub extern "C" fn station_contains(sheet: &[u8], font: u32, character: u32) -> Number
    ensures { result ≡ contains_reply sheet.now font character }
{
    station::station_contains(sheet, font, character)
}

// The measured box of an item.
#[unsafe(no_mangle)]
pub extern "C" fn station_bounding_box(sheet: &[u8], item: u32) -> Box
    ensures { result ≡ bounding_box_reply sheet.now item }
{
    station::station_bounding_box(sheet, item)
}

// Draws an item on the frame; gives the next position, and how many characters of its lines the font's mapping does not list.
#[unsafe(no_mangle)]
pub extern "C" fn station_draw_item(sheet: &[u8], frame: &mut [u8], item: u32) -> Drawn
    ensures value { result ≡ draw_item_reply sheet.now frame.old item }
    ensures frame_after { frame.new ≡ draw_item_frame sheet.now frame.old item }
{
    station::station_draw_item(sheet, frame, item)
}

// Draws whitespace of a width at an item's place on the frame; gives the next position.
#[unsafe(no_mangle)]
pub extern "C" fn station_draw_whitespace(
    sheet: &[u8],
    frame: &mut [u8],
    item: u32,
    width: u32,
) -> Position
    ensures value { result ≡ whitespace_reply sheet.now frame.old item width }
    ensures frame_after { frame.new ≡ whitespace_frame sheet.now frame.old item width }
{
    station::station_draw_whitespace(sheet, frame, item, width)
}

// Draws the page on the frame.
#[unsafe(no_mangle)]
pub extern "C" fn station_draw(sheet: &[u8], frame: &mut [u8]) -> u32
    ensures value { result ≡ draw_code sheet.now frame.old }
    ensures frame_after { frame.new ≡ draw_frame sheet.now frame.old }
{
    station::station_draw(sheet, frame)
}

// Gives an item a new text, and repaints its damage rectangle, which it gives.
#[unsafe(no_mangle)]
pub extern "C" fn station_set_text(
    sheet: &mut [u8],
    frame: &mut [u8],
    item: u32,
    text: &[u8],
) -> Box
    ensures value { result ≡ edit_reply sheet.old frame.old (new_text item text.now) }
    ensures sheet_after { sheet.new ≡ edit_sheet sheet.old frame.old (new_text item text.now) }
    ensures frame_after { frame.new ≡ edit_frame sheet.old frame.old (new_text item text.now) }
{
    station::station_set_text(sheet, frame, item, text)
}

// Gives an item a new place, and repaints its damage rectangle, which it gives.
#[unsafe(no_mangle)]
pub extern "C" fn station_set_place(
    sheet: &mut [u8],
    frame: &mut [u8],
    item: u32,
    x: i32,
    y: i32,
) -> Box
    ensures value { result ≡ edit_reply sheet.old frame.old (new_place item x y) }
    ensures sheet_after { sheet.new ≡ edit_sheet sheet.old frame.old (new_place item x y) }
    ensures frame_after { frame.new ≡ edit_frame sheet.old frame.old (new_place item x y) }
{
    station::station_set_place(sheet, frame, item, x, y)
}

// Gives an item a new style, and repaints its damage rectangle, which it gives.
#[unsafe(no_mangle)]
pub extern "C" fn station_set_style(
    sheet: &mut [u8],
    frame: &mut [u8],
    item: u32,
    style: &[u8],
) -> Box
    ensures value { result ≡ edit_reply sheet.old frame.old (new_style item style.now) }
    ensures sheet_after { sheet.new ≡ edit_sheet sheet.old frame.old (new_style item style.now) }
    ensures frame_after { frame.new ≡ edit_frame sheet.old frame.old (new_style item style.now) }
{
    station::station_set_style(sheet, frame, item, style)
}

// Makes a list of edits in order, up to the first that is refused; gives how many were made, and the smallest rectangle that holds those that they
// repainted.
#[unsafe(no_mangle)]
pub extern "C" fn station_edit_list(sheet: &mut [u8], frame: &mut [u8], list: &[u8]) -> Batch
    ensures value { result ≡ edit_list_reply sheet.old frame.old list.now }
    ensures sheet_after { sheet.new ≡ edit_list_sheet sheet.old frame.old list.now }
    ensures frame_after { frame.new ≡ edit_list_frame sheet.old frame.old list.now }
{
    station::station_edit_list(sheet, frame, list)
}

// Gives an item a new text on the sheet alone; gives the damage rectangle.
#[unsafe(no_mangle)]
pub extern "C" fn station_set_text_on_sheet(sheet: &mut [u8], item: u32, text: &[u8]) -> Box
    ensures value { result ≡ on_sheet_reply sheet.old (new_text item text.now) }
    ensures sheet_after { sheet.new ≡ on_sheet_sheet sheet.old (new_text item text.now) }
{
    station::station_set_text_on_sheet(sheet, item, text)
}

// Gives an item a new place on the sheet alone; gives the damage rectangle.
#[unsafe(no_mangle)]
pub extern "C" fn station_set_place_on_sheet(sheet: &mut [u8], item: u32, x: i32, y: i32) -> Box
    ensures value { result ≡ on_sheet_reply sheet.old (new_place item x y) }
    ensures sheet_after { sheet.new ≡ on_sheet_sheet sheet.old (new_place item x y) }
{
    station::station_set_place_on_sheet(sheet, item, x, y)
}

// Gives an item a new style on the sheet alone; gives the damage rectangle.
#[unsafe(no_mangle)]
pub extern "C" fn station_set_style_on_sheet(sheet: &mut [u8], item: u32, style: &[u8]) -> Box
    ensures value { result ≡ on_sheet_reply sheet.old (new_style item style.now) }
    ensures sheet_after { sheet.new ≡ on_sheet_sheet sheet.old (new_style item style.now) }
{
    station::station_set_style_on_sheet(sheet, item, style)
}

// The frame as a Netpbm file, stored at the head of the output, and its length.
#[unsafe(no_mangle)]
pub extern "C" fn station_write_page(sheet: &[u8], frame: &[u8], output: &mut [u8]) -> Number
    ensures value { result ≡ page_reply sheet.now frame.now output.old }
    ensures output_after { output.new ≡ page_output sheet.now frame.now output.old }
{
    station::station_write_page(sheet, frame, output)
}

// The font of a BDF file, stored at the head of the output, and its length.
#[unsafe(no_mangle)]
pub extern "C" fn station_read_bdf(file: &[u8], output: &mut [u8]) -> Number
    ensures value { result ≡ read_bdf_reply file.now (length output.old) }
    ensures output_after { output.new ≡ written file.now output.old }
{
    station::station_read_bdf(file, output)
}

// One step of a walker over a line: the character at an offset and the offset of the next, the end, or 10.
#[unsafe(no_mangle)]
pub extern "C" fn station_walk(line: &[u8], offset: usize) -> Step
    ensures { result ≡ walk_reply line.now offset }
{
    station::station_walk(line, offset)
}
