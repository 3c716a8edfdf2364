// The exported calls; crate station_c hands them to a host in C. Each that takes a sheet runs the check first, then its own tests, rising; a refused call has its
// number for a code and zeros, and leaves sheet, frame and output as they were. A list of edits that stops at a refused one keeps those before it.
#![tactic(auto)]

ghost use Rattle.std.specs.Prelude.{◌≡◌, length, IfOk};
ghost use Rattle.sheet.specs.Check.{check};
ghost use Rattle.sheet.specs.Edits.{new_text, new_place, new_style};
ghost use Rattle.sheet.specs.OfItem.{of_item};
ghost use Rattle.bdf.specs.Font.{written};
ghost use Rattle.calls.specs.Calls.{index_reply, contains_reply, bounding_box_reply, draw_item_reply, draw_item_frame, whitespace_reply, whitespace_frame, draw_code, draw_frame, edit_reply, edit_sheet, edit_frame, edit_list_reply, edit_list_sheet, edit_list_frame, on_sheet_reply, on_sheet_sheet, page_reply, page_output, read_bdf_reply, walk_reply};
ghost use Rattle.calls.specs.Replies.{reply_of, CornerFits};

use batch::make_list;
use calls::batches::{batch_reply, code_of};
use calls::codes::{
    draw_item_code, font_code, frame_code, frame_size, item_code, list_code, page_code,
    whitespace_code,
};
use calls::replies::{box_reply, drawn_reply, position_reply};
pub use calls::{Batch, Box, Drawn, Glyph, Number, Position, Step};
use changes::change;
use characters::Step as Walked;
use characters::walker::walk_from;
use drawing::repaint;
use geometry::Rectangle;
use page::write_page;
use refusals::Refusal;
use sheet::Sheet;
use sheet::edit::{Edit, Entry};

// The number of the sheet's first refusal, or 0 for a sheet that is accepted.
pub fn station_check(sheet: &[u8]) -> u32
    ensures { result ≡ check sheet.now }
{
    match sheet::check(sheet) {
        Ok(()) => 0,
        Err(refusal) => u32::from(refusal),
    }
}

// A `match` for each refusal here and below: under one generic `reply` and `map` it was tried at `station_draw`, and stopped at a refused call's frame, since `map` does
// not tell of what its closure borrows where it is not called; where nothing is lent for writing, an inner function by `?` would be longer than the two arms.

// The index of a character's glyph in a font, and 1 if the font's mapping lists the character, else 0.
pub fn station_index(sheet: &[u8], font: u32, character: u32) -> Glyph
    ensures { result ≡ index_reply sheet.now font character }
{
    match font_code(sheet, font) {
        Err(refusal) => Glyph::from(refusal),
        Ok(record) => {
            let font = record.font();
            let replacement = font.metrics.font.replacement_index;
            let glyph = font.mapping.glyph_of(replacement, character);
            Glyph {
                code: 0,
                index: glyph.index,
                listed: u32::from(glyph.listed),
            }
        }
    }
}

// Whether a font's mapping lists a character: 1 or 0.
pub fn station_contains(sheet: &[u8], font: u32, character: u32) -> Number
    ensures { result ≡ contains_reply sheet.now font character }
{
    match font_code(sheet, font) {
        Err(refusal) => Number::from(refusal),
        Ok(record) => {
            let font = record.font();
            Number {
                code: 0,
                value: u32::from(font.mapping.contains(character)),
            }
        }
    }
}

// The measured box of an item.
pub fn station_bounding_box(sheet: &[u8], item: u32) -> Box
    ensures { result ≡ bounding_box_reply sheet.now item }
{
    match item_code(sheet, item) {
        Err(refusal) => Box::from(refusal),
        Ok(record) => box_reply(drawing::bounding_box(record)),
    }
}

// Draws an item on the frame; gives the next position, and how many characters of its lines the font's mapping does not list.
pub fn station_draw_item(sheet: &[u8], frame: &mut [u8], item: u32) -> Drawn
    ensures value { result ≡ draw_item_reply sheet.now frame.old item }
    ensures frame_after { frame.new ≡ draw_item_frame sheet.now frame.old item }
{
    match draw_item_code(sheet, &frame[..], item) {
        Err(refusal) => Drawn::from(refusal),
        Ok(record) => {
            let drawn = drawing::draw_item(record, frame);
            drawn_reply(drawn.next, drawn.replaced)
        }
    }
}

// Draws whitespace of a width at an item's place on the frame; gives the next position.
pub fn station_draw_whitespace(sheet: &[u8], frame: &mut [u8], item: u32, width: u32) -> Position
    ensures value { result ≡ whitespace_reply sheet.now frame.old item width }
    ensures frame_after { frame.new ≡ whitespace_frame sheet.now frame.old item width }
{
    match whitespace_code(sheet, &frame[..], item, width) {
        Err(refusal) => Position::from(refusal),
        Ok(record) => position_reply(drawing::draw_whitespace(record, frame, width)),
    }
}

// Draws the page on the frame.
pub fn station_draw(sheet: &[u8], frame: &mut [u8]) -> u32
    ensures value { result ≡ draw_code sheet.now frame.old }
    ensures frame_after { frame.new ≡ draw_frame sheet.now frame.old }
{
    match frame_code(sheet, &frame[..]) {
        Err(refusal) => u32::from(refusal),
        Ok(sheet) => {
            drawing::draw(sheet, frame);
            0
        }
    }
}

// The reply of an edit that may be refused. `CornerFits` is a clause here and below, as in `calls::replies`.
fn reply(made: Result<Rectangle, Refusal>) -> Box
    requires { IfOk made CornerFits }
    ensures { result ≡ reply_of made }
{
    match made {
        Ok(area) => box_reply(area),
        Err(refusal) => Box::from(refusal),
    }
}

// Edits an item, and repaints its damage rectangle, which it gives.
fn edited(sheet: &mut [u8], frame: &mut [u8], asked: Entry<'_>) -> Result<Rectangle, Refusal>
    ensures value { reply_of result ≡ edit_reply sheet.old frame.old (of_item asked.entry.item asked.entry.edit) }
    ensures corner_fits { IfOk result CornerFits }
    ensures sheet_after { sheet.new ≡ edit_sheet sheet.old frame.old (of_item asked.entry.item asked.entry.edit) }
    ensures frame_after { frame.new ≡ edit_frame sheet.old frame.old (of_item asked.entry.item asked.entry.edit) }
{
    frame_code(&sheet[..], &frame[..])?;
    let area = change(sheet, asked)?;
    repaint(Sheet { bytes: &sheet[..] }, frame, area);
    Ok(area)
}

// Gives an item a new text, and repaints its damage rectangle, which it gives.
pub fn station_set_text(sheet: &mut [u8], frame: &mut [u8], item: u32, text: &[u8]) -> Box
    ensures value { result ≡ edit_reply sheet.old frame.old (new_text item text.now) }
    ensures sheet_after { sheet.new ≡ edit_sheet sheet.old frame.old (new_text item text.now) }
    ensures frame_after { frame.new ≡ edit_frame sheet.old frame.old (new_text item text.now) }
{
    let text = Edit::Text(text);
    reply(edited(sheet, frame, Entry { item, edit: text }))
}

// Gives an item a new place, and repaints its damage rectangle, which it gives.
pub fn station_set_place(sheet: &mut [u8], frame: &mut [u8], item: u32, x: i32, y: i32) -> Box
    ensures value { result ≡ edit_reply sheet.old frame.old (new_place item x y) }
    ensures sheet_after { sheet.new ≡ edit_sheet sheet.old frame.old (new_place item x y) }
    ensures frame_after { frame.new ≡ edit_frame sheet.old frame.old (new_place item x y) }
{
    let place = Edit::Place(x, y);
    reply(edited(sheet, frame, Entry { item, edit: place }))
}

// Gives an item a new style, and repaints its damage rectangle, which it gives.
pub fn station_set_style(sheet: &mut [u8], frame: &mut [u8], item: u32, style: &[u8]) -> Box
    ensures value { result ≡ edit_reply sheet.old frame.old (new_style item style.now) }
    ensures sheet_after { sheet.new ≡ edit_sheet sheet.old frame.old (new_style item style.now) }
    ensures frame_after { frame.new ≡ edit_frame sheet.old frame.old (new_style item style.now) }
{
    let style = Edit::Style(style);
    reply(edited(sheet, frame, Entry { item, edit: style }))
}

// Makes a list of edits in order, up to the first that is refused; gives how many were made, and the smallest rectangle that holds those that they
// repainted.
pub fn station_edit_list(sheet: &mut [u8], frame: &mut [u8], list: &[u8]) -> Batch
    ensures value { result ≡ edit_list_reply sheet.old frame.old list.now }
    ensures sheet_after { sheet.new ≡ edit_list_sheet sheet.old frame.old list.now }
    ensures frame_after { frame.new ≡ edit_list_frame sheet.old frame.old list.now }
{
    match list_code(&sheet[..], &frame[..], list) {
        Err(refusal) => Batch::from(refusal),
        Ok(_) => {
            let made = make_list(sheet, frame, list);
            batch_reply(code_of(made.refused), made.made, made.area)
        }
    }
}

// Edits an item on the sheet alone; gives the damage rectangle.
fn edited_on_sheet(sheet: &mut [u8], asked: Entry<'_>) -> Result<Rectangle, Refusal>
    ensures value { reply_of result ≡ on_sheet_reply sheet.old (of_item asked.entry.item asked.entry.edit) }
    ensures corner_fits { IfOk result CornerFits }
    ensures sheet_after { sheet.new ≡ on_sheet_sheet sheet.old (of_item asked.entry.item asked.entry.edit) }
{
    sheet::check(&sheet[..])?;
    change(sheet, asked)
}

// Gives an item a new text on the sheet alone; gives the damage rectangle.
pub fn station_set_text_on_sheet(sheet: &mut [u8], item: u32, text: &[u8]) -> Box
    ensures value { result ≡ on_sheet_reply sheet.old (new_text item text.now) }
    ensures sheet_after { sheet.new ≡ on_sheet_sheet sheet.old (new_text item text.now) }
{
    let text = Edit::Text(text);
    reply(edited_on_sheet(sheet, Entry { item, edit: text }))
}

// Gives an item a new place on the sheet alone; gives the damage rectangle.
pub fn station_set_place_on_sheet(sheet: &mut [u8], item: u32, x: i32, y: i32) -> Box
    ensures value { result ≡ on_sheet_reply sheet.old (new_place item x y) }
    ensures sheet_after { sheet.new ≡ on_sheet_sheet sheet.old (new_place item x y) }
{
    let place = Edit::Place(x, y);
    reply(edited_on_sheet(sheet, Entry { item, edit: place }))
}

// Gives an item a new style on the sheet alone; gives the damage rectangle.
pub fn station_set_style_on_sheet(sheet: &mut [u8], item: u32, style: &[u8]) -> Box
    ensures value { result ≡ on_sheet_reply sheet.old (new_style item style.now) }
    ensures sheet_after { sheet.new ≡ on_sheet_sheet sheet.old (new_style item style.now) }
{
    let style = Edit::Style(style);
    reply(edited_on_sheet(sheet, Entry { item, edit: style }))
}

// The frame as a Netpbm file, stored at the head of the output, and its length.
pub fn station_write_page(sheet: &[u8], frame: &[u8], output: &mut [u8]) -> Number
    ensures value { result ≡ page_reply sheet.now frame.now output.old }
    ensures output_after { output.new ≡ page_output sheet.now frame.now output.old }
{
    match page_code(sheet, frame, &output[..]) {
        Err(refusal) => Number::from(refusal),
        Ok(sheet) => {
            let size = frame_size(sheet);
            let length = write_page(output, frame, size.width as usize, size.height as usize);
            Number {
                code: 0,
                value: length as u32,
            }
        }
    }
}

// The font of a BDF file, stored at the head of the output, and its length.
pub fn station_read_bdf(file: &[u8], output: &mut [u8]) -> Number
    ensures value { result ≡ read_bdf_reply file.now (length output.old) }
    ensures output_after { output.new ≡ written file.now output.old }
{
    match bdf::read(file, output) {
        Err(refused) => Number::from(refused),
        Ok(length) => Number {
            code: 0,
            value: length,
        },
    }
}

// One step of a walker over a line: the character at an offset and the offset of the next, the end, or 10.
pub fn station_walk(line: &[u8], offset: usize) -> Step
    ensures { result ≡ walk_reply line.now offset }
{
    match walk_from(line, offset) {
        Walked::Character(character, cursor) => Step {
            code: 0,
            ended: 0,
            character: character,
            next: cursor.at,
        },
        Walked::IllFormed => Step {
            code: u32::from(Refusal::TextIllFormed),
            ended: 0,
            character: 0,
            next: 0,
        },
        Walked::End => Step {
            code: 0,
            ended: 1,
            character: 0,
            next: offset,
        },
    }
}
