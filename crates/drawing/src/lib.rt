// The fresh drawing of a sheet, and repainting.
#![tactic(auto)]

ghost use Rattle.std.specs.Prelude.{◌≡◌, ◌≤◌, length};
ghost use Rattle.geometry.specs.Layer.{paint, frame_of};
ghost use Rattle.geometry.specs.Canvas.{Canvas};
ghost use Rattle.geometry.specs.Painted.{Painted};
ghost use Rattle.text.specs.Text.{next, replaced, bounding_box};
ghost use Rattle.sheet.specs.Fields.{frame_width, frame_height};
ghost use Rattle.drawing.specs.Drawing.{order, items_layer, fresh_drawing, whitespace_layer, whitespace_next, repainted};
ghost use Rattle.drawing.specs.Frames.{target_of, Framed};
ghost use Rattle.drawing.specs.Items.{text_of, font_of, layer_of};

use geometry::{DrawTarget, Frame, ORIGIN, Point, Rectangle};
use ink::is_missed;
use records::ItemRecord;
use sheet::Sheet;
use text::DrawnText;

pub mod damage;
mod ink;

// The rectangle of the sheet's frame.
fn frame_of(sheet: Sheet<'_>) -> Rectangle
    ensures { result ≡ frame_of (frame_width sheet.entry.bytes.now) (frame_height sheet.entry.bytes.now) }
{
    let header = sheet.header();
    Rectangle {
        left: ORIGIN,
        top: ORIGIN,
        width: header.frame_width(),
        height: header.frame_height(),
    }
}

// The sheet's frame, of which only what lies in a clip may change.
fn target_of(sheet: Sheet<'_>, clip: Rectangle) -> DrawTarget
    ensures { result ≡ target_of sheet.entry.bytes.now clip }
{
    let header = sheet.header();
    DrawTarget {
        width: header.frame_width() as usize,
        height: header.frame_height() as usize,
        clip_area: clip,
    }
}

// `Framed` stays a clause here and below, as in `calls::codes`: a code has the frame lent for reading and what draws has it for writing, beside a sheet or beside an
// item, so that a type of them would be made anew for each call.

// The greys of a frame of the sheet's size, all of which may change.
#[tactic(auto, using(crate::proofs::Painting::framed_canvas))]
fn whole_frame<'a>(sheet: Sheet<'_>, greys: &'a mut [u8]) -> Frame<'a>
    requires { Framed sheet.bytes.now greys.old }
    ensures same_greys { result.greys.ghost_name ≡ greys.entry.ghost_name }
    ensures greys_value { result.greys.now ≡ greys.old }
    ensures target_value { result.target ≡ target_of sheet.entry.bytes.now (frame_of (frame_width sheet.entry.bytes.now) (frame_height sheet.entry.bytes.now)) }
{
    let clip = frame_of(sheet);
    Frame::new(greys, target_of(sheet, clip))
}

// Draws an item in a frame's clip; one whose ink box the clip does not meet is not drawn.
#[tactic(auto, using(crate::proofs::Painting::item_missed))]
fn draw_met_item(item: ItemRecord<'_>, frame: &mut Frame)
    ensures { Painted frame.old (layer_of item.entry) frame.new }
{
    if is_missed(item, frame.target) {
        return;
    }
    item.to_text().paint(frame);
}

// Draws the items in a frame's clip, in order.
#[tactic(auto, using(crate::proofs::Painting::items_start, crate::proofs::Painting::items_step, crate::proofs::Painting::items_end))]
fn draw_items(sheet: Sheet<'_>, frame: &mut Frame)
    ensures { Painted frame.old (items_layer sheet.entry.bytes.now (order sheet.entry.bytes.now)) frame.new }
{
    let items = sheet.header().item_count();
    for n in 0..items {
        draw_met_item(ItemRecord { sheet, number: n }, frame);
    }
}

// Paints the page's pixels in a rectangle of the frame: paper, then the items.
#[tactic(auto, using(crate::proofs::Painting::canvas_read))]
pub fn repaint(sheet: Sheet<'_>, frame: &mut [u8], area: Rectangle)
    requires { Canvas (target_of sheet.bytes.now area) (length frame.old) }
    ensures { frame.new ≡ repainted sheet.entry.bytes.now area frame.old }
{
    let target = target_of(sheet, area);
    let mut frame = Frame::new(frame, target);
    let grey = sheet.header().paper();
    frame.fill_solid(area, grey);
    draw_items(sheet, &mut frame);
}

// Draws the page on a frame of the sheet's size.
#[tactic(auto, using(crate::proofs::Painting::framed_canvas, crate::proofs::Painting::fresh_painted))]
pub fn draw(sheet: Sheet<'_>, frame: &mut [u8])
    requires { Framed sheet.bytes.now frame.old }
    ensures { frame.new ≡ fresh_drawing sheet.entry.bytes.now frame.old }
{
    let area = frame_of(sheet);
    repaint(sheet, frame, area);
}

// Draws an item on a frame of the sheet's size; gives its next position, and how many characters of its lines are not listed.
#[tactic(auto, using(crate::proofs::Readings::item_next, crate::proofs::Readings::item_replaced))]
pub fn draw_item(item: ItemRecord<'_>, frame: &mut [u8]) -> DrawnText
    requires { Framed item.sheet.bytes.now frame.old }
    ensures frame_after { frame.new ≡ paint (frame_width item.entry.sheet.bytes.now) (layer_of item.entry) frame.old }
    ensures next_value { result.next ≡ next (font_of item.entry).mono (text_of item.entry) }
    ensures replaced_value { result.replaced ≡ replaced (font_of item.entry) (text_of item.entry) }
{
    let mut frame = whole_frame(item.sheet, frame);
    item.to_text().draw(&mut frame)
}

// `width ≤ 65,535` stays a clause: a type for a host's one number would be made in `calls::codes` and opened here, for this call alone.

// Draws whitespace of a width at an item's place in a frame's clip; gives the next position.
fn draw_whitespace_in(item: ItemRecord<'_>, frame: &mut Frame, width: u32) -> Point
    requires { width ≤ 65_535 }
    ensures painted { Painted frame.old (whitespace_layer (font_of item.entry).mono (text_of item.entry) width) frame.new }
    ensures value { result ≡ whitespace_next (text_of item.entry) width }
{
    let layout = item.layout();
    let p = layout.position;
    let offset = layout
        .metrics
        .font
        .baseline_offset(layout.text_style.baseline);
    let corner = Point {
        x: p.x,
        y: p.y.saturating_sub(offset),
    };
    let x = layout
        .metrics
        .draw_whitespace(frame, layout.character_style, corner, width);
    Point { x, y: p.y }
}

// Draws whitespace of a width at an item's place on a frame of the sheet's size; gives the next position.
pub fn draw_whitespace(item: ItemRecord<'_>, frame: &mut [u8], width: u32) -> Point
    requires framed { Framed item.sheet.bytes.now frame.old }
    requires width_bound { width ≤ 65_535 }
    ensures frame_after { frame.new ≡ paint (frame_width item.entry.sheet.bytes.now) (whitespace_layer (font_of item.entry).mono (text_of item.entry) width) frame.old }
    ensures value { result ≡ whitespace_next (text_of item.entry) width }
{
    let mut frame = whole_frame(item.sheet, frame);
    draw_whitespace_in(item, &mut frame, width)
}

// The measured box of an item.
#[tactic(auto, using(crate::proofs::Readings::item_box))]
pub fn bounding_box(item: ItemRecord<'_>) -> Rectangle
    ensures { result ≡ bounding_box (font_of item.entry).mono (text_of item.entry) }
{
    item.layout().bounding_box()
}
