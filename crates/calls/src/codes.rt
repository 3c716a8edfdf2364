// The codes of the calls: the check's refusal, then the call's own tests, rising; a call that passes them has the accepted sheet, or its font or item.
// Each is named by the definition of its code, which its clause cites.
ghost use Rattle.std.specs.Prelude.{◌≡◌, ◌≤◌, true, length, IfOk};
ghost use Rattle.refusals.specs.Numbers.{refusal_of};
ghost use Rattle.entries.specs.Entries.{is_filled};
ghost use Rattle.drawing.specs.Frames.{Framed};
ghost use Rattle.sheet.specs.Fields.{frame_width, frame_height};
ghost use Rattle.calls.specs.Calls.{netpbm, font_code, item_code, draw_code, draw_item_code, whitespace_code, edit_list_code, page_code};

use geometry::Size;
use page::page_length;
use records::{FontRecord, ItemRecord};
use refusals::Refusal;
use sheet::Sheet;

// `font_code` and `item_code` are two, as `records::font` and `item` are: one generic over both pairs needs a trait with a count, a maker and their clauses, and two
// impls, to save the two lines of code here and the four there; likewise `font` and `item` of a header, and `record` of both.

// The check, then 12 for a font.
#[tactic(auto, using(characters::proofs::Refusals::chain), unfolding(crate::specs::Calls::font_code))]
pub fn font_code(sheet: &[u8], n: u32) -> Result<FontRecord<'_>, Refusal>
    ensures value { refusal_of result ≡ font_code sheet.now n }
    ensures same_bytes { IfOk result (λ font. font.sheet.bytes.now ≡ sheet.now) }
    ensures same_number { IfOk result (λ font. font.number ≡ n) }
{
    let accepted = sheet::accepted(sheet)?;
    records::font(accepted, n).ok_or(Refusal::NoSuch)
}

// The check, then 12 for an item.
#[tactic(auto, using(characters::proofs::Refusals::chain), unfolding(crate::specs::Calls::item_code))]
pub fn item_code(sheet: &[u8], n: u32) -> Result<ItemRecord<'_>, Refusal>
    ensures value { refusal_of result ≡ item_code sheet.now n }
    ensures same_bytes { IfOk result (λ item. item.sheet.bytes.now ≡ sheet.now) }
    ensures same_number { IfOk result (λ item. item.number ≡ n) }
{
    let accepted = sheet::accepted(sheet)?;
    records::item(accepted, n).ok_or(Refusal::NoSuch)
}

// The size of the sheet's frame.
pub fn frame_size(sheet: Sheet<'_>) -> Size
    ensures width_value { result.width ≡ frame_width sheet.entry.bytes.now }
    ensures height_value { result.height ≡ frame_height sheet.entry.bytes.now }
{
    let header = sheet.header();
    Size {
        width: header.frame_width(),
        height: header.frame_height(),
    }
}

// `Framed` is ensured here and below, and of whitespace `width ≤ 65,535`; no type holds them, for the reasons that stand in crate drawing.

// The check, then 11.
#[tactic(auto, using(characters::proofs::Refusals::chain), unfolding(crate::specs::Calls::draw_code))]
pub fn frame_code<'a>(sheet: &'a [u8], frame: &[u8]) -> Result<Sheet<'a>, Refusal>
    ensures value { refusal_of result ≡ draw_code sheet.now frame.now }
    ensures same_bytes { IfOk result (λ accepted. accepted.bytes.now ≡ sheet.now) }
    ensures framed { IfOk result (λ accepted. Framed accepted.bytes.now frame.now) }
{
    let accepted = sheet::accepted(sheet)?;
    let size = frame_size(accepted);
    if frame.len() != size.width as usize * size.height as usize {
        return Err(Refusal::FrameLength);
    }
    Ok(accepted)
}

// The check, 11, then 12 for an item.
#[tactic(auto, using(crate::proofs::Refusals::call_chain), unfolding(crate::specs::Calls::draw_item_code))]
pub fn draw_item_code<'a>(sheet: &'a [u8], frame: &[u8], n: u32) -> Result<ItemRecord<'a>, Refusal>
    ensures value { refusal_of result ≡ draw_item_code sheet.now frame.now n }
    ensures same_bytes { IfOk result (λ item. item.sheet.bytes.now ≡ sheet.now) }
    ensures framed { IfOk result (λ item. Framed item.sheet.bytes.now frame.now) }
    ensures same_number { IfOk result (λ item. item.number ≡ n) }
{
    let accepted = frame_code(sheet, frame)?;
    records::item(accepted, n).ok_or(Refusal::NoSuch)
}

// The check, 11, 12, then 18.
#[tactic(auto, using(characters::proofs::Tests::tests, crate::proofs::Refusals::call_chain), unfolding(crate::specs::Calls::whitespace_code))]
pub fn whitespace_code<'a>(
    sheet: &'a [u8],
    frame: &[u8],
    n: u32,
    width: u32,
) -> Result<ItemRecord<'a>, Refusal>
    ensures value { refusal_of result ≡ whitespace_code sheet.now frame.now n width }
    ensures same_bytes { IfOk result (λ item. item.sheet.bytes.now ≡ sheet.now) }
    ensures framed { IfOk result (λ item. Framed item.sheet.bytes.now frame.now) }
    ensures same_number { IfOk result (λ item. item.number ≡ n) }
    ensures width_bound { IfOk result (λ item. width ≤ 65_535) }
{
    let item = draw_item_code(sheet, frame, n)?;
    if width <= 65535 {
        return Ok(item);
    }
    Err(Refusal::Whitespace)
}

// The check, 11, then 17.
#[tactic(auto, using(characters::proofs::Tests::tests, crate::proofs::Refusals::call_chain), unfolding(crate::specs::Calls::page_code))]
pub fn page_code<'a>(sheet: &'a [u8], frame: &[u8], output: &[u8]) -> Result<Sheet<'a>, Refusal>
    ensures value { refusal_of result ≡ page_code sheet.now frame.now output.now }
    ensures same_bytes { IfOk result (λ accepted. accepted.bytes.now ≡ sheet.now) }
    ensures framed { IfOk result (λ accepted. Framed accepted.bytes.now frame.now) }
    ensures page_in { IfOk result (λ accepted. length (netpbm accepted.bytes.now frame.now) ≤ length output.now) }
{
    let accepted = frame_code(sheet, frame)?;
    let size = frame_size(accepted);
    let length = page_length(frame, size.width as usize, size.height as usize);
    if length <= output.len() {
        return Ok(accepted);
    }
    Err(Refusal::OutputTooShort)
}

// The check, 11, then 22.
#[tactic(auto, using(characters::proofs::Tests::tests, crate::proofs::Refusals::call_chain), unfolding(crate::specs::Calls::edit_list_code))]
pub fn list_code<'a>(sheet: &'a [u8], frame: &[u8], list: &[u8]) -> Result<Sheet<'a>, Refusal>
    ensures value { refusal_of result ≡ edit_list_code sheet.now frame.now list.now }
    ensures same_bytes { IfOk result (λ accepted. accepted.bytes.now ≡ sheet.now) }
    ensures framed { IfOk result (λ accepted. Framed accepted.bytes.now frame.now) }
    ensures filled { IfOk result (λ accepted. is_filled list.now ≡ true) }
{
    let accepted = frame_code(sheet, frame)?;
    if entries::is_filled(list) {
        return Ok(accepted);
    }
    Err(Refusal::List)
}
