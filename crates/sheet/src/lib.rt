// The sheet's file: its fields, and its check.
#![tactic(auto)]

ghost use Rattle.std.specs.Prelude.{◌≡◌, ◌+◌, ◌≤◌, length, IfOk};
ghost use Rattle.refusals.specs.Numbers.{refusal_of};
ghost use Rattle.sheet.specs.Check.{header_fields, check_header, font_fields, check_font, check_fonts, item_fields, zeros, check_item, check_items, check};
ghost use Rattle.sheet.specs.Accepted.{FontIn, ItemIn, LaidOut, Accepted};

use fields::{Header, Record, part, u16_at, u32_at};
use limits::{FontFields, HeaderFields, ItemFields, font_limits, header_refusal, item_limits};
use pieces::is_laid_out;
use refusals::Refusal;

pub mod edit;
pub mod fields;
pub mod pieces;

// An accepted sheet.
#[derive(Clone, Copy, Debug, PartialEq, Eq)]
pub struct Sheet<'a> {
    pub bytes: &'a [u8],
    pub ghost accepted: { Accepted bytes.now },
}

impl<'a> Sheet<'a> {
    pub fn header(self) -> Header<'a>
        ensures { result.bytes.now ≡ self.entry.bytes.now }
    {
        Header { bytes: self.bytes }
    }
}

// The header's fields, as refusals 1 to 4 test them.
#[tactic(auto, unfolding(crate::specs::Check::header_fields))]
fn header_fields(header: Header<'_>) -> HeaderFields
    ensures { result ≡ header_fields header.entry.bytes.now }
{
    let bytes = header.bytes;
    HeaderFields {
        file_length: bytes.len(),
        whole_length: u32_at(bytes, 20),
        zero: u16_at(bytes, 10),
        edition: u16_at(bytes, 0),
        width: header.frame_width(),
        height: header.frame_height(),
        fonts: header.font_count(),
        items: header.item_count(),
    }
}

// The header, or refusals 1 to 4.
#[tactic(auto, using(characters::proofs::Refusals::chain), unfolding(crate::specs::Check::check_header))]
fn check_header(bytes: &[u8]) -> Result<Header<'_>, Refusal>
    ensures value { refusal_of result ≡ check_header bytes.now }
    ensures same_bytes { IfOk result (λ header. header.bytes.now ≡ bytes.now) }
{
    let header = Header::of(bytes).ok_or(Refusal::Length)?;
    header_refusal(header_fields(header))?;
    Ok(header)
}

// The fields of a font, as refusal 6 tests them.
#[tactic(auto, unfolding(crate::specs::Check::font_fields))]
fn font_fields(font: Record<'_>) -> FontFields
    ensures { result ≡ font_fields font.entry.bytes.now font.entry.at }
{
    FontFields {
        cw: font.byte(18),
        ch: font.byte(19),
        spacing: font.byte(20),
        atlas_width: font.u16_at(16),
        zero: font.u16_at(26),
    }
}

// Refusals 6 to 8 of a font.
#[tactic(auto, using(characters::proofs::Refusals::chain), unfolding(crate::specs::Check::check_font))]
fn check_font(font: Record<'_>) -> Result<(), Refusal>
    requires { FontIn font.bytes.now font.at }
    ensures { refusal_of result ≡ check_font font.entry.bytes.now font.entry.at }
{
    font_limits(font_fields(font))?;
    let from = font.u32_at(8);
    let size = font.u16_at(12);
    mapping::check_mapping(part(font.bytes, from, size))
}

// Refusals 6 to 8 of the fonts, by number. One loop for this and `check_items` would take a closure that says again what `check_font` or `check_item` asks and
// gives: more than the three lines of a loop.
fn check_fonts(header: Header<'_>) -> Result<(), Refusal>
    requires { LaidOut header.bytes.now }
    ensures { refusal_of result ≡ check_fonts header.entry.bytes.now }
{
    let fonts = header.font_count();
    for k in 0..fonts {
        check_font(header.font(k))?;
    }
    Ok(())
}

// The fields of an item, as refusal 9 tests them.
#[tactic(auto, unfolding(crate::specs::Check::item_fields))]
fn item_fields(item: Record<'_>) -> ItemFields
    ensures { result ≡ item_fields item.entry.bytes.now item.entry.at }
{
    ItemFields {
        slot_size: item.u16_at(8),
        text_length: item.u16_at(10),
        font: u32::from(item.byte(12)),
        text_mode: item.byte(13),
        background_mode: item.byte(15),
        underline_mode: item.byte(17),
        strikethrough_mode: item.byte(19),
        alignment: item.byte(21),
        baseline: item.byte(22),
        height_kind: item.byte(23),
        height_value: item.u16_at(24),
        zero: item.u16_at(26),
    }
}

// Whether every byte is 0.
fn all_zero(bytes: &[u8]) -> bool
    ensures { result ≡ zeros bytes.now }
{
    bytes.iter().all(|b| *b == 0)
}

// Refusals 9 and 10 of an item.
#[tactic(auto, using(characters::proofs::Refusals::chain), unfolding(crate::specs::Check::check_item))]
fn check_item(item: Record<'_>) -> Result<(), Refusal>
    requires { ItemIn item.bytes.now item.at }
    ensures { refusal_of result ≡ check_item item.entry.bytes.now item.entry.at }
{
    item_limits(item_fields(item), item.header().font_count())?;
    let slot = item.u32_at(4);
    let size = item.u16_at(8);
    let len = item.u16_at(10);
    if !all_zero(part(item.bytes, slot + len, size - len)) {
        return Err(Refusal::Item);
    }
    characters::walk(part(item.bytes, slot, len), Refusal::TextIllFormed)
}

// Refusals 9 and 10 of the items, by number.
fn check_items(header: Header<'_>) -> Result<(), Refusal>
    requires { LaidOut header.bytes.now }
    ensures { refusal_of result ≡ check_items header.entry.bytes.now }
{
    let items = header.item_count();
    for k in 0..items {
        check_item(header.item(k))?;
    }
    Ok(())
}

// The sheet, or its first refusal.
#[tactic(auto, using(characters::proofs::Refusals::chain), unfolding(crate::specs::Check::check))]
pub fn accepted(bytes: &[u8]) -> Result<Sheet<'_>, Refusal>
    ensures value { refusal_of result ≡ check bytes.now }
    ensures same_bytes { IfOk result (λ sheet. sheet.bytes.now ≡ bytes.now) }
{
    let header = check_header(bytes)?;
    if !is_laid_out(header) {
        return Err(Refusal::Layout);
    }
    check_fonts(header)?;
    check_items(header)?;
    Ok(Sheet { bytes })
}

// The first refusal of a sheet that is not accepted.
pub fn check(bytes: &[u8]) -> Result<(), Refusal>
    ensures { refusal_of result ≡ check bytes.now }
{
    accepted(bytes)?;
    Ok(())
}
