// The limits of a sheet (docs/SHEET.md, Sheet), on numbers: each test of a record's fields, with its refusal.
#![tactic(auto)]

ghost use Rattle.std.specs.Prelude.{◌≡◌, ◌*◌, ◌&&◌, leb};
ghost use Rattle.refusals.specs.Numbers.{refusal_of};
ghost use Rattle.limits.specs.Limits.{header_refusal, font_limits, good_modes, item_limits};

use refusals::Refusal;

// The header's fields that refusals 1 to 4 test, and the file's length.
#[derive(Clone, Copy, Debug, PartialEq, Eq)]
pub struct HeaderFields {
    pub file_length: usize,
    pub whole_length: usize,
    pub zero: usize,
    pub edition: usize,
    pub width: u32,
    pub height: u32,
    pub fonts: u32,
    pub items: u32,
}

// The fields of a font that refusal 6 tests.
#[derive(Clone, Copy, Debug, PartialEq, Eq)]
pub struct FontFields {
    pub cw: u8,
    pub ch: u8,
    pub spacing: u8,
    pub atlas_width: usize,
    pub zero: usize,
}

// The fields of an item that refusal 9 tests.
#[derive(Clone, Copy, Debug, PartialEq, Eq)]
pub struct ItemFields {
    pub slot_size: usize,
    pub text_length: usize,
    pub font: u32,
    pub text_mode: u8,
    pub background_mode: u8,
    pub underline_mode: u8,
    pub strikethrough_mode: u8,
    pub alignment: u8,
    pub baseline: u8,
    pub height_kind: u8,
    pub height_value: usize,
    pub zero: usize,
}

// Whether a frame may have these sides.
#[tactic(auto, using(characters::proofs::Tests::tests))]
fn is_frame_size(width: u32, height: u32) -> bool
    ensures { result ≡ (leb 1 width && leb width 512 && leb 1 height && leb height 512 && leb (width * height) 65_536) }
{
    (1..=512).contains(&width) && (1..=512).contains(&height) && width * height <= 65536
}

// Refusals 1 to 4.
#[tactic(auto, using(characters::proofs::Tests::tests), unfolding(crate::specs::Limits::header_refusal))]
pub fn header_refusal(header: HeaderFields) -> Result<(), Refusal>
    ensures { refusal_of result ≡ header_refusal header }
{
    let HeaderFields {
        file_length,
        whole_length,
        zero,
        edition,
        width,
        height,
        fonts,
        items,
    } = header;
    if !(24..=65536).contains(&file_length) || whole_length != file_length || zero != 0 {
        return Err(Refusal::Length);
    }
    if edition != 1 {
        return Err(Refusal::Edition);
    }
    if !is_frame_size(width, height) {
        return Err(Refusal::FrameSize);
    }
    if 4 < fonts || 64 < items {
        return Err(Refusal::Count);
    }
    Ok(())
}

// Refusal 6.
#[tactic(auto, using(characters::proofs::Tests::tests), unfolding(crate::specs::Limits::font_limits))]
pub fn font_limits(font: FontFields) -> Result<(), Refusal>
    ensures { refusal_of result ≡ font_limits font }
{
    let FontFields {
        cw,
        ch,
        spacing,
        atlas_width,
        zero,
    } = font;
    if 64 < cw || 64 < ch || 64 < spacing || 1024 < atlas_width || zero != 0 {
        return Err(Refusal::Font);
    }
    Ok(())
}

// Whether the four modes are known.
#[tactic(auto, using(characters::proofs::Tests::tests), unfolding(crate::specs::Limits::good_modes))]
pub fn good_modes(text: u8, background: u8, underline: u8, strikethrough: u8) -> bool
    ensures { result ≡ good_modes text background underline strikethrough }
{
    text <= 1 && background <= 1 && underline <= 2 && strikethrough <= 2
}

// Refusal 9 of an item in a sheet of `fonts` fonts, but for the slot's tail.
#[tactic(auto, using(characters::proofs::Tests::tests), unfolding(crate::specs::Limits::item_limits))]
pub fn item_limits(item: ItemFields, fonts: u32) -> Result<(), Refusal>
    ensures { refusal_of result ≡ item_limits item fonts }
{
    let ItemFields {
        slot_size,
        text_length,
        font,
        text_mode,
        background_mode,
        underline_mode,
        strikethrough_mode,
        alignment,
        baseline,
        height_kind,
        height_value,
        zero,
    } = item;
    if 256 < slot_size || slot_size < text_length || fonts <= font {
        return Err(Refusal::Item);
    }
    if !good_modes(
        text_mode,
        background_mode,
        underline_mode,
        strikethrough_mode,
    ) {
        return Err(Refusal::Item);
    }
    if 2 < alignment || 3 < baseline || 1 < height_kind || 1000 < height_value || zero != 0 {
        return Err(Refusal::Item);
    }
    Ok(())
}
