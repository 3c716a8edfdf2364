// Refusal 5: records and pieces stand as laid out.
ghost use Rattle.std.specs.Prelude.{◌≡◌};
ghost use Rattle.sheet.specs.Fields.{font_count, item_count};
ghost use Rattle.sheet.specs.Pieces.{font_pieces, slot_pieces, pieces_of, pieces};
ghost use Rattle.sheet.specs.Conforming.{Headed};
ghost use Rattle.sheet.specs.Check.{reach, is_laid_out};
ghost use Rattle.sheet.specs.Requires.{RecordsIn};

use super::fields::{Header, font_offset, u32_at};

// A file of which the records are there, within the header's limits.
#[derive(Clone, Copy, Debug, PartialEq, Eq)]
struct Records<'a> {
    header: Header<'a>,
    ghost within: { RecordsIn header.bytes.now },
}

// Where the fonts' pieces end, if the first starts at `from` and each other where the one before ends. One loop for this and `slots_end` would take a closure
// from place to place, and say of each use what the turn does here: a font has two pieces, an item one.
fn fonts_end(records: Records<'_>, from: usize) -> Option<usize>
    ensures { result ≡ reach (pieces_of (font_pieces records.entry.header.bytes.now) (font_count records.entry.header.bytes.now) 0) from }
{
    let header = records.header;
    let fonts = header.font_count();
    let mut p = from;
    for k in 0..fonts {
        let font = header.font(k);
        let atlas = font.u32_at(0);
        let atlas_length = font.u32_at(4);
        let mapping = font.u32_at(8);
        let mapping_length = font.u16_at(12);
        if atlas != p || mapping != p + atlas_length {
            return None;
        }
        p = p + atlas_length + mapping_length;
    }
    Some(p)
}

// Where the slots end, if the first starts at `from` and each other where the one before ends.
fn slots_end(records: Records<'_>, from: usize) -> Option<usize>
    ensures { result ≡ reach (pieces_of (slot_pieces records.entry.header.bytes.now) (item_count records.entry.header.bytes.now) 0) from }
{
    let header = records.header;
    let items = header.item_count();
    let mut p = from;
    for k in 0..items {
        let item = header.item(k);
        let slot = item.u32_at(4);
        let size = item.u16_at(8);
        if slot != p {
            return None;
        }
        p += size;
    }
    Some(p)
}

// Where all pieces end: the fonts' from `from` on, then the slots.
fn pieces_end(records: Records<'_>, from: usize) -> Option<usize>
    ensures { result ≡ reach (pieces records.entry.header.bytes.now) from }
{
    let slots = fonts_end(records, from)?;
    slots_end(records, slots)
}

// Whether records and pieces stand as laid out, and the last piece ends the file.
pub fn is_laid_out(header: Header<'_>) -> bool
    requires { Headed header.bytes.now }
    ensures { result ≡ is_laid_out header.entry.bytes.now }
{
    let bytes = header.bytes;
    let fonts_offset = u32_at(bytes, 12);
    let items_offset = u32_at(bytes, 16);
    let first = font_offset(header.font_count());
    let from = header.item_offset(header.item_count());
    if fonts_offset != 24 || items_offset != first || bytes.len() < from {
        return false;
    }
    let records = Records { header };
    pieces_end(records, from) == Some(bytes.len())
}
