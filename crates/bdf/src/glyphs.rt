// Writing a font: a bitmap line in a row of the atlas, a character in the mapping, and the record.
ghost use Rattle.std.specs.Prelude.{◌≡◌, ◌≤◌, length};
ghost use Rattle.geometry.specs.Layer.{map_indexed};
ghost use Rattle.bdf.specs.Reader.{spelling};
ghost use Rattle.bdf.specs.Font.{record_of};
ghost use Rattle.bdf.specs.Stores.{metrics};
ghost use Rattle.bdf.specs.Writing.{with_bits, BitsFit, GoodCell};

use super::reader::{BoundingBox, OFFSET_ORIGIN};
use geometry::store_bytes;

// Puts the bits of a bitmap line into a row of the atlas, from pixel `left` up to `end`. By a byte's number, since the shift needs it too: an iterator
// would be `enumerate` with a `take` and a `skip`, and the last byte stands behind it.
pub fn put_bits(row: &mut [u8], left: usize, end: usize, bits: u64)
    requires { BitsFit left end bits (length row.old) }
    ensures { row.new ≡ map_indexed (with_bits bits end) 0 row.old }
{
    let whole = end / 8;
    for j in left / 8..whole {
        let part = (bits >> (end - (8 * j + 8))) % 256;
        row[j] |= part as u8;
    }
    if end % 8 == 0 {
        return;
    }
    let part = (bits << (8 - end % 8)) % 256;
    row[whole] |= part as u8;
}

// How many bytes of a mapping spell a character.
pub fn spelled_length(v: u32) -> u32
    ensures { result ≡ length (spelling v) }
{
    if v == 0 {
        return 3;
    }
    if v < 0x80 {
        return 1;
    }
    if v < 0x800 {
        return 2;
    }
    if v < 0x10000 {
        return 3;
    }
    4
}

// Spells a character in the part of a mapping that is its own. By hand here and above, since a `char` would ask more than a number: a surrogate has
// a spelling too.
pub fn put_character(part: &mut [u8], v: u32)
    requires v_bound { v ≤ 0x10FFFF }
    requires part_len { length part.old ≡ length (spelling v) }
    ensures { part.new ≡ spelling v }
{
    if v == 0 {
        part[0] = 0;
        part[1] = 0;
        part[2] = 0;
        return;
    }
    if v < 0x80 {
        part[0] = v as u8;
        return;
    }
    let last = (0x80 + v % 64) as u8;
    if v < 0x800 {
        part[0] = (0xC0 + v / 64) as u8;
        part[1] = last;
        return;
    }
    let middle = (0x80 + v / 64 % 64) as u8;
    if v < 0x10000 {
        part[0] = (0xE0 + v / 4096) as u8;
        part[1] = middle;
        part[2] = last;
        return;
    }
    part[0] = (0xF0 + v / 262144) as u8;
    part[1] = (0x80 + v / 4096 % 64) as u8;
    part[2] = middle;
    part[3] = last;
}

// Stores the metrics of a cell: its sides, spacing, baseline, strikethrough and underline.
fn put_metrics(output: &mut [u8], cell: BoundingBox)
    requires output_len { length output.old ≡ 10 }
    requires good_cell { GoodCell cell }
    ensures { output.new ≡ metrics cell }
{
    output[0] = cell.width as u8;
    output[1] = cell.height as u8;
    output[2] = 0;
    output[3] = (cell.height + cell.y).saturating_sub(OFFSET_ORIGIN + 1) as u8;
    output[4] = (cell.height.saturating_sub(1) / 2) as u8;
    output[5] = 1;
    output[6] = (cell.height + 1) as u8;
    output[7] = 1;
    output[8] = 0;
    output[9] = 0;
}

// Writes the record of a cell, with so many bytes of atlas and of mapping.
pub fn put_record(output: &mut [u8], cell: BoundingBox, atlas: u32, mapping: u32)
    requires output_len { length output.old ≡ 28 }
    requires good_cell { GoodCell cell }
    requires atlas_bound { atlas ≤ 100_000_000 }
    requires mapping_bound { mapping ≤ 65_535 }
    ensures { output.new ≡ record_of cell atlas mapping }
{
    store_bytes(output, 0, &28u32.to_le_bytes());
    store_bytes(output, 4, &atlas.to_le_bytes());
    store_bytes(output, 8, &(28 + atlas).to_le_bytes());
    store_bytes(output, 12, &(mapping as u16).to_le_bytes());
    store_bytes(output, 14, &0u16.to_le_bytes());
    let width = 16 * cell.width;
    store_bytes(output, 16, &(width as u16).to_le_bytes());
    put_metrics(&mut output[18..28], cell);
}
