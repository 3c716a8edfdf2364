// An edit on an accepted sheet's bytes: whether it is refused, and what it stores.
#![tactic(auto)]

ghost use Rattle.std.specs.Prelude.{◌≡◌, true, ◌++◌, ◌+◌, ◌-◌, ◌≤◌, length, replicate};
ghost use Rattle.std.proofs.lemmas.List.Edits.{sets};
ghost use Rattle.refusals.specs.Numbers.{refusal_of};
ghost use Rattle.sheet.specs.Fields.{le16};
ghost use Rattle.sheet.specs.OfItem.{of_item};
ghost use Rattle.sheet.specs.Requires.{EditAllowed, TextFits, StyleFits};
ghost use Rattle.sheet.specs.Edits.{in_range, refusal, biased, put_text, put_place, put_style, edited};

use geometry::{ORIGIN, copy_bytes, store_bytes};
use limits::good_modes;
use refusals::Refusal;
use sheet::Sheet;
use sheet::edit::{Edit, Entry};
use sheet::fields::{Header, u16_at, u32_at};

// Whether a number is one of −32,768 to 32,767.
#[tactic(auto, unfolding(sheet::specs::Edits::in_range))]
fn in_range(z: i32) -> bool
    ensures { result ≡ in_range z }
{
    (-32768..32768).contains(&z)
}

// Refusals 12 to 16 of an edit of an item.
#[tactic(auto, using(characters::proofs::Tests::tests), unfolding(sheet::specs::Edits::text_refusal, sheet::specs::Edits::place_refusal, sheet::specs::Edits::style_refusal))]
pub fn refusal(sheet: Sheet<'_>, asked: Entry<'_>) -> Result<(), Refusal>
    ensures { refusal_of result ≡ refusal sheet.entry.bytes.now (of_item asked.entry.item asked.entry.edit) }
{
    let header = sheet.header();
    if header.item_count() <= asked.item {
        return Err(Refusal::NoSuch);
    }
    match asked.edit {
        Edit::Text(text) => {
            let size = header.item(asked.item).u16_at(8);
            if size < text.len() {
                return Err(Refusal::NewTextTooLong);
            }
            characters::walk(text, Refusal::NewTextIllFormed)
        }
        Edit::Place(x, y) => {
            if !in_range(x) || !in_range(y) {
                return Err(Refusal::Place);
            }
            Ok(())
        }
        Edit::Style(style) => {
            if style.len() != 8 || !good_modes(style[0], style[2], style[4], style[6]) {
                return Err(Refusal::Style);
            }
            Ok(())
        }
    }
}

// Stores bytes, then 0 to the end.
fn store_padded(to: &mut [u8], from: &[u8])
    requires { length from.now ≤ length to.old }
    ensures { to.new ≡ from.now ++ replicate (length to.old - length from.now) 0 }
{
    copy_bytes(&mut to[..from.len()], from);
    to[from.len()..].fill(0);
}

// An item is written where its record stands in the file, here and below: `Record` lends a file for reading, and a text's slot lies elsewhere in the same bytes.

// Stores a text and its length in the item whose record stands at `o`, and 00 to the slot's end.
#[tactic(auto, using(crate::proofs::Stored::text_stored), unfolding(sheet::specs::Fields::le16))]
fn put_text(sheet: &mut [u8], o: usize, text: &[u8])
    requires { TextFits sheet.old o text.now }
    ensures { sheet.new ≡ put_text sheet.old o text.now }
{
    let slot = u32_at(&sheet[..], o + 4);
    let end = slot + u16_at(&sheet[..], o + 8);
    store_bytes(sheet, o + 10, &(text.len() as u16).to_le_bytes());
    store_padded(&mut sheet[slot..end], text);
}

// A signed number in range as a coordinate.
pub fn biased(z: i32) -> u32
    requires { in_range z ≡ true }
    ensures { result ≡ biased z }
{
    (z + ORIGIN as i32) as u32
}

// Stores a place, the low bytes of its coordinates, in the item whose record stands at `o`.
#[tactic(auto, unfolding(sheet::specs::Fields::le16, sheet::specs::Edits::put_place))]
fn put_place(sheet: &mut [u8], o: usize, x: u32, y: u32)
    requires { o + 28 ≤ length sheet.old }
    ensures { sheet.new ≡ put_place sheet.old o x y }
{
    store_bytes(sheet, o, &x.to_le_bytes()[..2]);
    store_bytes(sheet, o + 2, &y.to_le_bytes()[..2]);
}

// Stores a style in the item whose record stands at `o`.
#[tactic(auto, unfolding(sheet::specs::Edits::put_style))]
fn put_style(sheet: &mut [u8], o: usize, style: &[u8])
    requires { StyleFits sheet.old o style.now }
    ensures { sheet.new ≡ put_style sheet.old o style.now }
{
    store_bytes(sheet, o + 13, style);
}

// `EditAllowed` stays a clause, here and in `drawing::damage`: it is of the bytes that `damage` reads and `put` writes, so a value that held it would have to
// lend them both ways, or be tied to them by a clause of its own.

// Makes an edit of an item.
pub fn put(sheet: &mut [u8], asked: Entry<'_>)
    requires { EditAllowed sheet.old (of_item asked.item asked.edit) }
    ensures { sheet.new ≡ edited sheet.old (of_item asked.entry.item asked.entry.edit) }
{
    let header = Header { bytes: &sheet[..] };
    let o = header.item_offset(asked.item);
    match asked.edit {
        Edit::Text(text) => put_text(sheet, o, text),
        Edit::Place(x, y) => put_place(sheet, o, biased(x), biased(y)),
        Edit::Style(style) => put_style(sheet, o, style),
    }
}
