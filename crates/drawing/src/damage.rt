// The damage rectangle of an edit, found before the sheet is changed.
ghost use Rattle.std.specs.Prelude.{◌≡◌};
ghost use Rattle.geometry.specs.Rectangle.{join};
ghost use Rattle.geometry.specs.Canvas.{EndsFit};
ghost use Rattle.sheet.specs.OfItem.{of_item};
ghost use Rattle.sheet.specs.Requires.{EditAllowed};
ghost use Rattle.sheet.specs.Edits.{edited};
ghost use Rattle.drawing.specs.Drawing.{item_ink, cut_to_frame, damage};

use super::frame_of;
use geometry::{ORIGIN, Point, Rectangle};
use records::ItemRecord;
use sheet::Sheet;
use sheet::edit::{Edit, Entry};
use text::TextLayout;

// `EndsFit` stays a clause, as in crate geometry: the four numbers of a rectangle are public.

// What two boxes repaint: the smallest rectangle that holds those that are not empty, cut to the frame.
#[tactic(auto, using(crate::proofs::Changes::cut_none, crate::proofs::Changes::cut_some))]
fn damage_of(sheet: Sheet<'_>, before: Rectangle, after: Rectangle) -> Rectangle
    requires ends_fit { EndsFit before }
    requires ends_fit_2 { EndsFit after }
    ensures { result ≡ cut_to_frame sheet.entry.bytes.now (join before after) }
{
    let page = frame_of(sheet);
    let both = before.join(after);
    let area = both.intersection(page);
    if area.is_empty() {
        return Rectangle {
            left: ORIGIN,
            top: ORIGIN,
            width: 0,
            height: 0,
        };
    }
    area
}

// `EditAllowed` stays a clause here and below, for the reason that stands at `edits::put`.

// The ink box of an item after an edit: the lines of a new text are parts of it, those of the stored text are parts of the sheet.
fn ink_after<'a>(item: ItemRecord<'a>, edit: Edit<'a>) -> Rectangle
    requires { EditAllowed item.sheet.bytes.now (of_item item.number edit) }
    ensures value { result ≡ item_ink (edited item.entry.sheet.bytes.now (of_item item.entry.number edit.entry)) item.entry.number }
    ensures ends_fit { EndsFit result }
{
    let layout = item.layout();
    match edit {
        Edit::Text(text) => layout.ink_box_of(Some(text)),
        Edit::Place(x, y) => {
            let moved = TextLayout {
                text: layout.text,
                metrics: layout.metrics,
                position: Point {
                    x: edits::biased(x),
                    y: edits::biased(y),
                },
                character_style: layout.character_style,
                text_style: layout.text_style,
            };
            moved.ink_box()
        }
        Edit::Style(style) => {
            let styled = TextLayout {
                text: layout.text,
                metrics: layout.metrics,
                position: layout.position,
                character_style: records::style_of(style),
                text_style: layout.text_style,
            };
            styled.ink_box()
        }
    }
}

// The damage rectangle of an edit.
pub fn damage<'a>(sheet: Sheet<'a>, asked: Entry<'a>) -> Rectangle
    requires { EditAllowed sheet.bytes.now (of_item asked.item asked.edit) }
    ensures { result ≡ damage sheet.entry.bytes.now (edited sheet.entry.bytes.now (of_item asked.entry.item asked.entry.edit)) asked.entry.item }
{
    let item = ItemRecord {
        sheet,
        number: asked.item,
    };
    let before = item.layout().ink_box();
    let after = ink_after(item, asked.edit);
    damage_of(sheet, before, after)
}
