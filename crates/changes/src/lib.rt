// One edit on an accepted sheet: refused, or stored, with the rectangle that it leaves to be repainted. The sheet is not checked again.
#![tactic(auto)]

ghost use Rattle.std.specs.Prelude.{◌≡◌};
ghost use Rattle.sheet.specs.Accepted.{Accepted};
ghost use Rattle.sheet.specs.OfItem.{of_item};
ghost use Rattle.changes.specs.Change.{change_of, outcome, sheet_after};

use drawing::damage::damage;
use geometry::Rectangle;
use refusals::Refusal;
use sheet::Sheet;
use sheet::edit::Entry;

// Edits an item; gives the damage rectangle.
pub fn change(sheet: &mut [u8], asked: Entry<'_>) -> Result<Rectangle, Refusal>
    requires { Accepted sheet.old }
    ensures value { change_of result ≡ outcome sheet.old (of_item asked.entry.item asked.entry.edit) }
    ensures sheet_after { sheet.new ≡ sheet_after sheet.old (of_item asked.entry.item asked.entry.edit) }
{
    let before = Sheet { bytes: &sheet[..] };
    edits::refusal(before, asked)?;
    let area = damage(before, asked);
    edits::put(sheet, asked);
    Ok(area)
}
