// A list of edits, made on an accepted sheet and on a frame of its size. Each edit repaints its own rectangle; the sheet is not checked again.
#![tactic(auto)]

ghost use Rattle.std.specs.Prelude.{◌≡◌};
ghost use Rattle.changes.specs.Change.{Checked};
ghost use Rattle.calls.specs.Calls.{singly, batch_of};
ghost use Rattle.calls.specs.Replies.{CornerFits};
ghost use Rattle.batch.specs.Made.{made_batch};

use changes::change;
use drawing::repaint;
use entries::Entries;
use geometry::{ORIGIN, Rectangle};
use refusals::Refusal;
use sheet::Sheet;

// The refusal that stopped the list, if one did, how many edits were made, and the smallest rectangle that holds theirs.
#[derive(Clone, Copy, Debug, PartialEq, Eq)]
pub struct Made {
    pub refused: Option<Refusal>,
    pub made: usize,
    pub area: Rectangle,
}

// `CornerFits` is ensured, since `calls::batches` requires it: the rectangle's numbers are public, as `calls::replies` says.

// Makes the edits of a list, up to the first that is refused, or to bytes that are no entry.
pub fn make_list(sheet: &mut [u8], frame: &mut [u8], list: &[u8]) -> Made
    requires { Checked sheet.old frame.old }
    ensures result_value { made_batch result ≡ batch_of (singly sheet.old frame.old list.now).replies }
    ensures corner_fits { CornerFits result.area }
    ensures sheet_after { sheet.new ≡ (singly sheet.old frame.old list.now).state.sheet }
    ensures frame_after { frame.new ≡ (singly sheet.old frame.old list.now).state.frame }
{
    // Counted by hand: the count is asked where the list is refused and behind the loop.
    let mut made: usize = 0;
    let mut area = Rectangle {
        left: ORIGIN,
        top: ORIGIN,
        width: 0,
        height: 0,
    };
    for entry in Entries::of(list) {
        let repainted = match change(sheet, entry) {
            Ok(repainted) => repainted,
            Err(refusal) => {
                return Made {
                    refused: Some(refusal),
                    made,
                    area,
                };
            }
        };
        repaint(Sheet { bytes: &sheet[..] }, frame, repainted);
        area = area.join(repainted);
        made += 1;
    }
    Made {
        refused: None,
        made,
        area,
    }
}
