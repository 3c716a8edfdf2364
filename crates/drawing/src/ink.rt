// Which items a rectangle misses.
ghost use Rattle.std.specs.Prelude.{◌≡◌, true};
ghost use Rattle.geometry.specs.Rectangle.{is_empty, intersection};
ghost use Rattle.drawing.specs.Items.{ink_of};

use geometry::{DrawTarget, Rectangle};
use records::ItemRecord;

// Whether an item starts below a clip, so that the clip does not meet its ink box; the text is not read.
#[tactic(auto, using(crate::proofs::Readings::below_apart))]
fn starts_below(item: ItemRecord<'_>, clip: Rectangle) -> bool
    ensures { result ≡ true → is_empty (intersection (ink_of item.entry) clip) ≡ true }
{
    let metrics = item.font_record().metrics();
    let p = item.position();
    item.text_style().starts_below(metrics, p.y, clip)
}

// Whether the clip does not meet an item's ink box; "no" may be said of one that it does not meet. The box is found only where the item's rows
// and columns leave it open, and where the clip has not the column of its x, in or near which nearly every line stands. Of a clip that is the
// whole frame it is only asked whether the item starts below it.
#[tactic(auto, using(crate::proofs::Readings::item_apart, crate::proofs::Readings::item_ink_lem, crate::proofs::Painting::missed))]
pub fn is_missed(item: ItemRecord<'_>, target: DrawTarget) -> bool
    ensures { result ≡ true → is_empty (intersection (ink_of item.entry) target.clip_area) ≡ true }
{
    let clip = target.clip_area;
    if starts_below(item, clip) {
        return true;
    }
    if clip.width as usize == target.width && clip.height as usize == target.height {
        return false;
    }
    let layout = item.layout();
    if layout.is_apart(clip) {
        return true;
    }
    let x = layout.position.x;
    let has_column = clip.left <= x && x - clip.left < clip.width;
    !has_column && layout.ink_box().intersection(clip).is_empty()
}
