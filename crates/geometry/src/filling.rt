// Rows of a frame's greys, filled.
ghost use Rattle.std.specs.Prelude.{◌≡◌, ◌+◌, ◌≤◌, length, replicate, Some};
ghost use Rattle.std.proofs.lemmas.List.Edits.{sets};
ghost use Rattle.geometry.specs.Layer.{paint, filled};
ghost use Rattle.geometry.specs.Canvas.{InFrame, on_frame};

use crate::FrameArea;

// Fills a row of pixels. Rows of 100 take a third longer by the `fill` of a slice, which writes the last pixel apart.
fn fill_row(row: &mut [u8], grey: u8)
    ensures { row.new ≡ replicate (length row.old) grey }
{
    for pixel in row.iter_mut() {
        *pixel = grey;
    }
}

// Copies bytes over as many. Byte by byte: the slice's own method calls memmove, and the library takes memset alone from its host.
// By an index: with `to.iter_mut().zip(from)` the proof stops, since nothing ties what `to` holds at the end to what the pairs were given.
pub fn copy_bytes(to: &mut [u8], from: &[u8])
    requires { length to.old ≡ length from.now }
    ensures { to.new ≡ from.now }
{
    for i in 0..to.len() {
        to[i] = from[i];
    }
}

// Stores bytes from an offset on.
pub fn store_bytes(to: &mut [u8], at: usize, bytes: &[u8])
    requires { at + length bytes.now ≤ length to.old }
    ensures { to.new ≡ sets to.old at bytes.now }
{
    copy_bytes(&mut to[at..at + bytes.len()], bytes);
}

// Fills a rectangle of a frame fw wide: rows as wide as the frame are filled as one.
// A row is a part that starts mid-frame, as docs/DECISIONS.md, Forms that were asked for, names it.
pub fn fill_area(greys: &mut [u8], fw: usize, area: FrameArea, grey: u8)
    requires { InFrame fw (length greys.old) area }
    ensures { greys.new ≡ paint fw (filled (on_frame area) (Some grey)) greys.old }
{
    if area.width == fw {
        let a = area.top * fw;
        let b = a + area.height * fw;
        fill_row(&mut greys[a..b], grey);
        return;
    }
    for k in 0..area.height {
        let left = (area.top + k) * fw + area.left;
        let right = left + area.width;
        fill_row(&mut greys[left..right], grey);
    }
}
