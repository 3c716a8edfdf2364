// A font as it is lent: its numbers within their limits, the bytes of its atlas, and its mapping; and a line that is set in it.
ghost use Rattle.std.specs.Prelude.{length};
ghost use Rattle.line.specs.Limits.{FontLimits, PlaceLimits};

use super::{MonoFont, MonoTextStyle};
use geometry::Point;
use mapping::Mapping;

// The numbers of a font, within the limits of docs/SHEET.md, Sheet.
#[derive(Clone, Copy, Debug, PartialEq, Eq)]
pub struct Metrics {
    pub font: MonoFont,
    ghost limits: { FontLimits font },
}

// A font: its numbers, the bytes of its atlas, which are lent, and its mapping.
#[derive(Clone, Copy, Debug, PartialEq, Eq)]
pub struct Font<'a> {
    pub metrics: Metrics,
    pub atlas: &'a [u8],
    pub mapping: Mapping<'a>,
}

// A line of text with what it is drawn in: its font, its colours, and its corner, where it starts and its top edge; and whether the characters
// that its font does not list are counted.
// The flag chooses once for a line in which columns characters are looked up: tested for each of them, the first page took 1.03 to 1.11 of its time.
#[derive(Clone, Copy, Debug, PartialEq, Eq)]
pub struct Line<'a> {
    pub text: &'a [u8],
    pub font: Font<'a>,
    pub style: MonoTextStyle,
    pub corner: Point,
    pub counts: bool,
    ghost limits: { PlaceLimits (length text.now) corner.x corner.y },
}

impl Metrics {
    ghost use Rattle.std.specs.Prelude.{◌≡◌};
    ghost use Rattle.line.specs.Limits.{FontLimits};

    // The metrics of a font with these numbers.
    pub fn new(font: MonoFont) -> Metrics
        requires { FontLimits font }
        ensures { result.font ≡ font }
    {
        Metrics { font }
    }
}

impl<'a> Font<'a> {
    ghost use Rattle.std.specs.Prelude.{◌≡◌};
    ghost use Rattle.line.specs.Line.{font_of};
    ghost use Rattle.line.specs.Lent.{lent};

    // The font of these numbers, this atlas and this mapping.
    pub fn new(metrics: Metrics, atlas: &'a [u8], mapping: Mapping<'a>) -> Font<'a>
        ensures metrics_value { result.metrics ≡ metrics }
        ensures value { lent result ≡ font_of metrics.font atlas.now mapping.entry.bytes.now }
    {
        Font {
            metrics,
            atlas,
            mapping,
        }
    }
}
