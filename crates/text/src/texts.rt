// A text as it is measured and as it is drawn, and a line of it.
ghost use Rattle.std.specs.Prelude.{length};
ghost use Rattle.text.specs.Limits.{TextLimits, LineLimits};

use super::TextStyle;
use geometry::Point;
use line::{Metrics, MonoTextStyle};
use mapping::Mapping;

// A text as it is measured: its bytes, which are lent, the numbers of its font, where it stands and how it is set.
#[derive(Clone, Copy, PartialEq, Eq, Debug)]
pub struct TextLayout<'a> {
    pub text: &'a [u8],
    pub metrics: Metrics,
    pub position: Point,
    pub character_style: MonoTextStyle,
    pub text_style: TextStyle,
    ghost limits: { TextLimits (length text.now) position.x position.y text_style.line_height },
}

// A text as it is drawn, embedded-graphics' `Text`: the bytes of its font's atlas and its mapping are lent with it.
#[derive(Clone, Copy, PartialEq, Eq, Debug)]
pub struct Text<'a> {
    pub layout: TextLayout<'a>,
    pub atlas: &'a [u8],
    pub mapping: Mapping<'a>,
}

// A line of a text: its bytes, with its return if it has one, and where it is set.
#[derive(Clone, Copy, PartialEq, Eq, Debug)]
pub struct TextLine<'a> {
    pub text: &'a [u8],
    pub position: Point,
    ghost limits: { LineLimits (length text.now) position.x position.y },
}
