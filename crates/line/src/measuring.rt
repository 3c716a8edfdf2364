// What a line measures: its advance, its measured box and its ink box.
ghost use Rattle.std.specs.Prelude.{◌≡◌, ◌+◌, ◌*◌, length};
ghost use Rattle.characters.specs.Utf8.{chars};
ghost use Rattle.line.specs.Line.{character_width, spacing, baseline_offset, is_painted, to_color, advance, measured_width, measured_height, measured_box, rows_if, ink_rows, ink_box};
ghost use Rattle.line.specs.Limits.{LengthLimit, TopLimit};

use super::{Baseline, DecorationColor, Metrics, MonoFont, MonoTextStyle};
use geometry::{Point, Rectangle};

impl MonoTextStyle {
    // Whether the characters take a grey at all.
    #[tactic(auto, unfolding(crate::specs::Line::is_painted))]
    pub fn is_painted(self) -> bool
        ensures { result ≡ is_painted self }
    {
        self.text_color.is_some() || self.background_color.is_some()
    }

    // The grey of a decoration.
    #[tactic(auto, unfolding(crate::specs::Line::to_color))]
    pub fn to_color(self, color: DecorationColor) -> Option<u8>
        ensures { result ≡ to_color self color }
    {
        match color {
            DecorationColor::None => None,
            DecorationColor::TextColor => self.text_color,
            DecorationColor::Custom(grey) => Some(grey),
        }
    }
}

// The rows of a part of a line, `height` of them from `offset` below its top edge on, as a column of pixels; none if the part does not count.
// A flag and two numbers, as its definition has them: the characters' part has no offset, so that an option would be of numbers put together for it.
fn rows_if(counts: bool, offset: u32, height: u32) -> Rectangle
    ensures { result ≡ rows_if counts offset height }
{
    Rectangle {
        left: 0,
        top: offset,
        width: 1,
        height: if counts { height } else { 0 },
    }
}

impl MonoFont {
    // How far the top edge of a line is above its y.
    #[tactic(auto, unfolding(crate::specs::Line::baseline_offset))]
    pub fn baseline_offset(self, baseline: Baseline) -> u32
        ensures { result ≡ baseline_offset self baseline }
    {
        let height = self.atlas.cell_size.height;
        match baseline {
            Baseline::Top => 0,
            Baseline::Bottom => height.saturating_sub(1),
            Baseline::Middle => height.saturating_sub(1) / 2,
            Baseline::Alphabetic => self.baseline,
        }
    }
}

// `LengthLimit` stays a clause: a part of a text is lent anew for each measure, and a type of it would be made there for the two functions below.
impl Metrics {
    // How wide a line's characters stand, each with the spacing after it.
    fn characters_width(&self, text: &[u8]) -> u32
        requires { LengthLimit (length text.now) }
        ensures { result ≡ length (chars text.now) * (character_width self.now.font + spacing self.now.font) }
    {
        let pitch = self.font.atlas.cell_size.width + self.font.character_spacing;
        let n = characters::count(text) as u32;
        n * pitch
    }

    // How far a line advances.
    pub fn advance(&self, text: &[u8], style: MonoTextStyle) -> u32
        requires { LengthLimit (length text.now) }
        ensures { result ≡ advance self.now.font style (length (chars text.now)) }
    {
        let width = self.characters_width(text);
        if style.is_painted() {
            return width.saturating_sub(self.font.character_spacing);
        }
        width
    }

    // The measured width of a line.
    #[tactic(auto, unfolding(crate::specs::Line::measured_width))]
    pub fn measured_width(&self, text: &[u8]) -> u32
        requires { LengthLimit (length text.now) }
        ensures { result ≡ measured_width self.now.font (length (chars text.now)) }
    {
        let width = self.characters_width(text);
        width.saturating_sub(self.font.character_spacing)
    }

    // The measured height of a line: the underline counts by its mode, drawn or not.
    #[tactic(auto, unfolding(crate::specs::Line::measured_height))]
    fn measured_height(&self, style: MonoTextStyle) -> u32
        ensures { result ≡ measured_height self.now.font style }
    {
        match style.underline_color {
            DecorationColor::None => self.font.atlas.cell_size.height,
            _ => self.font.underline.offset + self.font.underline.height,
        }
    }

    // The measured box of a line from `corner` on: its start and its top edge.
    #[tactic(auto, unfolding(crate::specs::Line::measured_box))]
    pub fn measure_string(&self, text: &[u8], style: MonoTextStyle, corner: Point) -> Rectangle
        requires { LengthLimit (length text.now) }
        ensures { result ≡ measured_box self.now.font style (length (chars text.now)) corner.x corner.y }
    {
        let width = self.measured_width(text);
        let height = self.measured_height(style);
        Rectangle {
            left: corner.x,
            top: corner.y,
            width,
            height,
        }
    }

    // The rows of a line that count as ink, below its top edge, and those between them.
    pub fn ink_rows(&self, style: MonoTextStyle) -> Rectangle
        ensures { result ≡ ink_rows self.now.font style }
    {
        let strikethrough = self.font.strikethrough;
        let underline = self.font.underline;
        let strikes = style.to_color(style.strikethrough_color).is_some();
        let underlines = style.to_color(style.underline_color).is_some();
        let characters = rows_if(style.is_painted(), 0, self.font.atlas.cell_size.height);
        let above = rows_if(strikes, strikethrough.offset, strikethrough.height);
        let below = rows_if(underlines, underline.offset, underline.height);
        characters.join(above).join(below)
    }

    // The ink box of a line from `corner` on: its start and its top edge.
    pub fn ink_box(&self, text: &[u8], style: MonoTextStyle, corner: Point) -> Rectangle
        requires length_limit { LengthLimit (length text.now) }
        requires top_limit { TopLimit corner.y }
        ensures { result ≡ ink_box self.now.font style (length (chars text.now)) corner.x corner.y }
    {
        let width = self.advance(text, style);
        let rows = self.ink_rows(style);
        let first = corner.y + rows.top;
        Rectangle {
            left: corner.x,
            top: first,
            width,
            height: rows.height,
        }
    }
}
