// One line of text: its colours, its decorations and its drawing.
#![tactic(auto)]

ghost use Rattle.std.specs.Prelude.{◌≡◌, cond, ◌+◌, ◌^◌, ◌<◌, ◌≤◌, length};
ghost use Rattle.geometry.specs.Painted.{Painted};
ghost use Rattle.characters.specs.Utf8.{chars};
ghost use Rattle.mapping.specs.Mapping.{contains};
ghost use Rattle.line.specs.Line.{character_width, character_height, character, line_glyphs, spaced, advance, decoration, decorations, glyph_index, unlisted, string, whitespace};
ghost use Rattle.line.specs.Clip.{disjoint, shows_glyphs, is_beside, columns_of, met_character, met_unlisted};
ghost use Rattle.line.specs.Limits.{LengthLimit, PlaceLimits, CharacterLimits, ClipLimit, DecorationLimits, TopLimit};
ghost use Rattle.line.specs.Lent.{lent, PreparedFor};

use atlas::{Atlas, GlyphColors, ImageRaw};
pub use fonts::{Font, Line, Metrics};
use geometry::{Frame, Point, Rectangle};
use mapping::Start;

mod fonts;
mod measuring;

// Where a decoration stands below the top edge of a line, and how high it is.
#[derive(Clone, Copy, PartialEq, Eq, Debug)]
pub struct DecorationDimensions {
    pub offset: u32,
    pub height: u32,
}

// The numbers of a monospaced font.
#[derive(Clone, Copy, PartialEq, Eq, Debug)]
pub struct MonoFont {
    pub atlas: Atlas,
    pub replacement_index: u32,
    pub character_spacing: u32,
    pub baseline: u32,
    pub strikethrough: DecorationDimensions,
    pub underline: DecorationDimensions,
}

// The colour of a decoration.
#[derive(Clone, Copy, PartialEq, Eq, Debug)]
pub enum DecorationColor {
    None,
    TextColor,
    Custom(u8),
}

// The colours of a line of text.
#[derive(Clone, Copy, PartialEq, Eq, Debug)]
pub struct MonoTextStyle {
    pub text_color: Option<u8>,
    pub background_color: Option<u8>,
    pub underline_color: DecorationColor,
    pub strikethrough_color: DecorationColor,
}

// Which row of a line stands at its y.
#[derive(Clone, Copy, PartialEq, Eq, Debug)]
pub enum Baseline {
    Top,
    Bottom,
    Middle,
    Alphabetic,
}

// What drawing a line gives: the next x, and how many characters the font's mapping does not list, if they are counted.
#[derive(Clone, Copy, PartialEq, Eq, Debug)]
pub struct DrawnLine {
    pub next: u32,
    pub replaced: Option<u32>,
}

// What drawing the glyphs of a line gives: where they end, and how many characters that were looked up are not listed.
#[derive(Clone, Copy, PartialEq, Eq, Debug)]
struct DrawnGlyphs {
    end: u32,
    replaced: u32,
}

// Columns of the target: a character that ends before `first`, or starts at `end` or after it, stands beside them. All columns are columns too,
// so that one test serves: with an option, tested for each character, a page takes up to 1.08 of its time.
#[derive(Clone, Copy, PartialEq, Eq, Debug)]
struct Columns {
    first: u32,
    end: u32,
}

// A line with what its glyphs are drawn with: the image of its font's atlas, where the search in the font's mapping starts, and the columns
// in which characters are looked up.
#[derive(Clone, Copy, Debug, PartialEq, Eq)]
struct PreparedLine<'a> {
    line: Line<'a>,
    image: ImageRaw<'a>,
    start: Start,
    columns: Columns,
}

// Whether none of the n numbers from a on is among the m from b on.
#[tactic(auto, unfolding(crate::specs::Clip::disjoint))]
fn disjoint(a: u32, n: u32, b: u32, m: u32) -> bool
    ensures { result ≡ disjoint a n b m }
{
    n <= b.saturating_sub(a) || m <= a.saturating_sub(b)
}

impl Columns {
    // The columns of a clip, or all of them for characters that are counted.
    #[tactic(auto, unfolding(crate::specs::Clip::columns_of))]
    fn of_clip(clip: Rectangle, counts: bool) -> Columns
        requires { ClipLimit clip }
        ensures { result ≡ columns_of clip counts }
    {
        if counts {
            Columns {
                first: 0,
                end: 0xFFFFFFFF,
            }
        } else {
            Columns {
                first: clip.left + 1,
                end: clip.left + clip.width,
            }
        }
    }

    // Whether a character of a width at x stands beside them.
    #[tactic(auto, unfolding(crate::specs::Clip::is_beside))]
    fn is_beside(self, x: u32, width: u32) -> bool
        requires { x + width < 2 ^ 32 }
        ensures { result ≡ is_beside self x width }
    {
        let past = x + width;
        (past < self.first) | (self.end <= x)
    }
}

impl DecorationDimensions {
    // Draws a decoration of a line, as wide as the line is long.
    #[tactic(auto, unfolding(crate::specs::Line::decoration))]
    fn draw(self, frame: &mut Frame, color: Option<u8>, corner: Point, width: u32)
        requires { DecorationLimits self corner.y }
        ensures { Painted frame.old (decoration self color width corner.x corner.y) frame.new }
    {
        let area = Rectangle {
            left: corner.x,
            top: corner.y + self.offset,
            width,
            height: self.height,
        };
        frame.fill(area, color);
    }
}

impl Metrics {
    // Whether the glyphs of a line with its top edge at `top` can change a pixel in a clip's rows.
    #[tactic(auto, unfolding(crate::specs::Clip::shows_glyphs))]
    fn shows_glyphs(&self, clip: Rectangle, style: MonoTextStyle, top: u32) -> bool
        ensures { result ≡ shows_glyphs clip self.now.font style top }
    {
        if disjoint(top, self.font.atlas.cell_size.height, clip.top, clip.height) {
            return false;
        }
        style.is_painted()
    }

    // Draws the strikethrough, then the underline, of a line from `corner` on.
    fn draw_decorations(&self, frame: &mut Frame, style: MonoTextStyle, corner: Point, width: u32)
        requires { TopLimit corner.y }
        ensures { Painted frame.old (decorations self.now.font style width corner.x corner.y) frame.new }
    {
        let strikethrough = self.font.strikethrough;
        let underline = self.font.underline;
        let first = style.to_color(style.strikethrough_color);
        strikethrough.draw(frame, first, corner, width);
        let second = style.to_color(style.underline_color);
        underline.draw(frame, second, corner, width);
    }

    // `PlaceLimits` stays a clause: whitespace has no line, whose type holds it.

    // Draws whitespace of a width from `corner` on; gives the next x.
    pub fn draw_whitespace(
        &self,
        frame: &mut Frame,
        style: MonoTextStyle,
        corner: Point,
        width: u32,
    ) -> u32
        requires { PlaceLimits width corner.x corner.y }
        ensures painted { Painted frame.old (whitespace self.now.font style width corner.x corner.y) frame.new }
        ensures value { result ≡ corner.x + width }
    {
        let area = Rectangle {
            left: corner.x,
            top: corner.y,
            width,
            height: self.font.atlas.cell_size.height,
        };
        frame.fill(area, style.background_color);
        self.draw_decorations(frame, style, corner, width);
        corner.x + width
    }
}

impl<'a> PreparedLine<'a> {
    // Draws a gap in the background's grey and the glyph of a character after it, unless they stand beside the columns; gives the count, with the
    // character if it was looked up and is not listed. The count goes through it: added up by the caller, a page takes 1.02 of the instructions, and
    // pages are not to be slower than by 1 %.
    fn draw_character(&self, frame: &mut Frame, gap: Rectangle, ch: u32, count: u32) -> u32
        requires prepared_for { PreparedFor frame.old.target.clip_area self.now }
        requires gap_height { gap.height ≡ character_height self.now.line.font.metrics.font }
        requires character_limits { CharacterLimits gap.width gap.left count }
        ensures painted { Painted frame.old (character (lent self.now.line.font) self.now.line.style gap.width (glyph_index (lent self.now.line.font) ch) gap.left gap.top) frame.new }
        ensures value { result ≡ count + met_character self.now.columns self.now.line.font.mapping.bytes.now (gap.width + character_width self.now.line.font.metrics.font) ch gap.left }
    {
        let font = self.line.font.metrics.font;
        let width = gap.width + font.atlas.cell_size.width;
        if self.columns.is_beside(gap.left, width) {
            return count;
        }
        let mapping = self.line.font.mapping;
        let glyph = mapping.glyph_with(self.start, font.replacement_index, ch);
        let style = self.line.style;
        frame.fill(gap, style.background_color);
        let colors = GlyphColors {
            text: style.text_color,
            background: style.background_color,
        };
        let at = Point {
            x: gap.left + gap.width,
            y: gap.top,
        };
        self.image.draw_glyph(frame, colors, glyph.index, at);
        count + u32::from(!glyph.listed)
    }

    // Draws the glyphs of the line from its corner on, and the gaps between them.
    fn draw_glyphs(&self, frame: &mut Frame) -> DrawnGlyphs
        requires { PreparedFor frame.old.target.clip_area self.now }
        ensures painted { Painted frame.old (line_glyphs (lent self.now.line.font) self.now.line.style self.now.line.text.now self.now.line.corner.x self.now.line.corner.y) frame.new }
        ensures end_value { result.end ≡ self.now.line.corner.x + spaced self.now.line.font.metrics.font (length (chars self.now.line.text.now)) }
        ensures replaced_value { result.replaced ≡ met_unlisted self.now.columns self.now.line.font.metrics.font self.now.line.font.mapping.bytes.now 0 (chars self.now.line.text.now) self.now.line.corner.x }
    {
        let font = self.line.font.metrics.font;
        let size = font.atlas.cell_size;
        let spacing = font.character_spacing;
        let corner = self.line.corner;
        let mut x = corner.x;
        let mut gap: u32 = 0;
        let mut replaced: u32 = 0;
        for ch in characters::chars(self.line.text) {
            let area = Rectangle {
                left: x,
                top: corner.y,
                width: gap,
                height: size.height,
            };
            replaced = self.draw_character(frame, area, ch, replaced);
            x = x + gap + size.width;
            gap = spacing;
        }
        DrawnGlyphs { end: x, replaced }
    }
}

impl<'a> Line<'a> {
    // The next x of the line.
    fn next_x(&self) -> u32
        ensures { result ≡ self.now.corner.x + advance self.now.font.metrics.font self.now.style (length (chars self.now.text.now)) }
    {
        self.corner.x + self.font.metrics.advance(self.text, self.style)
    }

    // Draws the characters of the line; gives where they end, and the count of those in the clip's columns, or of all if they are counted.
    fn draw_all_characters(&self, frame: &mut Frame) -> DrawnGlyphs
        ensures painted { Painted frame.old (line_glyphs (lent self.now.font) self.now.style self.now.text.now self.now.corner.x self.now.corner.y) frame.new }
        ensures end_value { result.end ≡ self.now.corner.x + spaced self.now.font.metrics.font (length (chars self.now.text.now)) }
        ensures replaced_value { result.replaced ≡ met_unlisted (columns_of frame.old.target.clip_area self.now.counts) self.now.font.metrics.font self.now.font.mapping.bytes.now 0 (chars self.now.text.now) self.now.corner.x }
    {
        let font = self.font;
        let prepared = PreparedLine {
            line: *self,
            image: ImageRaw::new(font.atlas, font.metrics.font.atlas),
            start: font.mapping.start_of(self.text),
            columns: Columns::of_clip(frame.target.clip_area, self.counts),
        };
        prepared.draw_glyphs(frame)
    }

    // Draws the characters of the line, if the frame shows them or they are counted; gives the next x, and the count if they are counted.
    fn draw_characters(&self, frame: &mut Frame) -> DrawnLine
        ensures painted { Painted frame.old (line_glyphs (lent self.now.font) self.now.style self.now.text.now self.now.corner.x self.now.corner.y) frame.new }
        ensures next_value { result.next ≡ self.now.corner.x + advance self.now.font.metrics.font self.now.style (length (chars self.now.text.now)) }
        ensures replaced_value { result.replaced ≡ cond self.now.counts (Some (unlisted self.now.font.mapping.bytes.now (chars self.now.text.now))) None }
    {
        let shown = self
            .font
            .metrics
            .shows_glyphs(frame.target.clip_area, self.style, self.corner.y);
        if !(shown | self.counts) {
            let next = self.next_x();
            return DrawnLine {
                next,
                replaced: None,
            };
        }
        let drawn = self.draw_all_characters(frame);
        let replaced = self.counts.then_some(drawn.replaced);
        if shown {
            return DrawnLine {
                next: drawn.end,
                replaced,
            };
        }
        let next = self.next_x();
        DrawnLine { next, replaced }
    }

    // Draws the line from its corner on; gives the next x, and how many characters are not listed if they are counted.
    pub fn draw_string(&self, frame: &mut Frame) -> DrawnLine
        ensures painted { Painted frame.old (string (lent self.now.font) self.now.style self.now.text.now self.now.corner.x self.now.corner.y) frame.new }
        ensures next_value { result.next ≡ self.now.corner.x + advance self.now.font.metrics.font self.now.style (length (chars self.now.text.now)) }
        ensures replaced_value { result.replaced ≡ cond self.now.counts (Some (unlisted self.now.font.mapping.bytes.now (chars self.now.text.now))) None }
    {
        let drawn = self.draw_characters(frame);
        let width = drawn.next - self.corner.x;
        self.font
            .metrics
            .draw_decorations(frame, self.style, self.corner, width);
        drawn
    }
}
