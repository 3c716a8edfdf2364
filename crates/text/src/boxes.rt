// The boxes of a text: of its lines, found between two line feeds of the stored text or of a new one, and joined; and whether the ink box can
// meet a clip, told without its characters.
ghost use Rattle.std.specs.Prelude.{◌≡◌, true, cond, unwrap_or, ℕ, ◌+◌, ◌*◌, ◌≤◌, eqb, map, length};
ghost use Rattle.std.specs.Fn.{FnReturnsAt};
ghost use Rattle.geometry.specs.declared.Rectangle.{Rectangle};
ghost use Rattle.geometry.specs.Rectangle.{is_empty, joins, intersection};
ghost use Rattle.geometry.specs.Canvas.{EndsFit};
ghost use Rattle.characters.specs.Lines.{line_from};
ghost use Rattle.line.specs.declared.MonoTextStyle.{MonoTextStyle};
ghost use Rattle.line.specs.Line.{character_width, spacing};
ghost use Rattle.text.specs.Text.{PlacedLine, text_of, laid_out, line_height, placed_lines, nowhere, measured_box, bounding_box, line_ink, ink_box};
ghost use Rattle.text.specs.Boxes.{BoxesFit, GivesBoxes};
ghost use Rattle.text.specs.Lines.{feed_count, start_reach, LiesAt};
ghost use Rattle.text.specs.Lent.{lent_text, placed_line};

use super::Alignment;
use super::texts::{TextLayout, TextLine};
use characters::lines::{line_length, without_return};
use geometry::Rectangle;

// The line that starts at `from`: a part of the new text, or of the stored one if none is new, by its bytes and by where they lie.
// By an offset, as docs/DECISIONS.md, Forms that were asked for, names it: the contract says where in its text the line lies.
pub fn line_of<'a>(stored: &'a [u8], new: Option<&'a [u8]>, from: usize) -> &'a [u8]
    requires { from ≤ length (unwrap_or new stored).now }
    ensures result_value { result.now ≡ line_from (unwrap_or new.entry stored.entry).now from }
    ensures lies_at { LiesAt (unwrap_or new.entry stored.entry).ref_ptr from result.ref_ptr }
{
    let text = new.unwrap_or(stored);
    let rest = &text[from..];
    &rest[..line_length(rest)]
}

// How many line feeds a text has. Summed as `u16`s: a count of what a `filter` leaves takes twice the instructions at 20 bytes.
fn feed_count(text: &[u8]) -> u32
    requires { length text.now ≤ 4_096 }
    ensures { result ≡ feed_count text.now }
{
    let feeds: u16 = text.iter().map(|byte| u16::from(*byte == 0x0A)).sum();
    u32::from(feeds)
}

impl Alignment {
    // How far from x a line that is at most `widest` wide can start.
    #[tactic(auto, unfolding(crate::specs::Lines::start_reach))]
    fn start_reach(self, widest: u32) -> u32
        requires { widest ≤ 1_048_576 }
        ensures { result ≡ start_reach self widest }
    {
        match self {
            Alignment::Left => 0,
            Alignment::Center | Alignment::Right => widest + 1,
        }
    }
}

impl<'a> TextLayout<'a> {
    // `EndsFit` stays a clause, for the reason above `Rectangle::envelope` of geometry.

    // The measured box of one line of the text.
    fn line_measured_box(&self, line: &TextLine) -> Rectangle
        ensures value { result ≡ measured_box self.now.metrics.font (lent_text self.now) (placed_line self.now line.now) }
        ensures ends_fit { EndsFit result }
    {
        let shown = without_return(line.text);
        let corner = self.line_corner(line);
        self.metrics
            .measure_string(shown, self.character_style, corner)
    }

    // The ink box of one line of the text.
    fn line_ink_box(&self, line: &TextLine) -> Rectangle
        ensures value { result ≡ line_ink self.now.metrics.font (lent_text self.now) (placed_line self.now line.now) }
        ensures ends_fit { EndsFit result }
    {
        let shown = without_return(line.text);
        let corner = self.line_corner(line);
        self.metrics.ink_box(shown, self.character_style, corner)
    }

    // The empty rectangle at the text's position.
    fn nowhere(&self) -> Rectangle
        ensures value { result ≡ nowhere (lent_text self.now) }
        ensures ends_fit { EndsFit result }
    {
        Rectangle {
            left: self.position.x,
            top: self.position.y,
            width: 0,
            height: 0,
        }
    }

    // The smallest rectangle that holds the boxes of the text's lines, or of those of a new text in its place, by what gives a line's box.
    fn joined<F: Fn(&TextLine<'_>) -> Rectangle>(
        &self,
        new: Option<&'a [u8]>,
        box_of: F,
    ) -> Rectangle
        requires length_limit { length (unwrap_or new self.now.text).now ≤ 4_096 }
        requires callable { F.IsAlwaysCallable box_of }
        requires ends_fit { BoxesFit (FnReturnsAt F.Fn box_of) }
        ensures value { (box : PlacedLine → Rectangle) → GivesBoxes self.now (FnReturnsAt F.Fn box_of) box → result ≡ joins (nowhere (lent_text self.now)) (map box (placed_lines self.now.metrics.font (laid_out self.now (unwrap_or new.entry self.now.text).now))) }
        ensures ends_fit { EndsFit result }
    {
        let mut area = self.nowhere();
        for line in self.lines_of(new) {
            let shown = box_of(&line);
            area = area.join(shown);
        }
        area
    }

    // The measured box of the text: the smallest rectangle that holds those of its lines.
    pub fn bounding_box(&self) -> Rectangle
        ensures { result ≡ bounding_box self.now.metrics.font (lent_text self.now) }
    {
        self.joined(None, |line| self.line_measured_box(line))
    }

    // The ink box of the text.
    pub fn ink_box(&self) -> Rectangle
        ensures value { result ≡ ink_box self.now.metrics.font (lent_text self.now) }
        ensures ends_fit { EndsFit result }
    {
        self.ink_box_of(None)
    }

    // The ink box of the text, or of a new one in its place: the smallest rectangle that holds those of its lines.
    pub fn ink_box_of(&self, new: Option<&'a [u8]>) -> Rectangle
        requires { length (unwrap_or new self.now.text).now ≤ 4_096 }
        ensures value { result ≡ ink_box self.now.metrics.font (laid_out self.now (unwrap_or new.entry self.now.text).now) }
        ensures ends_fit { EndsFit result }
    {
        self.joined(new, |line| self.line_ink_box(line))
    }

    // How wide a line of the text is at most: a character for each byte of the text.
    fn most_width(&self) -> u32
        ensures value { result ≡ length self.now.text.now * (character_width self.now.metrics.font + spacing self.now.metrics.font) }
        ensures upper_bound { result ≤ 1_048_576 }
    {
        let font = self.metrics.font;
        let pitch = font.atlas.cell_size.width + font.character_spacing;
        self.text.len() as u32 * pitch
    }

    // How much lower the last line of the text stands than the first.
    fn lines_span(&self) -> u32
        ensures value { result ≡ feed_count self.now.text.now * line_height self.now.metrics.font self.now.text_style.line_height }
        ensures upper_bound { result ≤ 4_194_304 }
    {
        feed_count(self.text) * self.line_height()
    }

    // Whether a clip lies beside what the text's widest line could reach, in whatever style and at whatever y.
    fn is_beside(&self, clip: Rectangle) -> bool
        ensures { result ≡ true → (style : MonoTextStyle) (y : ℕ) → is_empty (intersection (ink_box self.now.metrics.font (text_of self.now.text.now self.now.position.x y style self.now.text_style)) clip) ≡ true }
    {
        let x = self.position.x;
        let widest = self.most_width();
        let reach = self.text_style.alignment.start_reach(widest);
        if clip.width <= x.saturating_sub(reach).saturating_sub(clip.left) {
            return true;
        }
        x + reach + widest <= clip.left
    }

    // Whether the text's ink box is known not to meet a clip: the clip lies beside its lines, no row of a line counts, or the clip ends above
    // the first row of ink or starts below the last.
    pub fn is_apart(&self, clip: Rectangle) -> bool
        ensures { result ≡ true → is_empty (intersection (ink_box self.now.metrics.font (lent_text self.now)) clip) ≡ true }
    {
        if self.is_beside(clip) {
            return true;
        }
        let rows = self.metrics.ink_rows(self.character_style);
        if rows.height == 0 {
            return true;
        }
        let edge = self.text_style.top_edge(self.metrics, self.position.y);
        let top = edge + rows.top;
        if clip.height <= top.saturating_sub(clip.top) {
            return true;
        }
        top + self.lines_span() + rows.height <= clip.top
    }
}
