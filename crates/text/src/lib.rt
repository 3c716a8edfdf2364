// A text: its lines, where each stands, and its drawing.
#![tactic(auto)]

ghost use Rattle.std.specs.Prelude.{◌≡◌, cond, Some, None, length};
ghost use Rattle.geometry.specs.Painted.{Painted};
ghost use Rattle.characters.specs.Utf8.{chars};
ghost use Rattle.line.specs.Line.{top_edge, measured_width};
ghost use Rattle.text.specs.Text.{aligned_start, line_height, line_layer, layer, line_next, next, line_replaced, replaced};
ghost use Rattle.text.specs.Lines.{line_corner, is_below};
ghost use Rattle.text.specs.Lent.{lent_font, lent_text, line_text, placed_line};

use characters::lines::without_return;
use geometry::{Frame, Point, Rectangle};
use line::{Baseline, DrawnLine, Font, Line, Metrics};
pub use placed::TextLines;
pub use texts::{Text, TextLayout, TextLine};

mod boxes;
mod placed;
mod texts;

// Where the lines of a text stand beside its x.
#[derive(Clone, Copy, PartialEq, Eq, Debug)]
pub enum Alignment {
    Left,
    Center,
    Right,
}

// How much lower each line stands than the one before: in pixels, or in percent of the characters' height.
#[derive(Clone, Copy, PartialEq, Eq, Debug)]
pub enum LineHeight {
    Pixels(u32),
    Percent(u32),
}

// How the lines of a text are set.
#[derive(Clone, Copy, PartialEq, Eq, Debug)]
pub struct TextStyle {
    pub alignment: Alignment,
    pub baseline: Baseline,
    pub line_height: LineHeight,
}

// What drawing a text replies: the next position of its last line, and how many characters of its lines the font's mapping does not
// list.
#[derive(Clone, Copy, PartialEq, Eq, Debug)]
pub struct DrawnText {
    pub next: Point,
    pub replaced: u32,
}

impl TextStyle {
    // The top edge of a line at y.
    fn top_edge(self, metrics: Metrics, y: u32) -> u32
        ensures { result ≡ top_edge metrics.font self.baseline y }
    {
        y.saturating_sub(metrics.font.baseline_offset(self.baseline))
    }

    // Whether a text at y starts below a clip, so that nothing of it is shown.
    #[tactic(auto, unfolding(crate::specs::Lines::is_below))]
    pub fn starts_below(self, metrics: Metrics, y: u32, clip: Rectangle) -> bool
        ensures { result ≡ is_below clip (top_edge metrics.font self.baseline y) }
    {
        let top = self.top_edge(metrics, y);
        clip.height <= top.saturating_sub(clip.top)
    }
}

impl<'a> TextLayout<'a> {
    // How much lower each line stands than the one before.
    #[tactic(auto, using(crate::proofs::Places::percent_fits), unfolding(crate::specs::Text::line_height))]
    fn line_height(&self) -> u32
        ensures { result ≡ line_height self.now.metrics.font self.now.text_style.line_height }
    {
        match self.text_style.line_height {
            LineHeight::Pixels(pixels) => pixels,
            LineHeight::Percent(percent) => {
                self.metrics.font.atlas.cell_size.height * percent / 100
            }
        }
    }

    // Where a line starts; only an alignment that needs the line's width measures it.
    #[tactic(auto, unfolding(crate::specs::Text::aligned_start))]
    fn aligned_start(&self, line: &TextLine) -> u32
        ensures { result ≡ aligned_start self.now.text_style.alignment line.now.position.x (measured_width self.now.metrics.font (length (chars line.now.text.now))) }
    {
        let x = line.position.x;
        match self.text_style.alignment {
            Alignment::Left => x,
            Alignment::Center => {
                let width = self.metrics.measured_width(line.text);
                x.saturating_sub(width.saturating_sub(1) / 2)
            }
            Alignment::Right => (x + 1).saturating_sub(self.metrics.measured_width(line.text)),
        }
    }

    // The corner of a line: its start, measured with its return, and its top edge.
    #[tactic(auto, unfolding(crate::specs::Lines::line_corner))]
    fn line_corner(&self, line: &TextLine) -> Point
        ensures { result ≡ line_corner self.now.metrics.font self.now.text_style line.now.text.now line.now.position.x line.now.position.y }
    {
        Point {
            x: self.aligned_start(line),
            y: self.text_style.top_edge(self.metrics, line.position.y),
        }
    }
}

impl<'a> Text<'a> {
    // Draws one line of the text, given with its return if it has one; gives the next x, and the count if the line counts.
    fn draw_line(&self, frame: &mut Frame, line: &TextLine, counts: bool) -> DrawnLine
        ensures painted { Painted frame.old (line_layer (lent_font self.now) (line_text self.now.layout line.now) (placed_line self.now.layout line.now)) frame.new }
        ensures next_value { result.next ≡ (line_next self.now.layout.metrics.font (line_text self.now.layout line.now) (placed_line self.now.layout line.now)).x }
        ensures replaced_value { result.replaced ≡ cond counts (Some (line_replaced self.now.mapping.bytes.now (placed_line self.now.layout line.now))) None }
    {
        let layout = &self.layout;
        let shown = Line {
            text: without_return(line.text),
            font: Font::new(layout.metrics, self.atlas, self.mapping),
            style: layout.character_style,
            corner: layout.line_corner(line),
            counts,
        };
        shown.draw_string(frame)
    }

    // Draws the text; gives the next position of its last line, and how many characters of its lines the font's mapping does not list.
    // Each line is drawn to count, so that there always is a count and never the 0.
    pub fn draw(&self, frame: &mut Frame) -> DrawnText
        ensures painted { Painted frame.old (layer (lent_font self.now) (lent_text self.now.layout)) frame.new }
        ensures next_value { result.next ≡ next self.now.layout.metrics.font (lent_text self.now.layout) }
        ensures replaced_value { result.replaced ≡ replaced (lent_font self.now) (lent_text self.now.layout) }
    {
        let mut next = self.layout.position;
        let mut replaced: u32 = 0;
        for line in self.layout.lines() {
            let drawn = self.draw_line(frame, &line, true);
            next = Point {
                x: drawn.next,
                y: line.position.y,
            };
            replaced += drawn.replaced.unwrap_or(0);
        }
        DrawnText { next, replaced }
    }

    // Draws the text as far as it is shown: the first line below the clip ends it, since those after that one stand no higher. It is told by its
    // y, before its end is looked for.
    pub fn paint(&self, frame: &mut Frame)
        ensures { Painted frame.old (layer (lent_font self.now) (lent_text self.now.layout)) frame.new }
    {
        let layout = &self.layout;
        let clip = frame.target.clip_area;
        if layout
            .text_style
            .starts_below(layout.metrics, layout.position.y, clip)
        {
            return;
        }
        let height = layout.line_height();
        for line in layout.lines() {
            self.draw_line(frame, &line, false);
            let y = line.position.y + height;
            if layout.text_style.starts_below(layout.metrics, y, clip) {
                return;
            }
        }
    }
}
