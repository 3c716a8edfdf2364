// The lines of a text, one after another, each in its place.
ghost use Rattle.std.specs.Prelude.{◌≡◌, unwrap_or, length};
ghost use Rattle.text.specs.Text.{line_height};
ghost use Rattle.text.specs.Limits.{LinesLimits};

use super::boxes::line_of;
use super::texts::{TextLayout, TextLine};
use geometry::Point;

// The lines of a text, or of a new one in its place, from the one on that starts at `from`; none where that lies past the text.
// It keeps an offset and not the rest: `line_of`, which cuts each line, says where in its text a line lies.
#[derive(Clone, Copy, PartialEq, Eq, Debug)]
pub struct TextLines<'a> {
    layout: &'a TextLayout<'a>,
    new: Option<&'a [u8]>,
    from: usize,
    y: u32,
    height: u32,
    ghost lower_by: { height ≡ line_height layout.now.metrics.font layout.now.text_style.line_height },
    ghost limits: { LinesLimits (length (unwrap_or new layout.now.text).now) layout.now.position.y from y },
}

impl<'a> TextLayout<'a> {
    ghost use Rattle.std.specs.Prelude.{◌≡◌, unwrap_or, ◌≤◌, length};
    ghost use Rattle.text.specs.Text.{laid_out, placed_lines};
    ghost use Rattle.text.specs.Remaining.{lines_left};

    // The lines of the text.
    pub fn lines(&self) -> TextLines<'_>
        ensures layout_value { result.layout.now ≡ self.now }
        ensures left_value { lines_left result ≡ placed_lines self.now.metrics.font (laid_out self.now self.now.text.now) }
    {
        self.lines_of(None)
    }

    // The lines of the text, or of a new one in its place. That this is short stays a clause, here and of the boxes: it is lent anew at each call.
    pub fn lines_of<'b>(&'b self, new: Option<&'b [u8]>) -> TextLines<'b>
        requires { length (unwrap_or new self.now.text).now ≤ 4_096 }
        ensures layout_value { result.layout.now ≡ self.now }
        ensures left_value { lines_left result ≡ placed_lines self.now.metrics.font (laid_out self.now (unwrap_or new.entry self.now.text).now) }
    {
        TextLines {
            layout: self,
            new,
            from: 0,
            y: self.position.y,
            height: self.line_height(),
        }
    }
}

impl<'a> Iterator for TextLines<'a> {
    ghost use Rattle.std.specs.Iterator.{item_count};
    ghost use Rattle.text.specs.Remaining.{lines_left, GivesLine};

    type Item = TextLine<'a>;

    ghost next_gives = { GivesLine };

    ghost remaining = { item_count lines_left };

    fn next(&mut self) -> Option<TextLine<'a>> {
        let layout = self.layout;
        if self.new.unwrap_or(layout.text).len() < self.from {
            return None;
        }
        let text = line_of(layout.text, self.new, self.from);
        let position = Point {
            x: layout.position.x,
            y: self.y,
        };
        self.from += text.len() + 1;
        self.y += self.height;
        Some(TextLine { text, position })
    }
}
