// A walker over one line, for hosts.
ghost use Rattle.std.specs.Prelude.{◌≡◌};
ghost use Rattle.characters.specs.Utf8.{step_at};
ghost use Rattle.characters.specs.Walker.{moved_to};

use super::{Cursor, Step};

// The line's bytes and the offset of the next character: a host keeps both. docs/DECISIONS.md, Forms that were asked for, names these two and
// `new`, `next` and `moved`.
#[derive(Clone, Copy, Debug, PartialEq, Eq)]
pub struct Walker<'a> {
    pub line: &'a [u8],
    pub at: usize,
}

impl<'a> Walker<'a> {
    // A walker from an offset of a line on.
    pub fn new(line: &'a [u8], at: usize) -> Self
        ensures { (result.line ≡ line.entry) × (result.at ≡ at) }
    {
        Walker { line, at }
    }

    // What stands at the walker's offset.
    pub fn next(self) -> Step
        ensures { result ≡ step_at self.entry.line.now self.entry.at }
    {
        super::next(self.line, Cursor { at: self.at })
    }

    // The walker moved on: the same line, at a cursor.
    pub fn moved(self, c: Cursor) -> Self
        ensures { result ≡ moved_to self.entry c }
    {
        Walker {
            line: self.line,
            at: c.at,
        }
    }
}

// One step of a walker over a line, for a caller that keeps the line and the offset.
pub fn walk_from(line: &[u8], at: usize) -> Step
    ensures { result ≡ step_at line.now at }
{
    Walker::new(line, at).next()
}
