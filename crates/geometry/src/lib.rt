// Points, rectangles, and the frame as a draw target that is filled.
// Coordinates are counted from a point 2^21 columns left of and 2^21 rows above the frame's corner, so that each is a natural
// number.
#![tactic(auto)]

ghost use Rattle.std.specs.Prelude.{◌≡◌, ◌+◌, ◌-◌, min, max};
ghost use Rattle.geometry.specs.Rectangle.{is_empty, envelope, join, intersection};
ghost use Rattle.geometry.specs.Canvas.{EndsFit, StartsOnFrame, from_corner};

pub use canvas::Frame;
pub use filling::{copy_bytes, store_bytes};

mod canvas;
mod filling;

// The column and the row of the frame's corner.
pub const ORIGIN: u32 = 2097152;

// A point: embedded-graphics' `Point`.
#[derive(Clone, Copy, PartialEq, Eq, Debug)]
pub struct Point {
    pub x: u32,
    pub y: u32,
}

// The extent of a rectangle: embedded-graphics' `Size`.
#[derive(Clone, Copy, PartialEq, Eq, Debug)]
pub struct Size {
    pub width: u32,
    pub height: u32,
}

// A rectangle by its corner and its extent, as docs/SHEET.md names them (Geometry).
#[derive(Clone, Copy, PartialEq, Eq, Debug)]
pub struct Rectangle {
    pub left: u32,
    pub top: u32,
    pub width: u32,
    pub height: u32,
}

// The frame as a draw target: its sides, and the area in which its pixels may change. embedded-graphics' `DrawTarget`, clipped.
#[derive(Clone, Copy, PartialEq, Eq, Debug)]
pub struct DrawTarget {
    pub width: usize,
    pub height: usize,
    pub clip_area: Rectangle,
}

// A rectangle of the frame, its column and row counted from the frame's corner.
// Not `Rectangle` over another number: columns of the frame are not to be taken for coordinates.
#[derive(Clone, Copy, PartialEq, Eq, Debug)]
pub struct FrameArea {
    pub left: usize,
    pub top: usize,
    pub width: usize,
    pub height: usize,
}

impl Rectangle {
    // Whether the rectangle covers no pixel.
    #[tactic(auto, unfolding(crate::specs::Rectangle::is_empty))]
    pub fn is_empty(self) -> bool
        ensures { result ≡ is_empty self }
    {
        self.width == 0 || self.height == 0
    }

    // `EndsFit` stays a clause: the four numbers are public, and a rectangle that fails it is as good elsewhere.

    // The smallest rectangle that holds both.
    pub fn envelope(self, other: Rectangle) -> Rectangle
        requires ends_fit { EndsFit self }
        requires ends_fit_2 { EndsFit other }
        ensures { result ≡ envelope self other }
    {
        let left = self.left.min(other.left);
        let top = self.top.min(other.top);
        let right = (self.left + self.width).max(other.left + other.width);
        let foot = (self.top + self.height).max(other.top + other.height);
        Rectangle {
            left,
            top,
            width: right - left,
            height: foot - top,
        }
    }

    // The smallest rectangle that holds those of the two that are not empty.
    pub fn join(self, other: Rectangle) -> Rectangle
        requires ends_fit { EndsFit self }
        requires ends_fit_2 { EndsFit other }
        ensures { result ≡ join self other }
    {
        if other.is_empty() {
            return self;
        }
        if self.is_empty() {
            return other;
        }
        self.envelope(other)
    }

    // What the two rectangles share.
    pub fn intersection(self, other: Rectangle) -> Rectangle
        ensures { result ≡ intersection self other }
    {
        let left = self.left.max(other.left);
        let top = self.top.max(other.top);
        let width = shared(self.left, self.width, other.left, other.width);
        let height = shared(self.top, self.height, other.top, other.height);
        Rectangle {
            left,
            top,
            width,
            height,
        }
    }

    // The rectangle with its column and row counted from the frame's corner.
    pub fn on_frame(self) -> FrameArea
        requires { StartsOnFrame self }
        ensures { result ≡ from_corner self }
    {
        FrameArea {
            left: (self.left - ORIGIN) as usize,
            top: (self.top - ORIGIN) as usize,
            width: self.width as usize,
            height: self.height as usize,
        }
    }
}

// How many of the n numbers from a on are among the m from b on.
fn shared(a: u32, n: u32, b: u32, m: u32) -> u32
    ensures { result ≡ min (a + n) (b + m) - max a b }
{
    let from = a.max(b);
    let first = n.saturating_sub(from - a);
    let second = m.saturating_sub(from - b);
    first.min(second)
}
