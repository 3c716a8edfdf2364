// The replies by value: a good one from numbers counted from the origin, and a refused one, with zeros, by any number or by the refusal.
ghost use Rattle.std.specs.Prelude.{◌≡◌, ◌<◌, ◌^◌};
ghost use Rattle.refusals.specs.Numbers.{number};
ghost use Rattle.geometry.specs.Layer.{signed};
ghost use Rattle.calls.specs.Calls.{position_reply, drawn_reply, box_reply};
ghost use Rattle.calls.specs.Replies.{refused_number, refused_glyph, refused_position, refused_drawn, refused_box, PointFits, CornerFits, box_of};

use super::{Box, Drawn, Glyph, Number, Position};
use geometry::{ORIGIN, Point, Rectangle};
use refusals::Refusal;

// The reply of a refused call that gives a number.
pub fn refused_number(code: u32) -> Number
    ensures { result ≡ refused_number code }
{
    Number { code, value: 0 }
}

impl From<Refusal> for Number {
    ghost from_gives = { λ refusal reply. reply ≡ refused_number (number refusal) };

    fn from(refusal: Refusal) -> Number {
        refused_number(u32::from(refusal))
    }
}

// The reply of a refused call that gives a glyph.
pub fn refused_glyph(code: u32) -> Glyph
    ensures { result ≡ refused_glyph code }
{
    Glyph {
        code,
        index: 0,
        listed: 0,
    }
}

impl From<Refusal> for Glyph {
    ghost from_gives = { λ refusal reply. reply ≡ refused_glyph (number refusal) };

    fn from(refusal: Refusal) -> Glyph {
        refused_glyph(u32::from(refusal))
    }
}

// The reply of a refused call that gives a position.
pub fn refused_position(code: u32) -> Position
    ensures { result ≡ refused_position code }
{
    Position { code, x: 0, y: 0 }
}

impl From<Refusal> for Position {
    ghost from_gives = { λ refusal reply. reply ≡ refused_position (number refusal) };

    fn from(refusal: Refusal) -> Position {
        refused_position(u32::from(refusal))
    }
}

// The reply of a refused call that draws an item.
pub fn refused_drawn(code: u32) -> Drawn
    ensures { result ≡ refused_drawn code }
{
    Drawn {
        code,
        x: 0,
        y: 0,
        replaced: 0,
    }
}

impl From<Refusal> for Drawn {
    ghost from_gives = { λ refusal reply. reply ≡ refused_drawn (number refusal) };

    fn from(refusal: Refusal) -> Drawn {
        refused_drawn(u32::from(refusal))
    }
}

// The reply of a refused call that gives a rectangle.
pub fn refused_box(code: u32) -> Box
    ensures { result ≡ refused_box code }
{
    Box {
        code,
        left: 0,
        top: 0,
        width: 0,
        height: 0,
    }
}

impl From<Refusal> for Box {
    ghost from_gives = { λ refusal reply. reply ≡ refused_box (number refusal) };

    fn from(refusal: Refusal) -> Box {
        refused_box(u32::from(refusal))
    }
}

// A coordinate as a signed number of the frame's columns or rows.
pub fn signed(x: u32) -> i32
    requires { x < 2 ^ 31 }
    ensures { result ≡ signed x }
{
    x as i32 - ORIGIN as i32
}

// `PointFits` and `CornerFits` stay clauses: the numbers of a point and of a rectangle are public, and one far off the frame is as good elsewhere.

// The reply of a good call that gives a position.
pub fn position_reply(p: Point) -> Position
    requires { PointFits p }
    ensures { result ≡ position_reply 0 p }
{
    Position {
        code: 0,
        x: signed(p.x),
        y: signed(p.y),
    }
}

// The reply of a good call that draws an item.
pub fn drawn_reply(p: Point, replaced: u32) -> Drawn
    requires { PointFits p }
    ensures { result ≡ drawn_reply 0 p replaced }
{
    let x = signed(p.x);
    let y = signed(p.y);
    Drawn {
        code: 0,
        x,
        y,
        replaced,
    }
}

// The reply of an edit by its code and its rectangle, which is empty, at the frame's corner, for a refused one.
pub fn edit_reply(code: u32, a: Rectangle) -> Box
    requires { CornerFits a }
    ensures { result ≡ box_of code a }
{
    Box {
        code,
        left: signed(a.left),
        top: signed(a.top),
        width: a.width,
        height: a.height,
    }
}

// The reply of a good call that gives a rectangle.
pub fn box_reply(a: Rectangle) -> Box
    requires { CornerFits a }
    ensures { result ≡ box_reply 0 a }
{
    edit_reply(0, a)
}
