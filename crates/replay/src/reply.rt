// Replies in one form, with zeros for the numbers that a reply lacks.
ghost use Rattle.std.specs.Prelude.{◌≡◌, [], ◌∷◌, min};
ghost use Rattle.std.specs.Int.{w32, cast_unsigned};
ghost use Rattle.replay.specs.Replies.{numbers, batch_numbers, reply_numbers};

use station::{Batch, Box, Drawn, Glyph, Number, Position, Step};

// The numbers of a reply. A list's reply has the same, but its type is another crate's, and conversions into a type stand in its own.
#[derive(Clone, Copy, Debug, PartialEq, Eq)]
pub struct Reply {
    pub code: u32,
    pub made: u32,
    pub left: i32,
    pub top: i32,
    pub width: u32,
    pub height: u32,
}

impl Reply {
    // A reply of a code alone.
    pub fn of_code(code: u32) -> Reply
        ensures { reply_numbers result ≡ 0 ∷ code ∷ 0 ∷ 0 ∷ 0 ∷ 0 ∷ [] }
    {
        Reply {
            code,
            made: 0,
            left: 0,
            top: 0,
            width: 0,
            height: 0,
        }
    }
}

impl From<Box> for Reply {
    ghost from_gives = { λ r s. reply_numbers s ≡ 0 ∷ numbers r };

    fn from(reply: Box) -> Reply {
        Reply {
            left: reply.left,
            top: reply.top,
            width: reply.width,
            height: reply.height,
            ..Reply::of_code(reply.code)
        }
    }
}

impl From<Batch> for Reply {
    ghost from_gives = { λ r s. reply_numbers s ≡ batch_numbers r };

    fn from(reply: Batch) -> Reply {
        Reply {
            code: reply.code,
            made: reply.made,
            left: reply.left,
            top: reply.top,
            width: reply.width,
            height: reply.height,
        }
    }
}

impl From<Number> for Reply {
    ghost from_gives = { λ r s. reply_numbers s ≡ 0 ∷ r.code ∷ r.value ∷ 0 ∷ 0 ∷ 0 ∷ [] };

    fn from(reply: Number) -> Reply {
        Reply {
            left: reply.value.cast_signed(),
            ..Reply::of_code(reply.code)
        }
    }
}

impl From<Glyph> for Reply {
    ghost from_gives = { λ r s. reply_numbers s ≡ 0 ∷ r.code ∷ r.index ∷ r.listed ∷ 0 ∷ 0 ∷ [] };

    fn from(reply: Glyph) -> Reply {
        Reply {
            left: reply.index.cast_signed(),
            top: reply.listed.cast_signed(),
            ..Reply::of_code(reply.code)
        }
    }
}

impl From<Position> for Reply {
    ghost from_gives = { λ r s. reply_numbers s ≡ 0 ∷ r.code ∷ cast_unsigned w32 r.x ∷ cast_unsigned w32 r.y ∷ 0 ∷ 0 ∷ [] };

    fn from(reply: Position) -> Reply {
        Reply {
            left: reply.x,
            top: reply.y,
            ..Reply::of_code(reply.code)
        }
    }
}

impl From<Drawn> for Reply {
    ghost from_gives = { λ r s. reply_numbers s ≡ 0 ∷ r.code ∷ cast_unsigned w32 r.x ∷ cast_unsigned w32 r.y ∷ r.replaced ∷ 0 ∷ [] };

    fn from(reply: Drawn) -> Reply {
        Reply {
            left: reply.x,
            top: reply.y,
            width: reply.replaced,
            ..Reply::of_code(reply.code)
        }
    }
}

// An offset of 4,294,967,295 or more, which no list holds, is 4,294,967,295.
impl From<Step> for Reply {
    ghost from_gives = { λ r s. reply_numbers s ≡ 0 ∷ r.code ∷ r.ended ∷ r.character ∷ min r.next 4_294_967_295 ∷ 0 ∷ [] };

    fn from(reply: Step) -> Reply {
        Reply {
            left: reply.ended.cast_signed(),
            top: reply.character.cast_signed(),
            width: u32::try_from(reply.next).unwrap_or(u32::MAX),
            ..Reply::of_code(reply.code)
        }
    }
}
