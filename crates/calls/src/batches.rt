// The replies of a list of edits, by any number or by the refusal.
ghost use Rattle.std.specs.Prelude.{◌≡◌};
ghost use Rattle.refusals.specs.Numbers.{number};
ghost use Rattle.text.specs.Signed.{signed_rectangle};
ghost use Rattle.calls.specs.Calls.{zeros, batch};
ghost use Rattle.calls.specs.Replies.{CornerFits, code_of};

use super::Batch;
use super::replies::signed;
use geometry::Rectangle;
use refusals::Refusal;

// The number of a refusal, or 0 for none.
pub fn code_of(refused: Option<Refusal>) -> u32
    ensures { result ≡ code_of refused }
{
    match refused {
        Some(refusal) => u32::from(refusal),
        None => 0,
    }
}

// The reply of one that is refused before any edit.
pub fn refused_batch(code: u32) -> Batch
    ensures { result ≡ batch code 0 zeros }
{
    Batch {
        code,
        made: 0,
        left: 0,
        top: 0,
        width: 0,
        height: 0,
    }
}

impl From<Refusal> for Batch {
    ghost from_gives = { λ refusal reply. reply ≡ batch (number refusal) 0 zeros };

    fn from(refusal: Refusal) -> Batch {
        refused_batch(u32::from(refusal))
    }
}

// `CornerFits` stays a clause, as in `replies`.

// The reply of one that was begun: the number of the refusal that stopped it, or 0, the number of edits made, and their rectangle.
pub fn batch_reply(code: u32, made: usize, a: Rectangle) -> Batch
    requires { CornerFits a }
    ensures { result ≡ batch code made (signed_rectangle a) }
{
    Batch {
        code,
        made: (made % 4294967296) as u32,
        left: signed(a.left),
        top: signed(a.top),
        width: a.width,
        height: a.height,
    }
}
