// The usual forms of a glyph's lines, read at the head of a text: one blank between words, and a feed at the end; and a bitmap line.
// What each gives is what follows the feed.
ghost use Rattle.std.specs.Prelude.{◌≡◌, ◌≤◌, IfSome, MatchOption, length};
ghost use Rattle.characters.specs.Lines.{line_length, line_from};
ghost use Rattle.bdf_lines.specs.Keywords.{start_char, swidth, dwidth, bitmap, end_char};
ghost use Rattle.bdf_lines.specs.Words.{is_alone, is_named, has_numbers};
ghost use Rattle.bdf_lines.specs.Forms.{LineBefore, UsualLine, UsualEncoding, UsualBbx, FeedBefore, IsRow};
ghost use Rattle.bdf_lines.specs.Stands.{IsDigits, IsNumber, TwoAfter};

use super::values;
use super::values::{Four, Number};
use characters::lines::line_length;

// The number whose digits a text begins with, up to a given byte, and what follows that.
fn digits_to(text: &[u8], minus: bool, stop: u8) -> Option<(Number, &[u8])>
    ensures { IfSome result (λ p. IsDigits text.now minus stop p.0 p.1.now) }
{
    let mut v = 0;
    for (i, &b) in text.iter().enumerate() {
        if !b.is_ascii_digit() {
            if (b != stop) | (i == 0) {
                return None;
            }
            let n = Number {
                negative: minus & (0 < v),
                size: v,
            };
            return Some((n, &text[i + 1..]));
        }
        v = values::appended(v, b);
    }
    None
}

// The number that a text begins with, up to a given byte, and what follows that.
fn number_to(text: &[u8], stop: u8) -> Option<(Number, &[u8])>
    ensures { IfSome result (λ p. IsNumber text.now stop p.0 p.1.now) }
{
    match text {
        [b'-', digits @ ..] => digits_to(digits, true, stop),
        _ => digits_to(text, false, stop),
    }
}

// What follows given bytes and two numbers.
fn two_numbers<'a>(text: &'a [u8], name: &[u8]) -> Option<&'a [u8]>
    ensures { IfSome result (λ rest. TwoAfter text.now name.now rest.now) }
{
    let rest = text.strip_prefix(name)?;
    let (_, rest) = number_to(rest, b' ')?;
    let (_, rest) = number_to(rest, b'\n')?;
    Some(rest)
}

// The first line of a text, and what follows its feed, if a feed ends it.
pub fn split_line(text: &[u8]) -> (&[u8], Option<&[u8]>)
    ensures line { result.0.now ≡ line_from text.now 0 }
    ensures rest { MatchOption result.1 (length text.now ≤ line_length text.now) (λ rest. LineBefore text.now rest.now) }
{
    let (line, behind) = text.split_at(line_length(text));
    match behind {
        [_, rest @ ..] => (line, Some(rest)),
        [] => (line, None),
    }
}

// STARTCHAR and a name.
pub fn start_char(text: &[u8]) -> Option<&[u8]>
    ensures { IfSome result (λ rest. UsualLine text.now (is_named start_char) rest.now) }
{
    let name = text.strip_prefix(b"STARTCHAR ")?;
    if *name.first()? <= b' ' {
        return None;
    }
    split_line(name).1
}

// SWIDTH and two numbers.
pub fn scalable_width(text: &[u8]) -> Option<&[u8]>
    ensures { IfSome result (λ rest. UsualLine text.now (has_numbers swidth 2) rest.now) }
{
    two_numbers(text, b"SWIDTH ")
}

// DWIDTH and two numbers.
pub fn device_width(text: &[u8]) -> Option<&[u8]>
    ensures { IfSome result (λ rest. UsualLine text.now (has_numbers dwidth 2) rest.now) }
{
    two_numbers(text, b"DWIDTH ")
}

// BITMAP alone.
pub fn bitmap_alone(text: &[u8]) -> Option<&[u8]>
    ensures { IfSome result (λ rest. UsualLine text.now (is_alone bitmap) rest.now) }
{
    text.strip_prefix(b"BITMAP\n")
}

// ENDCHAR alone.
pub fn end_char(text: &[u8]) -> Option<&[u8]>
    ensures { IfSome result (λ rest. UsualLine text.now (is_alone end_char) rest.now) }
{
    text.strip_prefix(b"ENDCHAR\n")
}

// ENCODING and a number, which is given too.
pub fn encoding(text: &[u8]) -> Option<(Number, &[u8])>
    ensures { IfSome result (λ p. UsualEncoding text.now p.0 p.1.now) }
{
    number_to(text.strip_prefix(b"ENCODING ")?, b'\n')
}

// BBX and four numbers, which are given too.
pub fn bbx(text: &[u8]) -> Option<(Four, &[u8])>
    ensures { IfSome result (λ p. UsualBbx text.now p.0 p.1.now) }
{
    let rest = text.strip_prefix(b"BBX ")?;
    let (width, rest) = number_to(rest, b' ')?;
    let (height, rest) = number_to(rest, b' ')?;
    let (x, rest) = number_to(rest, b' ')?;
    let (y, rest) = number_to(rest, b'\n')?;
    let four = Four {
        width,
        height,
        x,
        y,
    };
    Some((four, rest))
}

// What follows the feed that a text begins with, or a return and a feed.
fn after_feed(text: &[u8]) -> Option<&[u8]>
    ensures { IfSome result (λ rest. FeedBefore text.now rest.now) }
{
    match text {
        [b'\n', rest @ ..] => Some(rest),
        [b'\r', b'\n', rest @ ..] => Some(rest),
        _ => None,
    }
}

// A bitmap line of so many pixels, if a feed ends it: its bits, and what follows.
pub fn row(text: &[u8], width: u32) -> Option<(u64, &[u8])>
    requires { width ≤ 64 }
    ensures { IfSome result (λ p. IsRow text.now width p.0 p.1.now) }
{
    let (digits, rest) = text.split_at_checked(2 * width.div_ceil(8) as usize)?;
    let rest = after_feed(rest)?;
    let bits = values::row_of(digits, width)?;
    Some((bits, rest))
}
