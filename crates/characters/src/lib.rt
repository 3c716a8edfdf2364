// RFC 3629: what stands at a cursor of a text, whether a text is well-formed, and its number of characters.
#![tactic(auto)]

ghost use Rattle.std.specs.Prelude.{◌≡◌, ◌≤◌, true, cond, Ok, Err, length};
ghost use Rattle.std.specs.Iterator.{YieldsFirst, item_count};
ghost use Rattle.characters.specs.Utf8.{leading_ones, is_continuation, is_surrogate, scalar, two, three, four, step_at, chars, well_formed};
ghost use Rattle.characters.specs.Ascii.{ascii_length};
ghost use Rattle.characters.specs.Characters.{chars_left};

pub mod lines;
pub mod walker;

// A position in a text: the offset of its next byte.
#[derive(Clone, Copy, Debug, PartialEq, Eq)]
pub struct Cursor {
    pub at: usize,
}

// What stands at a position: a character and the position after it, a sequence that RFC 3629 does not allow, or the end. docs/DECISIONS.md, Forms
// that were asked for, names the step at a cursor and its `let else`; no Result, which would make the end of a text an error.
#[derive(Clone, Copy, Debug, PartialEq, Eq)]
pub enum Step {
    Character(u32, Cursor),
    IllFormed,
    End,
}

// The characters of a text from a position on, up to its end or to what is ill-formed. The text and a cursor, and no rest of it: a step gives
// the cursor after a character.
#[derive(Clone, Copy, Debug, PartialEq, Eq)]
pub struct Characters<'a> {
    text: &'a [u8],
    cursor: Cursor,
}

// The ones at the head of a lead byte: the length of its sequence, or 0 for a byte that stands alone. Leading zeros of the complement, as
// docs/DECISIONS.md, Forms that were asked for, names it.
fn leading_ones(lead: u8) -> u32
    ensures { result ≡ leading_ones lead }
{
    u8::leading_zeros(!lead)
}

// Whether a byte continues a sequence.
pub fn is_continuation(b: u8) -> bool
    ensures { result ≡ is_continuation b }
{
    (0x80 <= b) & (b < 0xC0)
}

// Whether a number is one of D800 to DFFF, which stand for no character.
pub fn is_surrogate(v: u32) -> bool
    ensures { result ≡ is_surrogate v }
{
    (0xD800 <= v) & (v < 0xE000)
}

// The character v of a sequence that ends at `next`, if it is no overlong form, no surrogate and not above 10FFFF. By hand, since
// the definition has three tests in RFC 3629's words, of which `char::from_u32` would be two.
fn scalar(v: u32, least: u32, next: usize) -> Step
    ensures { result ≡ scalar v least next }
{
    if (least <= v) & (!is_surrogate(v) & (v <= 0x10FFFF)) {
        return Step::Character(v, Cursor { at: next });
    }
    Step::IllFormed
}

// The sequences of two, three and four bytes: one function for each length, as `specs/Utf8.antt` has RFC 3629's three lines.
fn two(a: u8, b: u8, next: usize) -> Step
    ensures { result ≡ two a b next }
{
    if is_continuation(b) {
        return scalar((a % 32) as u32 * 64 + (b % 64) as u32, 0x80, next);
    }
    Step::IllFormed
}

fn three(a: u8, b: u8, c: u8, next: usize) -> Step
    ensures { result ≡ three a b c next }
{
    if is_continuation(b) & is_continuation(c) {
        return scalar(
            (a % 16) as u32 * 4096 + (b % 64) as u32 * 64 + (c % 64) as u32,
            0x800,
            next,
        );
    }
    Step::IllFormed
}

fn four(a: u8, b: u8, c: u8, d: u8, next: usize) -> Step
    ensures { result ≡ four a b c d next }
{
    if is_continuation(b) & (is_continuation(c) & is_continuation(d)) {
        return scalar(
            (a % 8) as u32 * 262144
                + (b % 64) as u32 * 4096
                + (c % 64) as u32 * 64
                + (d % 64) as u32,
            0x10000,
            next,
        );
    }
    Step::IllFormed
}

// What stands at the cursor. The hint is for the loop over a line's glyphs: without it a page of short lines takes 1.017 of its instructions.
#[inline]
pub fn next(s: &[u8], c: Cursor) -> Step
    ensures { result ≡ step_at s.now c.at }
{
    let at = c.at;
    let size = s.len();
    if size <= at {
        return Step::End;
    }
    let lead = s[at];
    let n = leading_ones(lead);
    if n == 0 {
        return Step::Character(u32::from(lead), Cursor { at: at + 1 });
    }
    let left = size - at;
    if left < n as usize {
        return Step::IllFormed;
    }
    if n == 2 {
        return two(lead, s[at + 1], at + 2);
    }
    if n == 3 {
        return three(lead, s[at + 1], s[at + 2], at + 3);
    }
    if n == 4 {
        return four(lead, s[at + 1], s[at + 2], s[at + 3], at + 4);
    }
    Step::IllFormed
}

// Whether all bytes are below 80; all are looked at, so that sixteen are compared at once.
fn is_ascii(block: &[u8]) -> bool
    ensures { result ≡ true → ascii_length block.now ≡ length block.now }
{
    let mut most: u8 = 0;
    for &b in block {
        most = most.max(b);
    }
    most < 0x80
}

// How many bytes below 80 lead the text, byte by byte.
fn ascii_bytes(s: &[u8]) -> usize
    ensures value { result ≡ ascii_length s.now }
    ensures within { result ≤ length s.now }
{
    s.iter().position(|b| 0x80 <= *b).unwrap_or(s.len())
}

// How many bytes below 80 lead the text: each is a character. They are passed over sixteen at a time, as long as all sixteen are below,
// and counted, since what is left is asked behind the loop.
fn ascii_length(s: &[u8]) -> usize
    ensures { result ≡ ascii_length s.now }
{
    let mut at = 0;
    for block in s.chunks_exact(16) {
        if !is_ascii(block) {
            break;
        }
        at += 16;
    }
    at + ascii_bytes(&s[at..])
}

// Whether a text is well-formed; the refusal if it is not.
// Cursors by `let else`, as docs/DECISIONS.md, Forms that were asked for, names it.
pub fn walk<E: Copy>(s: &[u8], refusal: E) -> Result<(), E>
    ensures { result ≡ cond (well_formed s.now) (Ok tt) (Err refusal) }
{
    let mut c = Cursor {
        at: ascii_length(s),
    };
    while c.at < s.len() {
        let Step::Character(_, after) = next(s, c) else {
            return Err(refusal);
        };
        c = after;
    }
    Ok(())
}

// The characters of a text.
pub fn chars(text: &[u8]) -> Characters<'_>
    ensures { chars_left result ≡ chars text.now }
{
    Characters {
        text,
        cursor: Cursor { at: 0 },
    }
}

impl<'a> Iterator for Characters<'a> {
    type Item = u32;

    ghost next_gives = { YieldsFirst chars_left };

    ghost remaining = { item_count chars_left };

    fn next(&mut self) -> Option<u32> {
        let Step::Character(ch, after) = next(self.text, self.cursor) else {
            return None;
        };
        self.cursor = after;
        Some(ch)
    }
}

// How many characters stand before the end, or before what is ill-formed.
pub fn count(s: &[u8]) -> usize
    ensures { result ≡ length (chars s.now) }
{
    let n = ascii_length(s);
    let rest = Characters {
        text: s,
        cursor: Cursor { at: n },
    };
    n + rest.count()
}
