// The numbers of a line, decimal and hexadecimal, and the lines that have them.
ghost use Rattle.std.specs.Prelude.{◌≡◌, ◌+◌, ◌-◌, ◌*◌, ◌≤◌, ◌<◌, min, true, length, drop, None, Some, MatchOption, IfSome};
ghost use Rattle.bdf_lines.specs.Keywords.{encoding, attributes};
ghost use Rattle.bdf_lines.specs.Words.{words, is_digit, most, digits_of, number_of, has_numbers, count_of, four_numbers, four_of, encoding_of, is_hex_pair, row_of};
ghost use Rattle.bdf_lines.specs.Rest.{word_end, first_number, hex_of};
ghost use Rattle.bdf_lines.specs.Table.{IsTable};

use super::words;

// A number with its sign, which 0 has not; one above 18,000,000,000,000,000,000 counts as that. No i64, which ends at half of that.
#[derive(Clone, Copy, Debug, PartialEq, Eq)]
pub struct Number {
    pub negative: bool,
    pub size: u64,
}

// The four numbers of a box: its sides, and the offsets of its lower left corner. Beside `bdf::reader::BoundingBox`, since they are not tested yet.
#[derive(Clone, Copy, Debug, PartialEq, Eq)]
pub struct Four {
    pub width: Number,
    pub height: Number,
    pub x: Number,
    pub y: Number,
}

// The number of v followed by a digit, or the greatest that counts.
pub fn appended(v: u64, digit: u8) -> u64
    requires digit_value { is_digit digit ≡ true }
    requires v_le_most { v ≤ most }
    ensures { result ≡ min (v * 10 + (digit - 0x30)) most }
{
    if 1_800_000_000_000_000_000 <= v {
        return 18_000_000_000_000_000_000;
    }
    v * 10 + u64::from(digit - b'0')
}

// The number that digits spell.
fn digits(word: &[u8], minus: bool) -> Option<Number>
    ensures { result ≡ digits_of minus word.now }
{
    if word.is_empty() {
        return None;
    }
    let mut v = 0;
    for &b in word {
        if !b.is_ascii_digit() {
            return None;
        }
        v = appended(v, b);
    }
    Some(Number {
        negative: minus & (0 < v),
        size: v,
    })
}

// The number that a word is.
fn number_of(word: &[u8]) -> Option<Number>
    ensures { result ≡ number_of word.now }
{
    if word.is_empty() {
        return None;
    }
    let minus = word[0] == b'-';
    digits(&word[usize::from(minus)..], minus)
}

// The number that is the first word of a line, and what follows it.
fn first_number(line: &[u8]) -> Option<(Number, &[u8])>
    ensures word { MatchOption result (first_number (words line.now) ≡ None) (λ p. first_number (words line.now) ≡ Some (p.0, words p.1.now)) }
    ensures place { IfSome result (λ p. p.1.now ≡ drop (word_end line.now 0) line.now) }
{
    let (word, rest) = words::first_word(line)?;
    let n = number_of(word)?;
    Some((n, rest))
}

// The keyword and n numbers.
pub fn has_numbers(line: &[u8], name: &[u8], n: u32) -> bool
    ensures { result ≡ has_numbers name.now n (words line.now) }
{
    let Some(mut rest) = words::after_word(line, name) else {
        return false;
    };
    for _ in 0..n {
        let Some((_, next)) = first_number(rest) else {
            return false;
        };
        rest = next;
    }
    words::is_end(rest, 0)
}

// The keyword and a count.
pub fn count_of(line: &[u8], name: &[u8]) -> Option<u64>
    ensures { result ≡ count_of name.now (words line.now) }
{
    let rest = words::after_word(line, name)?;
    let (n, rest) = first_number(rest)?;
    if n.negative | !words::is_end(rest, 0) {
        return None;
    }
    Some(n.size)
}

// Four numbers, and no more.
fn four_numbers(line: &[u8]) -> Option<Four>
    ensures { result ≡ four_numbers (words line.now) }
{
    let (width, rest) = first_number(line)?;
    let (height, rest) = first_number(rest)?;
    let (x, rest) = first_number(rest)?;
    let (y, rest) = first_number(rest)?;
    if !words::is_end(rest, 0) {
        return None;
    }
    Some(Four {
        width,
        height,
        x,
        y,
    })
}

// The keyword and four numbers.
pub fn four_of(line: &[u8], name: &[u8]) -> Option<Four>
    ensures { result ≡ four_of name.now (words line.now) }
{
    four_numbers(words::after_word(line, name)?)
}

// ENCODING and a number, or −1 and a second number.
pub fn encoding_of(line: &[u8]) -> Option<Number>
    ensures { result ≡ encoding_of encoding (words line.now) }
{
    let rest = words::after_word(line, b"ENCODING")?;
    let (n, rest) = first_number(rest)?;
    if words::is_end(rest, 0) {
        return Some(n);
    }
    let (_, rest) = first_number(rest)?;
    if words::is_end(rest, 0) & n.negative & (n.size == 1) {
        return Some(n);
    }
    None
}

// The value of each byte as a hexadecimal digit, or 255. A table with such a mark: reading a font is not to be slower by more than 5 % (docs/DECISIONS.md, Today's forms), and
// measured in Rust a line of four digits takes 44 instructions by it, 57 by a match and 71 by `to_digit`: 9 % and 19 % of a reading.
fn digit_values() -> &'static [u8; 256]
    ensures { IsTable result.now }
{
    b"\
    \xFF\xFF\xFF\xFF\xFF\xFF\xFF\xFF\xFF\xFF\xFF\xFF\xFF\xFF\xFF\xFF\
    \xFF\xFF\xFF\xFF\xFF\xFF\xFF\xFF\xFF\xFF\xFF\xFF\xFF\xFF\xFF\xFF\
    \xFF\xFF\xFF\xFF\xFF\xFF\xFF\xFF\xFF\xFF\xFF\xFF\xFF\xFF\xFF\xFF\
    \x00\x01\x02\x03\x04\x05\x06\x07\x08\x09\xFF\xFF\xFF\xFF\xFF\xFF\
    \xFF\x0A\x0B\x0C\x0D\x0E\x0F\xFF\xFF\xFF\xFF\xFF\xFF\xFF\xFF\xFF\
    \xFF\xFF\xFF\xFF\xFF\xFF\xFF\xFF\xFF\xFF\xFF\xFF\xFF\xFF\xFF\xFF\
    \xFF\x0A\x0B\x0C\x0D\x0E\x0F\xFF\xFF\xFF\xFF\xFF\xFF\xFF\xFF\xFF\
    \xFF\xFF\xFF\xFF\xFF\xFF\xFF\xFF\xFF\xFF\xFF\xFF\xFF\xFF\xFF\xFF\
    \xFF\xFF\xFF\xFF\xFF\xFF\xFF\xFF\xFF\xFF\xFF\xFF\xFF\xFF\xFF\xFF\
    \xFF\xFF\xFF\xFF\xFF\xFF\xFF\xFF\xFF\xFF\xFF\xFF\xFF\xFF\xFF\xFF\
    \xFF\xFF\xFF\xFF\xFF\xFF\xFF\xFF\xFF\xFF\xFF\xFF\xFF\xFF\xFF\xFF\
    \xFF\xFF\xFF\xFF\xFF\xFF\xFF\xFF\xFF\xFF\xFF\xFF\xFF\xFF\xFF\xFF\
    \xFF\xFF\xFF\xFF\xFF\xFF\xFF\xFF\xFF\xFF\xFF\xFF\xFF\xFF\xFF\xFF\
    \xFF\xFF\xFF\xFF\xFF\xFF\xFF\xFF\xFF\xFF\xFF\xFF\xFF\xFF\xFF\xFF\
    \xFF\xFF\xFF\xFF\xFF\xFF\xFF\xFF\xFF\xFF\xFF\xFF\xFF\xFF\xFF\xFF\
    \xFF\xFF\xFF\xFF\xFF\xFF\xFF\xFF\xFF\xFF\xFF\xFF\xFF\xFF\xFF\xFF"
}

// At most sixteen hexadecimal digits: a whole line, or a word. Their values joined bit by bit are below 16 just if each is one.
fn hexadecimal(digits: &[u8]) -> Option<u64>
    requires { length digits.now ≤ 16 }
    ensures { result ≡ hex_of digits.now }
{
    let table = digit_values();
    let mut v: u64 = 0;
    let mut all: u8 = 0;
    for &b in digits {
        let d = table[usize::from(b)];
        all |= d;
        v = (v << 4) | u64::from(d);
    }
    if all < 16 {
        return Some(v);
    }
    None
}

// The keyword and four hexadecimal digits.
pub fn is_attributes(line: &[u8]) -> bool
    ensures { result ≡ is_hex_pair attributes (words line.now) }
{
    let Some(rest) = words::after_word(line, b"ATTRIBUTES") else {
        return false;
    };
    let Some((word, rest)) = words::first_word(rest) else {
        return false;
    };
    if word.len() != 4 {
        return false;
    }
    words::is_end(rest, 0) & hexadecimal(word).is_some()
}

// A bitmap line of so many pixels.
pub fn row_of(line: &[u8], width: u32) -> Option<u64>
    requires { width ≤ 64 }
    ensures { result ≡ row_of width line.now }
{
    let bytes = width.div_ceil(8);
    if line.len() != 2 * bytes as usize {
        return None;
    }
    let v = hexadecimal(line)?;
    Some(v >> (8 * bytes - width))
}
