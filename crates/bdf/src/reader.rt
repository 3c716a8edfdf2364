// A reader of font files: its state between two lines, and what a line does to it.
ghost use Rattle.std.specs.Prelude.{◌≡◌, ◌+◌, ◌≤◌, ◌<◌, leb};
ghost use Rattle.bdf_lines.specs.Keywords.{start_properties, chars};
ghost use Rattle.bdf.specs.declared.reader.Expected.TheVariants.{Property, Glyph, Attributes, Rows};
ghost use Rattle.bdf_lines.specs.Words.{words, count_of};
ghost use Rattle.bdf.specs.Within.{Within, IsBox};
ghost use Rattle.bdf.specs.Reader.{origin, place, box, is_box, is_cell, is_in_cell, is_character, expecting, leaving, moved, counted, cell_line, properties_line, spelling_line, encoding_line, bbx_line, row_line, line_step, in_bitmap, start, step, reader_of};

use super::glyphs;
use bdf_lines::values::{Four, Number};
use bdf_lines::{values, words};
use refusals::Refusal;

// Offsets are counted from −1,000,000,000, so that each is a natural number.
pub const OFFSET_ORIGIN: u32 = 1000000000;

// A box: its sides, and the offsets of its lower left corner, counted from −1,000,000,000. Beside `Four`, whose numbers are not tested yet.
#[derive(Clone, Copy, Debug, PartialEq, Eq)]
pub struct BoundingBox {
    pub width: u32,
    pub height: u32,
    pub x: u32,
    pub y: u32,
}

// The line that is expected.
#[derive(Clone, Copy, Debug, PartialEq, Eq)]
pub enum Expected {
    StartFont,
    Font,
    Size,
    FontBoundingBox,
    // STARTPROPERTIES or CHARS
    Properties,
    // a property, or ENDPROPERTIES
    Property,
    Chars,
    // STARTCHAR or ENDFONT
    Glyph,
    Encoding,
    Swidth,
    Dwidth,
    Bbx,
    // ATTRIBUTES or BITMAP
    Attributes,
    Bitmap,
    // a bitmap line, or ENDCHAR
    Rows,
    // only lines that do not count
    Nothing,
}

// What is known before a line. `Within` is no invariant of it, since `expecting` makes states in which it does not hold.
#[derive(Clone, Copy, Debug, PartialEq, Eq)]
pub struct Reader {
    pub expected: Expected,
    // property lines to come, or glyphs
    pub left: u64,
    pub cell: BoundingBox,
    // of the present glyph
    pub bbx: BoundingBox,
    // glyphs so far, and bytes of their mapping
    pub glyphs: u32,
    pub mapping: u32,
    // the least encoding that rises
    pub least: u32,
    // bitmap lines of the present glyph that were read
    pub read: u32,
}

// A reader between two lines: the facts of `Within` hold of its state.
#[derive(Clone, Copy, Debug, PartialEq, Eq)]
pub struct SoundReader {
    pub state: Reader,
    ghost within: { Within state },
}

// What a line does that is not refused: it leads to another state, and may say a glyph's encoding, its BBX, or a line of its bitmap.
#[derive(Clone, Copy, Debug, PartialEq, Eq)]
pub enum Answer {
    Passed(Reader),
    Boxed(Reader),
    Encoded(Reader, u32),
    Drawn(Reader, u64),
}

// An offset, counted from −1,000,000,000.
fn place(n: Number) -> u32
    requires { n.size ≤ origin }
    ensures { result ≡ place n }
{
    let size = n.size as u32;
    if n.negative {
        return OFFSET_ORIGIN - size;
    }
    OFFSET_ORIGIN + size
}

// The box of four numbers. No `TryFrom`, which would first have to test a side against 4,294,967,295, as neither test of a box does.
fn box_of(four: Four) -> BoundingBox
    requires { IsBox four.width four.height four.x four.y }
    ensures { result ≡ box four.width four.height four.x four.y }
{
    let width = four.width.size as u32;
    let height = four.height.size as u32;
    BoundingBox {
        width,
        height,
        x: place(four.x),
        y: place(four.y),
    }
}

// Whether four numbers are a box: no side is negative, and no offset beyond ±1,000,000,000.
fn is_box(four: Four) -> bool
    ensures { result ≡ is_box four.width four.height four.x four.y }
{
    let limit = u64::from(OFFSET_ORIGIN);
    !four.width.negative & !four.height.negative & (four.x.size <= limit) & (four.y.size <= limit)
}

// Whether four numbers are a cell within the limits.
fn is_cell(four: Four) -> bool
    ensures { result ≡ is_cell four.width four.height four.x four.y }
{
    if !is_box(four) {
        return false;
    }
    if 64 < four.width.size {
        return false;
    }
    if 64 < four.height.size {
        return false;
    }
    let height = four.height.size as u32;
    height + place(four.y) <= OFFSET_ORIGIN + 256
}

// Whether a side from a place on ends no later than another.
fn reaches(from: u32, side: u64, start: u32, other: u32) -> bool
    ensures { result ≡ leb (from + side) (start + other) }
{
    let end = start as u64 + other as u64;
    let at = from as u64;
    if end < at {
        return false;
    }
    side <= end - at
}

// Whether four numbers are a box that lies in a cell.
fn is_in_cell(cell: BoundingBox, four: Four) -> bool
    ensures { result ≡ is_in_cell cell four.width four.height four.x four.y }
{
    if !is_box(four) {
        return false;
    }
    let left = place(four.x);
    let foot = place(four.y);
    if left < cell.x {
        return false;
    }
    if !reaches(left, four.width.size, cell.x, cell.width) {
        return false;
    }
    if foot < cell.y {
        return false;
    }
    reaches(foot, four.height.size, cell.y, cell.height)
}

// Whether a number is that of a character.
fn is_character(n: Number) -> bool
    ensures { result ≡ is_character n }
{
    if n.negative {
        return false;
    }
    if 0x10FFFF < n.size {
        return false;
    }
    !characters::is_surrogate(n.size as u32)
}

impl Reader {
    // Before the first line.
    pub fn start() -> Reader
        ensures { result ≡ start }
    {
        let nowhere = BoundingBox {
            width: 0,
            height: 0,
            x: 0,
            y: 0,
        };
        Reader {
            expected: Expected::StartFont,
            left: 0,
            cell: nowhere,
            bbx: nowhere,
            glyphs: 0,
            mapping: 0,
            least: 0,
            read: 0,
        }
    }

    // The same reader, where the next line is another.
    pub fn expecting(self, expected: Expected) -> Reader
        ensures { result ≡ expecting expected self }
    {
        Reader { expected, ..self }
    }

    // The same, with so many property lines or glyphs to come.
    pub fn leaving(self, expected: Expected, left: u64) -> Reader
        ensures { result ≡ leaving expected left self }
    {
        Reader {
            expected,
            left,
            ..self
        }
    }

    // Whether a bitmap line is next.
    pub fn in_bitmap(self) -> bool
        ensures { result ≡ in_bitmap self }
    {
        (self.expected == Expected::Rows) & (self.read < self.bbx.height)
    }

    // A line that only has to stand there.
    fn moved(self, good: bool, expected: Expected) -> Result<Answer, Refusal>
        ensures { result ≡ moved good expected self }
    {
        if good {
            return Ok(Answer::Passed(self.expecting(expected)));
        }
        Err(Refusal::BdfLine)
    }

    // A line with a count.
    fn counted(self, count: Option<u64>, expected: Expected) -> Result<Answer, Refusal>
        ensures { result ≡ counted count expected self }
    {
        let n = count.ok_or(Refusal::BdfLine)?;
        Ok(Answer::Passed(self.leaving(expected, n)))
    }

    // FONTBOUNDINGBOX.
    fn cell_line(self, four: Option<Four>) -> Result<Answer, Refusal>
        ensures { result ≡ cell_line four self }
    {
        let numbers = four.ok_or(Refusal::BdfLine)?;
        if !is_cell(numbers) {
            return Err(Refusal::BdfLimit);
        }
        let cell = box_of(numbers);
        let bbx = BoundingBox {
            width: 0,
            height: 0,
            x: cell.x,
            y: cell.y,
        };
        Ok(Answer::Passed(Reader {
            expected: Expected::Properties,
            cell,
            bbx,
            ..self
        }))
    }

    // STARTPROPERTIES, or else CHARS.
    fn properties_line(self, line: &[u8]) -> Result<Answer, Refusal>
        ensures { result ≡ properties_line (count_of start_properties (words line.now)) (count_of chars (words line.now)) self }
    {
        let Some(n) = values::count_of(line, b"STARTPROPERTIES") else {
            return self.counted(values::count_of(line, b"CHARS"), Expected::Glyph);
        };
        Ok(Answer::Passed(self.leaving(Expected::Property, n)))
    }

    // A bitmap line.
    fn row_line(self, row: Option<u64>) -> Result<Answer, Refusal>
        requires { self.read < 64 }
        ensures { result ≡ row_line row self }
    {
        let bits = row.ok_or(Refusal::BdfLine)?;
        let next = Reader {
            expected: Expected::Rows,
            read: self.read + 1,
            ..self
        };
        Ok(Answer::Drawn(next, bits))
    }

    // A property, or ENDPROPERTIES.
    fn property_line(self, line: &[u8]) -> Result<Answer, Refusal>
        ensures { result ≡ line_step Property self line.now (words line.now) }
    {
        let left = self.left;
        if left == 0 {
            return self.moved(words::is_alone(line, b"ENDPROPERTIES"), Expected::Chars);
        }
        Ok(Answer::Passed(self.leaving(Expected::Property, left - 1)))
    }

    // STARTCHAR, or ENDFONT.
    fn glyph_line(self, line: &[u8]) -> Result<Answer, Refusal>
        ensures { result ≡ line_step Glyph self line.now (words line.now) }
    {
        let left = self.left;
        if left == 0 {
            return self.moved(words::is_alone(line, b"ENDFONT"), Expected::Nothing);
        }
        let one_less = self.leaving(Expected::Glyph, left - 1);
        one_less.moved(words::is_named(line, b"STARTCHAR"), Expected::Encoding)
    }

    // ATTRIBUTES, or BITMAP.
    fn attributes_line(self, line: &[u8]) -> Result<Answer, Refusal>
        ensures { result ≡ line_step Attributes self line.now (words line.now) }
    {
        if values::is_attributes(line) {
            return Ok(Answer::Passed(self.expecting(Expected::Bitmap)));
        }
        self.moved(words::is_alone(line, b"BITMAP"), Expected::Rows)
    }
}

impl SoundReader {
    // A glyph's character, put into the mapping.
    fn spelling_line(self, v: u32) -> Result<Answer, Refusal>
        requires { v ≤ 0x10FFFF }
        ensures { result ≡ spelling_line v self.state }
    {
        let mapping = self.state.mapping + glyphs::spelled_length(v);
        if 65535 < mapping {
            return Err(Refusal::BdfLimit);
        }
        let next = Reader {
            expected: Expected::Swidth,
            glyphs: self.state.glyphs + 1,
            mapping,
            least: v + 1,
            read: 0,
            ..self.state
        };
        Ok(Answer::Encoded(next, v))
    }

    // ENCODING.
    pub fn encoding_line(self, encoding: Option<Number>) -> Result<Answer, Refusal>
        ensures { result ≡ encoding_line encoding self.state }
    {
        let n = encoding.ok_or(Refusal::BdfLine)?;
        if !is_character(n) {
            return Err(Refusal::BdfEncoding);
        }
        if n.size < self.state.least as u64 {
            return Err(Refusal::BdfEncoding);
        }
        self.spelling_line(n.size as u32)
    }

    // BBX.
    pub fn bbx_line(self, four: Option<Four>) -> Result<Answer, Refusal>
        ensures { result ≡ bbx_line four self.state }
    {
        let numbers = four.ok_or(Refusal::BdfLine)?;
        if !is_in_cell(self.state.cell, numbers) {
            return Err(Refusal::BdfLimit);
        }
        Ok(Answer::Boxed(Reader {
            expected: Expected::Attributes,
            bbx: box_of(numbers),
            ..self.state
        }))
    }

    // A bitmap line, or ENDCHAR.
    fn bitmap_line(self, line: &[u8]) -> Result<Answer, Refusal>
        ensures { result ≡ line_step Rows self.state line.now (words line.now) }
    {
        let state = self.state;
        let width = state.bbx.width;
        if state.read < state.bbx.height {
            return state.row_line(values::row_of(line, width));
        }
        state.moved(words::is_alone(line, b"ENDCHAR"), Expected::Glyph)
    }

    // What the line that is expected does.
    fn line_step(self, line: &[u8]) -> Result<Answer, Refusal>
        ensures { result ≡ line_step self.state.expected self.state line.now (words line.now) }
    {
        let state = self.state;
        let expected = state.expected;
        match expected {
            Expected::StartFont => {
                state.moved(words::is_pair(line, b"STARTFONT", b"2.1"), Expected::Font)
            }
            Expected::Font => state.moved(words::is_named(line, b"FONT"), Expected::Size),
            Expected::Size => state.moved(
                values::has_numbers(line, b"SIZE", 3),
                Expected::FontBoundingBox,
            ),
            Expected::FontBoundingBox => state.cell_line(values::four_of(line, b"FONTBOUNDINGBOX")),
            Expected::Properties => state.properties_line(line),
            Expected::Property => state.property_line(line),
            Expected::Chars => state.counted(values::count_of(line, b"CHARS"), Expected::Glyph),
            Expected::Glyph => state.glyph_line(line),
            Expected::Encoding => self.encoding_line(values::encoding_of(line)),
            Expected::Swidth => {
                state.moved(values::has_numbers(line, b"SWIDTH", 2), Expected::Dwidth)
            }
            Expected::Dwidth => state.moved(values::has_numbers(line, b"DWIDTH", 2), Expected::Bbx),
            Expected::Bbx => self.bbx_line(values::four_of(line, b"BBX")),
            Expected::Attributes => state.attributes_line(line),
            Expected::Bitmap => state.moved(words::is_alone(line, b"BITMAP"), Expected::Rows),
            Expected::Rows => self.bitmap_line(line),
            Expected::Nothing => Err(Refusal::BdfLine),
        }
    }

    // What a line does.
    pub fn step(self, line: &[u8]) -> Result<Answer, Refusal>
        ensures { result ≡ step self.state line.now }
    {
        if self.state.in_bitmap() {
            return self.line_step(line);
        }
        if words::is_comment(line) {
            return Ok(Answer::Passed(self.state));
        }
        self.line_step(line)
    }
}

impl Answer {
    // The reader after a line.
    pub fn reader(self) -> Reader
        ensures { result ≡ reader_of self }
    {
        match self {
            Answer::Passed(next) => next,
            Answer::Boxed(next) => next,
            Answer::Encoded(next, _) => next,
            Answer::Drawn(next, _) => next,
        }
    }
}
