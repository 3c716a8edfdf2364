// A font file, line by line: once tested and measured, once written.
ghost use Rattle.std.specs.Prelude.{◌≡◌, ◌+◌, ◌≤◌, length, [], true, Ok, IfOk, IfErr, MatchOption};
ghost use Rattle.characters.specs.Lines.{line_length};
ghost use Rattle.bdf.specs.Reader.{start, in_bitmap, step, first_refusal, last_reader, file_lines};
ghost use Rattle.bdf_lines.specs.Forms.{line_at, LineBefore};
ghost use Rattle.bdf.specs.Walk.{measured, numbered, put_if, put_lines_if, Room, Carries, LineRefused, NextLine, LastLine, strip_of, put_strip_if, StripFits, put_spelling_if, SpellingFits, AnswerFits};

use super::reader::{Answer, Expected, Reader, SoundReader};
use super::{glyphs, usual};
use bdf_lines::forms;
use characters::lines::without_return;
use refusals::Refusal;

// Where the lines of a bitmap stand in the atlas: the row of the first, the pixels, and the bytes of a row.
#[derive(Clone, Copy, Debug, PartialEq, Eq)]
pub struct Strip {
    pub top: usize,
    pub left: usize,
    pub right: usize,
    pub stride: usize,
}

// A reader between two lines, and the rest of the file from the next line on.
#[derive(Clone, Copy, Debug, PartialEq, Eq)]
pub struct Progress<'a> {
    pub reader: SoundReader,
    pub rest: &'a [u8],
}

// What the first line of a text does, and what follows its feed, if a feed ends it.
fn first_line(text: &[u8], reader: SoundReader) -> (Result<Answer, Refusal>, Option<&[u8]>)
    ensures answer { result.0 ≡ step reader.state (line_at text.now 0) }
    ensures rest { MatchOption result.1 (length text.now ≤ line_length text.now) (λ rest. LineBefore text.now rest.now) }
{
    let Some((answer, rest)) = usual::answer(text, reader) else {
        let (line, rest) = forms::split_line(text);
        return (reader.step(without_return(line)), rest);
    };
    (answer, Some(rest))
}

// Where the lines of the present glyph's bitmap stand in the atlas.
fn strip_of(reader: SoundReader) -> Strip
    requires { 1 ≤ reader.state.glyphs }
    ensures { result ≡ strip_of reader.state }
{
    let state = reader.state;
    let cell = state.cell;
    let bbx = state.bbx;
    let k = state.glyphs - 1;
    let head = cell.y + cell.height;
    let ink_top = head - (bbx.y + bbx.height);
    let top = k / 16 * cell.height + ink_top;
    let left = k % 16 * cell.width + (bbx.x - cell.x);
    let right = left + bbx.width;
    let stride = 2 * cell.width;
    Strip {
        top: top as usize,
        left: left as usize,
        right: right as usize,
        stride: stride as usize,
    }
}

// `Room` and the facts like it stay clauses: each ties the lent pieces to a file and a pass, and the pieces are lent anew for each line. The
// pieces, their size and the flag stay parameters: as one lent struct they were tried and proved, but each function had to promise besides that slice,
// size and flag stay the same, and reading a font took 35 µs in place of 29. An `Option` of the slice, for the flag, would be such a struct.

// Puts a bitmap line into the atlas, if it is written.
fn put_row(pieces: &mut [u8], writing: bool, strip: Strip, i: usize, bits: u64)
    requires { StripFits writing strip i bits (length pieces.old) }
    ensures { pieces.new ≡ put_strip_if writing strip i bits pieces.old }
{
    if !writing {
        return;
    }
    let stride = strip.stride;
    let at = (strip.top + i) * stride;
    let to = at + stride;
    glyphs::put_bits(&mut pieces[at..to], strip.left, strip.right, bits);
}

// Passes over bitmap lines that end in a feed, and puts them into the atlas, if it is written.
fn put_rows<'a>(
    text: &'a [u8],
    pieces: &mut [u8],
    size: usize,
    writing: bool,
    reader: SoundReader,
) -> Progress<'a>
    requires reader_value { in_bitmap reader.state ≡ true }
    requires room { Room writing (last_reader reader.state (file_lines text.now)) size (length pieces.old) }
    ensures { Carries text.now writing size reader.state pieces.old result.reader.state result.rest.now pieces.new }
{
    let strip = strip_of(reader);
    let state = reader.state;
    let width = state.bbx.width;
    let mut present = state;
    let mut rest = text;
    for read in state.read..state.bbx.height {
        let Some((bits, behind)) = forms::row(rest, width) else {
            break;
        };
        put_row(pieces, writing, strip, read as usize, bits);
        present.read = read + 1;
        rest = behind;
    }
    Progress {
        reader: SoundReader { state: present },
        rest,
    }
}

// Passes over bitmap lines, where they are next.
fn pass_rows<'a>(
    text: &'a [u8],
    pieces: &mut [u8],
    size: usize,
    writing: bool,
    reader: SoundReader,
) -> Progress<'a>
    requires room { Room writing (last_reader reader.state (file_lines text.now)) size (length pieces.old) }
    ensures { Carries text.now writing size reader.state pieces.old result.reader.state result.rest.now pieces.new }
{
    if reader.state.in_bitmap() {
        return put_rows(text, pieces, size, writing, reader);
    }
    Progress { reader, rest: text }
}

// Puts a character into the mapping that follows an atlas of `size` bytes, if it is written.
fn put_spelling(pieces: &mut [u8], writing: bool, from: usize, to: usize, v: u32)
    requires { SpellingFits writing from to v (length pieces.old) }
    ensures { pieces.new ≡ put_spelling_if writing from v pieces.old }
{
    if !writing {
        return;
    }
    glyphs::put_character(&mut pieces[from..to], v);
}

// Puts what a line says, if it is written.
fn put(pieces: &mut [u8], size: usize, writing: bool, reader: SoundReader, answer: Answer)
    requires size_bound { size ≤ 100_000_000 }
    requires answer_fits { AnswerFits writing size reader.state (Ok answer) (length pieces.old) }
    ensures { pieces.new ≡ put_if writing size reader.state (Ok answer) pieces.old }
{
    match answer {
        Answer::Passed(_) => {}
        Answer::Boxed(_) => {}
        Answer::Encoded(next, v) => {
            let from = size + reader.state.mapping as usize;
            let to = size + next.mapping as usize;
            put_spelling(pieces, writing, from, to, v);
        }
        Answer::Drawn(_, bits) => {
            let strip = strip_of(reader);
            put_row(pieces, writing, strip, reader.state.read as usize, bits);
        }
    }
}

// Reads the first line of a text, and puts what it says, if it is written: the reader after it, and what follows its feed, if a feed ends it.
fn put_line<'a>(
    text: &'a [u8],
    pieces: &mut [u8],
    size: usize,
    writing: bool,
    reader: SoundReader,
) -> Result<(Reader, Option<&'a [u8]>), Refusal>
    requires room { Room writing (last_reader reader.state (file_lines text.now)) size (length pieces.old) }
    ensures refused { IfErr result (λ n. LineRefused text.now reader.state pieces.old n pieces.new) }
    ensures read { IfOk result (λ p. MatchOption p.1 (LastLine text.now writing size reader.state pieces.old p.0 pieces.new) (λ rest. NextLine text.now writing size reader.state pieces.old p.0 rest.now pieces.new)) }
{
    let (line, rest) = first_line(text, reader);
    let answer = line?;
    put(pieces, size, writing, reader, answer);
    Ok((answer.reader(), rest))
}

// What lines come to where there are no more.
fn finished(reader: Reader) -> Result<Reader, Refusal>
    ensures { numbered result ≡ measured reader [] }
{
    if reader.expected == Expected::Nothing {
        return Ok(reader);
    }
    Err(Refusal::BdfLine)
}

// Reads a file whole, and puts its atlas of `size` bytes and its mapping, if they are written: the reader after its last line.
pub fn pass(file: &[u8], pieces: &mut [u8], size: usize, writing: bool) -> Result<Reader, Refusal>
    requires room { Room writing (last_reader start (file_lines file.now)) size (length pieces.old) }
    requires file_value { writing ≡ true → first_refusal start (file_lines file.now) ≡ 0 }
    ensures value { numbered result ≡ measured start (file_lines file.now) }
    ensures pieces_after { pieces.new ≡ put_lines_if writing size start (file_lines file.now) pieces.old }
{
    let mut reader = Reader::start();
    let mut rest = file;
    // No iterator of lines: bitmap lines, a usual line and any other each leave the rest of the file where they ended.
    loop {
        let progress = pass_rows(rest, pieces, size, writing, SoundReader { state: reader });
        let present = progress.reader;
        let text = progress.rest;
        if let Some((next, behind)) = usual::moved(text, present.state) {
            reader = next;
            rest = behind;
            continue;
        }
        let (next, more) = put_line(text, pieces, size, writing, present)?;
        let Some(behind) = more else {
            return finished(next);
        };
        reader = next;
        rest = behind;
    }
}
