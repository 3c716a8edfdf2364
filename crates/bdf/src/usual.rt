// What a glyph's lines in their usual form do, read at the head of a text, and what follows their feed. Any other form goes the general way.
ghost use Rattle.std.specs.Prelude.{◌≡◌, IfSome};
ghost use Rattle.bdf.specs.declared.reader.Expected.TheVariants.{Glyph, Encoding, Bbx, Rows};
ghost use Rattle.bdf.specs.Usual.{UsualMove, UsualAnswer};

use super::reader::{Answer, Expected, Reader, SoundReader};
use bdf_lines::forms;
use refusals::Refusal;

// An empty line, or STARTCHAR, where a glyph is expected: the reader after it.
fn glyph_move(text: &[u8], reader: Reader) -> Option<(Reader, &[u8])>
    requires { reader.expected ≡ Glyph }
    ensures { IfSome result (λ p. UsualMove text.now reader p.0 p.1.now) }
{
    if let [b'\n', rest @ ..] = text {
        return Some((reader, rest));
    }
    let left = reader.left;
    if left == 0 {
        return None;
    }
    let rest = forms::start_char(text)?;
    Some((reader.leaving(Expected::Encoding, left - 1), rest))
}

// ENDCHAR, after the last bitmap line.
fn end_move(text: &[u8], reader: Reader) -> Option<(Reader, &[u8])>
    requires { reader.expected ≡ Rows }
    ensures { IfSome result (λ p. UsualMove text.now reader p.0 p.1.now) }
{
    if reader.read < reader.bbx.height {
        return None;
    }
    let rest = forms::end_char(text)?;
    Some((reader.expecting(Expected::Glyph), rest))
}

// The first line, if it only leads to another state: that state.
pub fn moved(text: &[u8], reader: Reader) -> Option<(Reader, &[u8])>
    ensures { IfSome result (λ p. UsualMove text.now reader p.0 p.1.now) }
{
    let expected = reader.expected;
    match expected {
        Expected::Glyph => glyph_move(text, reader),
        Expected::Swidth => {
            let rest = forms::scalable_width(text)?;
            Some((reader.expecting(Expected::Dwidth), rest))
        }
        Expected::Dwidth => {
            let rest = forms::device_width(text)?;
            Some((reader.expecting(Expected::Bbx), rest))
        }
        Expected::Attributes => {
            let rest = forms::bitmap_alone(text)?;
            Some((reader.expecting(Expected::Rows), rest))
        }
        Expected::Rows => end_move(text, reader),
        _ => None,
    }
}

// What ENCODING does.
fn encoding_answer(text: &[u8], reader: SoundReader) -> Option<(Result<Answer, Refusal>, &[u8])>
    requires { reader.state.expected ≡ Encoding }
    ensures { IfSome result (λ p. UsualAnswer text.now reader.state p.0 p.1.now) }
{
    let (n, rest) = forms::encoding(text)?;
    Some((reader.encoding_line(Some(n)), rest))
}

// What BBX does.
fn bbx_answer(text: &[u8], reader: SoundReader) -> Option<(Result<Answer, Refusal>, &[u8])>
    requires { reader.state.expected ≡ Bbx }
    ensures { IfSome result (λ p. UsualAnswer text.now reader.state p.0 p.1.now) }
{
    let (four, rest) = forms::bbx(text)?;
    Some((reader.bbx_line(Some(four)), rest))
}

// What ENCODING or BBX does.
pub fn answer(text: &[u8], reader: SoundReader) -> Option<(Result<Answer, Refusal>, &[u8])>
    ensures { IfSome result (λ p. UsualAnswer text.now reader.state p.0 p.1.now) }
{
    let expected = reader.state.expected;
    match expected {
        Expected::Encoding => encoding_answer(text, reader),
        Expected::Bbx => bbx_answer(text, reader),
        _ => None,
    }
}
