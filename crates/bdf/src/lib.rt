// A font file in the Glyph Bitmap Distribution Format 2.1, read line by line, and the font that it gives.
#![tactic(auto)]

ghost use Rattle.std.specs.Prelude.{◌≡◌, length, IfOk};
ghost use Rattle.refusals.specs.Numbers.{refusal_of};
ghost use Rattle.bdf.specs.Font.{font_of, font_bytes, read_code, written};
ghost use Rattle.bdf.specs.Walk.{IsMeasured};

use reader::Reader;
use refusals::Refusal;

pub mod file;
pub mod glyphs;
pub mod reader;
pub mod usual;

// A font file that was tested, and the reader after its last line, which has measured its atlas and its mapping.
#[derive(Clone, Copy, Debug, PartialEq, Eq)]
struct MeasuredFile<'a> {
    file: &'a [u8],
    last: Reader,
    ghost is_measured: { IsMeasured file.now last },
}

impl<'a> MeasuredFile<'a> {
    ghost use Rattle.std.specs.Prelude.{◌≡◌, ◌+◌, length, ◌++◌, IfOk};
    ghost use Rattle.refusals.specs.Numbers.{refusal_of};
    ghost use Rattle.bdf.specs.Font.{font_of, atlas_size, atlas_of, mapping_of, font_bytes, read_code, written};

    // The bytes of its atlas.
    fn atlas_size(&self) -> usize
        ensures { result ≡ atlas_size self.now.last.cell self.now.last.glyphs }
    {
        let cell = self.last.cell;
        let rows = self.last.glyphs.div_ceil(16) * cell.height;
        let stride = 2 * cell.width;
        rows as usize * stride as usize
    }

    // Writes its atlas and its mapping.
    fn write_pieces(&self, pieces: &mut [u8])
        requires { length pieces.old ≡ atlas_size self.now.last.cell self.now.last.glyphs + self.now.last.mapping }
        ensures { pieces.new ≡ atlas_of (font_of self.now.file.now) ++ mapping_of (font_of self.now.file.now) }
    {
        let size = self.atlas_size();
        pieces[0..size].fill(0);
        let _ = file::pass(self.file, pieces, size, true);
    }

    // Writes its font.
    fn write_font(&self, font: &mut [u8])
        requires { length font.old ≡ 28 + atlas_size self.now.last.cell self.now.last.glyphs + self.now.last.mapping }
        ensures { font.new ≡ font_bytes (font_of self.now.file.now) }
    {
        let size = self.atlas_size();
        let last = self.last;
        glyphs::put_record(&mut font[0..28], last.cell, size as u32, last.mapping);
        self.write_pieces(&mut font[28..]);
    }

    // Writes its font, if the output is long enough: the length of the font.
    fn write(&self, output: &mut [u8]) -> Result<u32, Refusal>
        ensures code { refusal_of result ≡ read_code self.now.file.now (length output.old) }
        ensures font_length { IfOk result (λ n. n ≡ length (font_bytes (font_of self.now.file.now))) }
        ensures output_after { output.new ≡ written self.now.file.now output.old }
    {
        let end = 28 + self.atlas_size() + self.last.mapping as usize;
        if output.len() < end {
            return Err(Refusal::OutputTooShort);
        }
        self.write_font(&mut output[0..end]);
        Ok(end as u32)
    }
}

// Reads a font file and writes its font, record, atlas and mapping: the length of the font.
pub fn read(file: &[u8], output: &mut [u8]) -> Result<u32, Refusal>
    ensures code { refusal_of result ≡ read_code file.now (length output.old) }
    ensures font_length { IfOk result (λ n. n ≡ length (font_bytes (font_of file.now))) }
    ensures output_after { output.new ≡ written file.now output.old }
{
    let last = file::pass(file, &mut [], 0, false)?;
    MeasuredFile { file, last }.write(output)
}
