// An atlas of glyphs: where each stands in it, and the drawing of one.
#![tactic(auto)]

ghost use Rattle.std.specs.Prelude.{◌≡◌, false, ◌+◌, ◌*◌, ◌^◌, ◌<◌, ◌≤◌, length};
ghost use Rattle.geometry.specs.Rectangle.{is_empty, intersection};
ghost use Rattle.geometry.specs.Layer.{map_indexed, within};
ghost use Rattle.geometry.specs.Painted.{Painted};
ghost use Rattle.atlas.specs.Atlas.{cell_height, row_bytes, image, glyph, lower_edge, first_row_not_run};
ghost use Rattle.atlas.specs.Row.{CellsOf, glyph_corner, blend, image_row, bits_at, bit_row, SubImage};

use geometry::{Frame, Point, Rectangle, Size};

// An atlas of glyphs: how wide it is, and the size of a glyph's cell in it.
#[derive(Clone, Copy, PartialEq, Eq, Debug)]
pub struct Atlas {
    pub width: u32,
    pub cell_size: Size,
}

// How an atlas's bytes hold its glyphs: how many stand in a row of cells, and how many rows of pixels there are.
#[derive(Clone, Copy, PartialEq, Eq, Debug)]
pub struct Cells {
    pub glyphs_per_row: u32,
    pub image_height: usize,
}

// The colours of a glyph: that of the atlas's on pixels and that of its off pixels.
#[derive(Clone, Copy, PartialEq, Eq, Debug)]
pub struct GlyphColors {
    pub text: Option<u8>,
    pub background: Option<u8>,
}

// An atlas with its bytes, and how they hold its glyphs: embedded-graphics' `ImageRaw` of one bit a pixel.
#[derive(Clone, Copy, Debug, PartialEq, Eq)]
pub struct ImageRaw<'a> {
    pub bytes: &'a [u8],
    pub atlas: Atlas,
    pub cells: Cells,
    ghost cells_of: { CellsOf atlas (length bytes.now) cells },
}

impl Atlas {
    // How many bytes a row of pixels takes.
    fn row_bytes(self) -> usize
        ensures { result ≡ row_bytes self }
    {
        (self.width as usize).div_ceil(8)
    }
}

// How n bytes hold the glyphs of an atlas.
fn cells_of(n: usize, atlas: Atlas) -> Cells
    ensures { CellsOf atlas n result }
{
    let width = atlas.width as usize;
    let cell_width = atlas.cell_size.width as usize;
    let glyphs_per_row = width.checked_div(cell_width).unwrap_or(0);
    let image_height = n.checked_div(atlas.row_bytes()).unwrap_or(0);
    Cells {
        glyphs_per_row: glyphs_per_row as u32,
        image_height,
    }
}

// The pixels from x on of a row of the atlas, as bits 7 to 0 of a number. With `get` and `unwrap_or` for the second byte pages take 1.03 of the
// instructions, and they are not to be slower than by 1 %.
#[tactic(auto, unfolding(crate::specs::Row::bits_at))]
fn bits_at(line: &[u8], x: usize) -> u32
    requires { x < 8 * length line.now }
    ensures { result ≡ bits_at line.now x }
{
    let at = x / 8;
    let shift = 8 - x % 8;
    let high = u32::from(line[at]) * 256;
    if at + 1 < line.len() {
        let low = u32::from(line[at + 1]);
        return (high + low) >> shift;
    }
    high >> shift
}

// What a pixel becomes: the text's grey where the atlas's pixel is on and the background's where it is off, if set.
// Each colour has its `match`: with `unwrap_or` cells that are a multiple of 8 wide take 1.4 to 1.7 times as long to draw.
fn blend(on: bool, text: Option<u8>, background: Option<u8>, grey: u8) -> u8
    ensures { result ≡ blend on text background grey }
{
    if on {
        match text {
            None => grey,
            Some(g) => g,
        }
    } else {
        match background {
            None => grey,
            Some(g) => g,
        }
    }
}

// Draws at most eight pixels, from the bits 7 to 0 of a number, one by one.
fn draw_pixels(row: &mut [u8], bits: u32, text: Option<u8>, background: Option<u8>)
    requires { length row.old ≤ 8 }
    ensures { row.new ≡ map_indexed (bit_row bits text background) 0 row.old }
{
    for (i, pixel) in row.iter_mut().enumerate() {
        let on = (bits >> (7 - i)) % 2 == 1;
        *pixel = blend(on, text, background, *pixel);
    }
}

// The same. For four to six pixels the number is a constant, over which the compiler writes the loop out.
fn draw_bits(row: &mut [u8], bits: u32, text: Option<u8>, background: Option<u8>)
    requires { length row.old ≤ 8 }
    ensures { row.new ≡ map_indexed (bit_row bits text background) 0 row.old }
{
    match row.len() {
        4 => draw_pixels(&mut row[0..4], bits, text, background),
        5 => draw_pixels(&mut row[0..5], bits, text, background),
        6 => draw_pixels(&mut row[0..6], bits, text, background),
        _ => draw_pixels(row, bits, text, background),
    }
}

// Draws a row of pixels, eight at a time, from pixel x of a row of the atlas on. Its `while` takes a tenth less time than a `for` over the parts.
// The two colours go apart from here on: as one struct in the loop over pixels they cost half as many instructions again.
fn draw_row(row: &mut [u8], line: &[u8], x: usize, colors: GlyphColors)
    requires within { x + length row.old ≤ 8 * length line.now }
    requires narrow { length line.now < 2 ^ 32 }
    ensures { row.new ≡ map_indexed (image_row line.now colors.text colors.background) x row.old }
{
    let text = colors.text;
    let background = colors.background;
    let mut i = 0;
    while 8 <= row.len() - i {
        let e = i + 8;
        let bits = bits_at(line, x + i);
        draw_pixels(&mut row[i..e], bits, text, background);
        i = e;
    }
    let n = row.len();
    if i < n {
        let bits = bits_at(line, x + i);
        draw_bits(&mut row[i..n], bits, text, background);
    }
}

// The first row that the loop over a glyph's rows does not run: of a cell from `top` on, where `edge` is the first row below what is shown.
fn first_row_not_run(top: u32, height: u32, edge: u32) -> u32
    ensures { result ≡ first_row_not_run top height edge }
{
    top + height.min(edge.saturating_sub(top))
}

impl<'a> ImageRaw<'a> {
    // The image of these bytes.
    pub fn new(bytes: &'a [u8], atlas: Atlas) -> ImageRaw<'a>
        ensures bytes_value { result.bytes.now ≡ bytes.now }
        ensures atlas_value { result.atlas ≡ atlas }
    {
        let cells = cells_of(bytes.len(), atlas);
        ImageRaw {
            bytes,
            atlas,
            cells,
        }
    }

    // Where the glyph with an index stands, its first column and row; none if it is not drawn.
    fn glyph_corner(&self, index: u32) -> Option<(usize, usize)>
        ensures { result ≡ glyph_corner self.now.atlas (length self.now.bytes.now) index }
    {
        let Size { width, height } = self.atlas.cell_size;
        if width == 0 || height == 0 || self.atlas.width < width {
            return None;
        }
        let per_row = self.cells.glyphs_per_row;
        let column = index % per_row * width;
        let row = (index / per_row) as usize * height as usize;
        if self.cells.image_height < row + height as usize {
            return None;
        }
        Some((column as usize, row))
    }

    // Draws the image from a pixel on in a cell of which the frame shows some, row by row down to the cell's foot or the frame's; gives the
    // first row that is not run. `SubImage` stays a clause: the pixels that are read are others at each call. Rows are counted, since each is a part
    // that starts mid-frame, as the rows of `fill_area` of geometry.
    fn draw_sub_image(
        &self,
        frame: &mut Frame,
        cell: Rectangle,
        from: (usize, usize),
        colors: GlyphColors,
    ) -> u32
        requires cell_value { is_empty (intersection frame.old.target.clip_area cell) ≡ false }
        requires sub_image { SubImage (row_bytes self.now.atlas) from.0 from.1 cell.width cell.height (length self.now.bytes.now) }
        ensures painted { Painted frame.old (within cell (image self.now.bytes.now (row_bytes self.now.atlas) from.0 from.1 cell.left cell.top colors.text colors.background)) frame.new }
        ensures value { result ≡ first_row_not_run cell.top cell.height (lower_edge frame.old.target) }
    {
        let bytes = self.bytes;
        let stride = self.atlas.row_bytes();
        let shown = frame.target.clip_area.intersection(cell);
        let column = from.0 + (shown.left - cell.left) as usize;
        let row = from.1 + (shown.top - cell.top) as usize;
        let area = shown.on_frame();
        let fw = frame.target.width;
        let greys = &mut *frame.greys;
        for k in 0..area.height {
            let a = (area.top + k) * fw + area.left;
            let b = a + area.width;
            let start = (row + k) * stride;
            let line = &bytes[start..start + stride];
            draw_row(&mut greys[a..b], line, column, colors);
        }
        shown.top + shown.height
    }

    // Draws the glyph with an index, its cell's corner at `corner`, where the frame shows it; gives the first row that is not run.
    pub fn draw_glyph(
        &self,
        frame: &mut Frame,
        colors: GlyphColors,
        index: u32,
        corner: Point,
    ) -> u32
        ensures painted { Painted frame.old (glyph self.now.bytes.now self.now.atlas colors.text colors.background index corner.x corner.y) frame.new }
        ensures value { result ≡ first_row_not_run corner.y (cell_height self.now.atlas) (lower_edge frame.old.target) }
    {
        let Size { width, height } = self.atlas.cell_size;
        let cell = Rectangle {
            left: corner.x,
            top: corner.y,
            width,
            height,
        };
        let clip = frame.target.clip_area;
        let not_run = first_row_not_run(cell.top, cell.height, clip.top + clip.height);
        if clip.intersection(cell).is_empty() {
            return not_run;
        }
        let Some(from) = self.glyph_corner(index) else {
            return not_run;
        };
        self.draw_sub_image(frame, cell, from, colors)
    }
}
