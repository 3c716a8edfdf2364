// The page writer: a frame as a Netpbm file.
#![tactic(auto)]

ghost use Rattle.std.specs.Prelude.{◌≡◌, ◌+◌, ◌≤◌, ◌<◌, ◌++◌, length, drop};
ghost use Rattle.std.proofs.lemmas.List.Edits.{sets};
ghost use Rattle.page.specs.Page.{digits, page_header};
ghost use Rattle.page.specs.Room.{DigitsFit, HeaderFits, PageFits};

use geometry::store_bytes;

// How many digits a number below 1,000 has.
fn digit_count(n: usize) -> usize
    ensures { result ≡ length (digits n) }
{
    if n < 10 {
        return 1;
    }
    if n < 100 {
        return 2;
    }
    3
}

// Width and height are two numbers here and below: the sides of `geometry::Size` are of 32 bits, which would ask more of callers, and a size of this crate's own would
// be made for each of two calls.

// The page's length in bytes.
pub fn page_length(frame: &[u8], w: usize, h: usize) -> usize
    ensures { result ≡ length (page_header w h ++ frame.now) }
{
    let width = digit_count(w);
    let height = digit_count(h);
    9 + width + height + frame.len()
}

// Stores the bytes from an offset on, and gives the offset after them. The offset, and no rest of the output: the last one is the page's length.
fn write_bytes(output: &mut [u8], at: usize, bytes: &[u8]) -> usize
    requires { at + length bytes.now ≤ length output.old }
    ensures output_after { output.new ≡ sets output.old at bytes.now }
    ensures value { result ≡ at + length bytes.now }
{
    store_bytes(output, at, bytes);
    at + bytes.len()
}

// A digit's character.
fn digit(n: usize) -> u8
    requires { n < 10 }
    ensures { result ≡ 0x30 + n }
{
    b'0' + n as u8
}

// Digit by digit, and not by `write!`: std's writers into a slice state no `contents`, so that no clause tells which bytes a format has stored there.

// Stores a number below 1,000 in decimal from an offset on, and gives the offset after it.
fn write_digits(output: &mut [u8], at: usize, n: usize) -> usize
    requires { DigitsFit n at output.old }
    ensures output_after { output.new ≡ sets output.old at (digits n) }
    ensures value { result ≡ at + length (digits n) }
{
    let ones = digit(n % 10);
    if n < 10 {
        return write_bytes(output, at, &[ones]);
    }
    let tens = digit(n / 10 % 10);
    if n < 100 {
        return write_bytes(output, at, &[tens, ones]);
    }
    let hundreds = digit(n / 100);
    write_bytes(output, at, &[hundreds, tens, ones])
}

// Stores the page's header at the head of the output, and gives the offset after it.
fn write_header(output: &mut [u8], w: usize, h: usize) -> usize
    requires { HeaderFits w h output.old }
    ensures output_after { output.new ≡ sets output.old 0 (page_header w h) }
    ensures value { result ≡ length (page_header w h) }
{
    let width = write_bytes(output, 0, b"P5\n");
    let blank = write_digits(output, width, w);
    let height = write_bytes(output, blank, b" ");
    let end = write_digits(output, height, h);
    write_bytes(output, end, b"\n255\n")
}

// Writes the page at the head of the output, which keeps its bytes past the page, and gives the page's length.
pub fn write_page(output: &mut [u8], frame: &[u8], w: usize, h: usize) -> usize
    requires { PageFits w h frame.now output.old }
    ensures output_after { output.new ≡ (page_header w h ++ frame.now) ++ drop (length (page_header w h ++ frame.now)) output.old }
    ensures value { result ≡ length (page_header w h ++ frame.now) }
{
    let greys = write_header(output, w, h);
    write_bytes(output, greys, frame)
}
