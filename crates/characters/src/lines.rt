// The lines of a text: how long the first is, and its bytes without a return.
ghost use Rattle.std.specs.Prelude.{◌≡◌, ◌≤◌, length};
ghost use Rattle.characters.specs.Lines.{line_length, without_return};

// How many bytes stand before the first line feed, or in the text.
pub fn line_length(text: &[u8]) -> usize
    ensures { result ≡ line_length text.now }
{
    text.iter().position(|b| *b == b'\n').unwrap_or(text.len())
}

// A line without one trailing return.
pub fn without_return(line: &[u8]) -> &[u8]
    ensures result_value { result.now ≡ without_return line.now }
    ensures result_in_bounds { length result.now ≤ length line.now }
{
    match line {
        [shorter @ .., 0x0D] => shorter,
        _ => line,
    }
}
