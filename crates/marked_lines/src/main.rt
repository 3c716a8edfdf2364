// The marked lines of docs/SHEET.md, Worked examples, that are not starred, and RFC 3629's examples. Each is a line of standard input: a kind, bytes in hexadecimal, `=` and a
// name; and a line of output: the name, the bytes and what was found. The kinds are t, a text; m, a mapping; i, the glyph of a character (three bytes, the
// highest first) in the mapping that follows, with replacement 9; s, a sheet. The marked line on the program is the stored test of `station_page`.
// A write that fails is let pass.
#![tactic(auto)]

ghost use Rattle.std.specs.Prelude.{◌<◌, ◌≤◌, length};

use characters::{Cursor, Step};
use mapping::{Glyph, Mapping};
use reading::read_full;
use refusals::Refusal;

// ---- what is found

// The characters that a text spells, and where a sequence is not allowed, with its refusal as a new text. A loop over cursors, as a step
// gives them: where it stopped is written, which no other user of the iterator asks of it.
fn show_text(out: &impl Print, bytes: &[u8]) {
    let mut c = Cursor { at: 0 };
    while let Step::Character(ch, after) = characters::next(bytes, c) {
        let _ = print!(out; " {ch:04x}");
        c = after;
    }
    if let Err(refusal) = characters::walk(bytes, Refusal::NewTextIllFormed) {
        let _ = print!(out; " ill-formed at {}, {refusal}", c.at);
        return;
    }
    let _ = print!(out; ", characters: {}", characters::count(bytes));
}

// How many numbers a mapping lists.
fn listed(mapping: Mapping) -> usize {
    (0..0x110000).filter(|ch| mapping.contains(*ch)).count()
}

// A mapping's refusal, or how many characters it lists.
fn show_mapping(out: &impl Print, bytes: &[u8]) {
    if let Err(refusal) = mapping::check_mapping(bytes) {
        let _ = print!(out; " {refusal}");
        return;
    }
    let _ = print!(out; " fits, lists {}", listed(Mapping { bytes }));
}

// The glyph of a character in a mapping with replacement 9; index 0 and not listed in a mapping that is refused, as it is printed.
fn glyph_in(bytes: &[u8], ch: u32) -> Glyph {
    match mapping::check_mapping(bytes) {
        Ok(()) => Mapping { bytes }.glyph_of(9, ch),
        Err(_) => Glyph {
            index: 0,
            listed: false,
        },
    }
}

// The index of a character, and whether it is listed.
fn show_glyph(out: &impl Print, bytes: &[u8]) {
    let [high, middle, low, mapping @ ..] = bytes else {
        return;
    };
    let ch = u32::from_be_bytes([0, *high, *middle, *low]);
    let glyph = glyph_in(mapping, ch);
    let listed = if glyph.listed { ", listed" } else { "" };
    let _ = print!(out; " {ch:04x} is {}{listed}", glyph.index);
}

// What the check says of a sheet.
fn show_sheet(out: &impl Print, sheet: &[u8]) {
    let _ = match sheet::check(sheet) {
        Ok(()) => print!(out; " accepted"),
        Err(refusal) => print!(out; " {refusal}"),
    };
}

fn show(out: &impl Print, kind: u8, bytes: &[u8]) {
    for byte in bytes {
        let _ = print!(out; " {byte:02x}");
    }
    let _ = print!(out; ":");
    match kind {
        b't' => show_text(out, bytes),
        b'm' => show_mapping(out, bytes),
        b'i' => show_glyph(out, bytes),
        _ => show_sheet(out, bytes),
    }
}

// ---- a line of input

// The value of a hexadecimal digit. By arithmetic, which has a value for any byte; `to_digit` has none for a byte that is no digit.
fn digit(byte: u8) -> u8
    ensures { result < 16 }
{
    if byte < b'A' {
        byte % 16
    } else {
        (byte % 16 + 9) % 16
    }
}

// Reads bytes: two digits and a blank for each.
fn read_bytes(digits: &[u8], bytes: &mut [u8]) {
    for (byte, digits) in bytes.iter_mut().zip(digits.chunks(3)) {
        if let [high, low, ..] = digits {
            *byte = 16 * digit(*high) + digit(*low);
        }
    }
}

fn show_line(out: &impl Print, line: &[u8]) {
    let Some(at) = line.iter().position(|byte| *byte == b'=') else {
        return;
    };
    let (Some(digits), Some(name)) = (line.get(2..), line.get(at + 2..)) else {
        return;
    };
    let _ = out.write_all(name);
    let _ = print!(out; ":");
    let mut buffer = [0u8; 64];
    let bytes = &mut buffer[..(at / 3).min(64)];
    read_bytes(digits, bytes);
    show(out, line[0], bytes);
    let _ = println!(out);
}

// Arrays of a fixed size: no heap, fixed memory.
fn main(rt: HostRuntime) {
    let mut text = [0u8; 8192];
    let n = read_full(&mut rt.stdin(), &mut text);
    for line in text[..n].split(|byte| *byte == b'\n') {
        show_line(&rt, line);
    }
}
