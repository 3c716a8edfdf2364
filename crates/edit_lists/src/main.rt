// A list of edits, made both ways through the exported calls: with a frame, singly or as batches, and singly on the sheet alone with one fresh
// drawing at the end. Standard input holds the lengths of the sheet and of the frame (4 bytes each), the sheet, and the list: a kind (1 byte:
// 0 text, 1 place, 2 style, 3 batch), an item (4; of a batch 0) and the data, which are a length (2) and the bytes, or x and y (4 each).
// A write that fails is let pass.
#![tactic(auto)]

ghost use Rattle.std.specs.Prelude.{◌<◌, ◌≤◌};

use programs::{checksum, fill_strange};
use reading::read_full;
use refusals::Refusal;
use replay::{Edit, Entries, Reply, byte_at, i32_of, length_at, part, rest, store, u16_of, u32_of};
use station::{station_draw, station_edit_list};

// ---- what a rectangle covers

// A number that is not negative; 65,536, where no frame reaches, for one that is, as it is printed.
fn natural(z: i32) -> usize {
    usize::try_from(z).unwrap_or(65536)
}

// Whether `at` is one of `size` numbers from `from` on.
fn covers(from: usize, size: u32, at: usize) -> bool {
    from <= at && at - from < size as usize
}

// Whether a reply's rectangle covers the pixel number `i` of a frame.
fn area_covers(area: Reply, w: usize, i: usize) -> bool {
    w != 0
        && covers(natural(area.left), area.width, i % w)
        && covers(natural(area.top), area.height, i / w)
}

// Whether the pixels of a frame that a reply's rectangle does not cover are as they were.
fn outside_kept(before: &[u8], after: &[u8], w: usize, area: Reply) -> bool {
    before
        .iter()
        .zip(after)
        .enumerate()
        .all(|(i, (old, new))| old == new || area_covers(area, w, i))
}

// ---- the list

// Whether it is a batch; the kinds are the stored list's own numbers, and only looked at here.
fn is_batch(bytes: &[u8]) -> bool {
    byte_at(bytes, 0) == 3
}

fn data_size(bytes: &[u8]) -> usize
    ensures { result < 65536 }
{
    usize::from(u16_of(rest(bytes, 5)))
}

// The new text or style, or the batch.
fn data_of(bytes: &[u8]) -> &[u8] {
    part(bytes, 7, data_size(bytes))
}

// The bytes of an edit or a batch in the list.
fn edit_size(bytes: &[u8]) -> usize {
    match byte_at(bytes, 0) {
        1 => 13,
        _ => 7 + data_size(bytes),
    }
}

// The edit that stands in the list.
fn edit_of(bytes: &[u8]) -> Edit<'_> {
    let item = u32_of(rest(bytes, 1));
    let x = i32_of(rest(bytes, 5));
    let y = i32_of(rest(bytes, 9));
    Edit::of(byte_at(bytes, 0), item, x, y, data_of(bytes))
}

// ---- a batch made singly on the sheet alone: its entries are a kind (1 byte), an item (1), and the data, a length (2) and the bytes; they are read
// here, and not by crate `entries`, which is part of what is compared

// Beside `data_size`: a head of 2 bytes, and not of 5.
fn entry_data_size(entry: &[u8]) -> usize
    ensures { result < 65536 }
{
    usize::from(u16_of(rest(entry, 2)))
}

// The edit that an entry is. Beside `edit_of`, since an entry's x and y stand behind a length, and those of the list do not.
fn edit_of_entry(entry: &[u8]) -> Edit<'_> {
    let item = u32::from(byte_at(entry, 1));
    let x = i32_of(rest(entry, 4));
    let y = i32_of(rest(entry, 8));
    let bytes = part(entry, 4, entry_data_size(entry));
    Edit::of(byte_at(entry, 0), item, x, y, bytes)
}

// A left column or a top row; 65,536 for one that is negative or further, as `natural` has it.
fn corner(z: i32) -> u32
    ensures { result ≤ 65536 }
{
    natural(z).min(65536) as u32
}

// The column or row behind `size` of them, which are 65,536 at most.
fn end_of(z: i32, size: u32) -> u32 {
    corner(z) + size.min(65536)
}

// How many columns or rows there are from the first of two rectangles' to the last.
fn joined_side(a: i32, a_size: u32, b: i32, b_size: u32) -> u32 {
    let end = end_of(a, a_size).max(end_of(b, b_size));
    end.saturating_sub(corner(a.min(b)))
}

// A reply with the smallest rectangle that holds those of two that are not empty.
fn join(a: Reply, b: Reply) -> Reply {
    if a.width == 0 {
        return b;
    }
    if b.width == 0 {
        return a;
    }
    Reply {
        left: a.left.min(b.left),
        top: a.top.min(b.top),
        width: joined_side(a.left, a.width, b.left, b.width),
        height: joined_side(a.top, a.height, b.top, b.height),
        ..a
    }
}

// Makes the entries of a batch up to the first that is refused; the reply that theirs form.
fn make_singly(sheet: &mut [u8], list: &[u8]) -> Reply {
    let mut batch = Reply::of_code(0);
    for entry in Entries::of(list, |entry| 4 + entry_data_size(entry)) {
        let reply = Reply::from(edit_of_entry(entry).make_on_sheet(sheet));
        if reply.code != 0 {
            return Reply {
                code: reply.code,
                ..batch
            };
        }
        batch = Reply {
            code: 0,
            made: batch.made.wrapping_add(1),
            ..join(batch, reply)
        };
    }
    batch
}

// What the fresh run makes of a batch with this reply: at 22 none of its entries, and nothing is formed.
fn make_counted(sheet: &mut [u8], list: &[u8], reply: Reply) -> Reply {
    if reply.code == u32::from(Refusal::List) {
        return reply;
    }
    make_singly(sheet, list)
}

// ---- both ways

// Two copies of the sheet and a frame: edits with the frame change `patched`, those on the sheet alone `fresh`.
#[derive(Drop)]
struct Run<'a> {
    patched: &'a mut [u8],
    frame: &'a mut [u8],
    fresh: &'a mut [u8],
}

fn same_or_different(is_same: bool) -> &'static str {
    if is_same { "same" } else { "different" }
}

impl<'a> Run<'a> {
    // Two copies of the sheet, and the page of it on a strange frame.
    fn start(&mut self, out: &impl Print, sheet: &[u8]) {
        store(self.patched, 0, sheet);
        store(self.fresh, 0, sheet);
        fill_strange(self.frame, 11);
        let _ = println!(out; "drawing {}", station_draw(sheet, self.frame));
    }

    // Makes an edit or a batch both ways; the reply with the frame, and the other.
    fn make(&mut self, bytes: &[u8]) -> (Reply, Reply) {
        if is_batch(bytes) {
            let list = data_of(bytes);
            let reply = Reply::from(station_edit_list(self.patched, self.frame, list));
            return (reply, make_counted(self.fresh, list, reply));
        }
        let edit = edit_of(bytes);
        let reply = edit.make(self.patched, self.frame);
        (
            Reply::from(reply),
            Reply::from(edit.make_on_sheet(self.fresh)),
        )
    }

    // Whether both ways replied the same and left the same sheet; `refused` for a list that is turned down whole, of which no reply is formed.
    fn compared(&self, reply: Reply, other: Reply) -> &'static str {
        if reply != other {
            return "different";
        }
        if self.patched[..] != self.fresh[..] {
            return "different sheets";
        }
        if reply.code == u32::from(Refusal::List) {
            "refused"
        } else {
            "same"
        }
    }

    // Makes an edit or a batch both ways and writes what came of it, and whether the frame outside its rectangle is as it was, kept in `before`.
    fn make_edit(&mut self, out: &impl Print, number: u64, bytes: &[u8], before: &mut [u8]) {
        store(before, 0, self.frame);
        let (reply, other) = self.make(bytes);
        if is_batch(bytes) {
            let _ = print!(out; "batch {number}: {} {}", reply.code, reply.made);
        } else {
            let _ = print!(out; "edit {number}: {}", reply.code);
        }
        let left = natural(reply.left);
        let top = natural(reply.top);
        let compared = self.compared(reply, other);
        let _ = print!(out; " {left} {top} {} {} {compared}", reply.width, reply.height);
        let w = usize::from(u16_of(rest(self.patched, 2)));
        let kept = outside_kept(before, self.frame, w, reply);
        let _ = println!(out; " outside {}", if kept { "kept" } else { "changed" });
    }

    // Draws the edited sheet on a second strange frame, the page, and compares it and the page with what the edits left.
    fn finish(&self, out: &impl Print, page: &mut [u8]) {
        fill_strange(page, 100);
        let _ = println!(out; "drawing {}", station_draw(self.fresh, page));
        let sheets = same_or_different(self.patched[..] == self.fresh[..]);
        let frames = same_or_different(self.frame[..] == page[..]);
        let _ = println!(out; "sheets {sheets}\nframes {frames}");
        let _ = println!(out; "sheet {}", checksum(0, self.patched));
        let _ = println!(out; "frame {}", checksum(0, self.frame));
    }
}

// Arrays of a fixed size: no heap, fixed memory.
fn main(rt: HostRuntime) {
    let mut input = [0u8; 65537];
    let n = read_full(&mut rt.stdin(), &mut input);
    let input = &input[..n];
    let size = length_at(input, 0);
    let area = length_at(input, 4);
    let mut patched = [0u8; 65536];
    let mut frame = [0u8; 65536];
    let mut before = [0u8; 65536];
    let mut fresh = [0u8; 65536];
    let mut run = Run {
        patched: &mut patched[..size],
        frame: &mut frame[..area],
        fresh: &mut fresh[..size],
    };
    let before = &mut before[..area];
    run.start(&rt, part(input, 8, size));
    let list = Entries::of(rest(input, 8 + size), edit_size);
    for (number, bytes) in (1..).zip(list) {
        run.make_edit(&rt, number, bytes, before);
    }
    run.finish(&rt, before);
}
