// Lines drawn in two runs and whitespace drawn in two widths, the second at the position that the first returned, beside the same drawn at once. Standard
// input holds blocks: the lengths of a sheet, of its settings and of its cases (4 bytes each), and these. A setting is a style (8 bytes) and a
// place, x and y (4 each); each case is tried in all of them, over a strange frame. A case is a kind and an item (1 each) and a line (kind 0),
// its length (2) and its bytes, or whitespace (1), its width and a step (4 each). A line is cut before each character and at its end, whitespace at
// each multiple of the step. A write that fails is let pass.
#![tactic(auto)]

ghost use Rattle.std.specs.Prelude.{◌-◌};
ghost use Rattle.std.specs.Iterator.{at_most};

use programs::{Fault, accepted, checksum, fill_strange, pixel_count};
use reading::read_full;
use replay::{Entries, byte_at, i32_of, length_at, part, rest, store, u16_of, u32_of};
use station::{
    Drawn, Position, station_draw_item, station_draw_whitespace, station_set_place_on_sheet,
    station_set_style_on_sheet, station_set_text_on_sheet, station_walk,
};

// ---- a case

// What a case draws.
#[derive(Clone, Copy, Debug, PartialEq, Eq)]
enum Content<'a> {
    Line(&'a [u8]),
    Whitespace { width: u32, step: usize },
}

// The position that a drawing returned, and how many characters it replaced.
#[derive(Clone, Copy, Debug, PartialEq, Eq)]
struct Returned {
    x: i32,
    y: i32,
    replaced: u32,
}

impl<'a> Content<'a> {
    // What stands before a cut.
    fn first(self, cut: usize) -> Content<'a> {
        match self {
            Content::Line(text) => Content::Line(part(text, 0, cut)),
            Content::Whitespace { step, .. } => Content::Whitespace {
                width: u32::try_from(cut).unwrap_or(u32::MAX),
                step,
            },
        }
    }

    // What stands behind it.
    fn second(self, cut: usize) -> Content<'a> {
        match self {
            Content::Line(text) => Content::Line(rest(text, cut)),
            Content::Whitespace { width, step } => Content::Whitespace {
                width: width.saturating_sub(u32::try_from(cut).unwrap_or(u32::MAX)),
                step,
            },
        }
    }

    // How far behind a cut the next one is: behind the character there, or a step further; 0 if there is none, which a stored step may be, too.
    fn cut_size(self, cut: usize) -> usize {
        match self {
            Content::Line(text) => station_walk(text, cut).next.saturating_sub(cut),
            Content::Whitespace { step, .. } => step,
        }
    }

    // The cuts, up to a line's length, or a width of at most 65,536.
    fn cuts(self) -> Cuts<'a> {
        let last = match self {
            Content::Line(text) => text.len(),
            Content::Whitespace { width, .. } => width.min(65536) as usize,
        };
        Cuts {
            content: self,
            next: 0,
            end: last + 1,
        }
    }

    // Draws it as the text of an item, or at the item's place.
    fn draw(self, sheet: &mut [u8], frame: &mut [u8], item: u32) -> Result<Returned, Fault> {
        match self {
            Content::Line(text) => {
                accepted(station_set_text_on_sheet(sheet, item, text).code)?;
                let Drawn {
                    code,
                    x,
                    y,
                    replaced,
                } = station_draw_item(sheet, frame, item);
                accepted(code)?;
                Ok(Returned { x, y, replaced })
            }
            Content::Whitespace { width, .. } => {
                let Position { code, x, y } = station_draw_whitespace(sheet, frame, item, width);
                accepted(code)?;
                Ok(Returned { x, y, replaced: 0 })
            }
        }
    }
}

// The cuts of a case that are left.
#[derive(Drop)]
struct Cuts<'a> {
    content: Content<'a>,
    next: usize,
    end: usize,
}

impl<'a> Iterator for Cuts<'a> {
    type Item = usize;

    ghost remaining = { λ cuts. at_most (cuts.end - cuts.next) };

    fn next(&mut self) -> Option<usize> {
        let cut = self.next;
        if cut >= self.end {
            return None;
        }
        self.next = match self.content.cut_size(cut) {
            0 => self.end,
            size => self.end.min(cut.saturating_add(size)),
        };
        Some(cut)
    }
}

// An item and what is drawn of it.
#[derive(Clone, Copy, Debug, PartialEq, Eq)]
struct Case<'a> {
    item: u32,
    content: Content<'a>,
}

impl<'a> Case<'a> {
    // The case that bytes start with.
    fn of(bytes: &'a [u8]) -> Case<'a> {
        let content = match byte_at(bytes, 0) {
            1 => Content::Whitespace {
                width: u32_of(rest(bytes, 2)),
                step: u32_of(rest(bytes, 6)) as usize,
            },
            _ => Content::Line(part(bytes, 4, usize::from(u16_of(rest(bytes, 2))))),
        };
        Case {
            item: u32::from(byte_at(bytes, 1)),
            content,
        }
    }

    // The first part, and then the second at the position that the first returned: what that returned, with the replaced characters of both.
    fn draw_parts(self, sheet: &mut [u8], frame: &mut [u8], cut: usize) -> Result<Returned, Fault> {
        let first = self.content.first(cut).draw(sheet, frame, self.item)?;
        accepted(station_set_place_on_sheet(sheet, self.item, first.x, first.y).code)?;
        let second = self.content.second(cut).draw(sheet, frame, self.item)?;
        Ok(Returned {
            replaced: first.replaced.wrapping_add(second.replaced),
            ..second
        })
    }
}

// The bytes of the case that bytes start with.
fn case_size(bytes: &[u8]) -> usize {
    match byte_at(bytes, 0) {
        1 => 10,
        _ => 4 + usize::from(u16_of(rest(bytes, 2))),
    }
}

// ---- the comparisons

// How often the two ways gave the same, how often not, and how often a call was refused; of what was drawn at once, how many characters were
// replaced, and the checksum of the frames.
#[derive(Clone, Copy, Debug, Default, PartialEq, Eq)]
struct Tally {
    same: u64,
    different: u64,
    refused: u64,
    replaced: u64,
    sum: u64,
}

// A sheet, the page of what is drawn at once, and the frame of what is drawn in two parts.
#[derive(Drop)]
struct Trial<'a> {
    sheet: &'a mut [u8],
    page: &'a mut [u8],
    frame: &'a mut [u8],
}

impl<'a> Trial<'a> {
    // Puts an item where a setting has it.
    fn place_item(&mut self, item: u32, setting: &[u8]) {
        let x = i32_of(rest(setting, 8));
        let y = i32_of(rest(setting, 12));
        station_set_place_on_sheet(self.sheet, item, x, y);
    }

    // The whole of a case in the style of a setting, over a strange page.
    fn draw_whole(&mut self, case: Case<'_>, setting: &[u8]) -> Result<Returned, Fault> {
        station_set_style_on_sheet(self.sheet, case.item, part(setting, 0, 8));
        self.place_item(case.item, setting);
        fill_strange(self.page, 11);
        case.content.draw(self.sheet, self.page, case.item)
    }

    // Whether both ways left the same.
    fn is_same(&self) -> bool {
        self.frame[..] == self.page[..]
    }

    // Compares a case drawn in two parts, where the item is placed, with the whole.
    fn try_cut(&mut self, case: Case<'_>, whole: Option<Returned>, cut: usize, tally: &mut Tally) {
        fill_strange(self.frame, 11);
        let parts = case.draw_parts(self.sheet, self.frame, cut).ok();
        if parts.is_none() || whole.is_none() {
            tally.refused = tally.refused.wrapping_add(1);
        } else if parts == whole && self.is_same() {
            tally.same = tally.same.wrapping_add(1);
        } else {
            tally.different = tally.different.wrapping_add(1);
        }
    }

    // Draws a case at once in a setting, and compares it at each cut.
    fn try_setting(&mut self, case: Case<'_>, setting: &[u8], tally: &mut Tally) {
        let whole = self.draw_whole(case, setting).ok();
        let replaced = whole.map_or(0, |whole| u64::from(whole.replaced));
        tally.replaced = tally.replaced.wrapping_add(replaced);
        tally.sum = checksum(tally.sum, self.page);
        for cut in case.content.cuts() {
            self.place_item(case.item, setting);
            self.try_cut(case, whole, cut, tally);
        }
    }

    // Tries a case in all settings, and writes what came of it.
    fn try_case(&mut self, out: &impl Print, settings: &[u8], case: Case<'_>) {
        let mut tally = Tally::default();
        for setting in settings.chunks(16) {
            self.try_setting(case, setting, &mut tally);
        }
        let name = match case.content {
            Content::Line(_) => "line",
            Content::Whitespace { .. } => "whitespace",
        };
        let _ = print!(out; "{name} {}: {} same", case.item, tally.same);
        let _ = print!(out; " {} different {} refused", tally.different, tally.refused);
        let _ = println!(out; ", replaced {}, frames {}", tally.replaced, tally.sum);
    }
}

// ---- blocks

fn block_size(block: &[u8]) -> usize {
    12 + length_at(block, 0) + length_at(block, 4) + length_at(block, 8)
}

// Tries the cases of a block on its sheet and two frames.
fn try_block(out: &impl Print, block: &[u8]) {
    let size = length_at(block, 0);
    let behind = 12 + size + length_at(block, 4);
    let stored = part(block, 12, size);
    let settings = part(block, 12 + size, length_at(block, 4));
    let cases = part(block, behind, length_at(block, 8));
    let pixels = pixel_count(stored);
    let mut sheet = [0u8; 65536];
    let mut page = [0u8; 65536];
    let mut frame = [0u8; 65536];
    store(&mut sheet, 0, stored);
    let mut trial = Trial {
        sheet: &mut sheet[..size],
        page: &mut page[..pixels],
        frame: &mut frame[..pixels],
    };
    for case in Entries::of(cases, case_size) {
        trial.try_case(out, settings, Case::of(case));
    }
}

// Arrays of a fixed size: no heap, fixed memory.
fn main(rt: HostRuntime) {
    let mut input = [0u8; 65536];
    let n = read_full(&mut rt.stdin(), &mut input);
    for block in Entries::of(&input[..n], block_size) {
        try_block(&rt, block);
    }
}
