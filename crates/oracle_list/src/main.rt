// Replays a list of calls with the answers of the Rust crate and of the formulas of docs/SHEET.md, read from standard input: each case on
// slices of its own, each call on what the call before left. The reply's six numbers and every byte of sheet, frame and output are
// compared after each call. `oracle/src/list.rs` has the list's form and makes it. A write that fails is let pass.
#![tactic(auto)]

ghost use Rattle.std.specs.Prelude.{◌≡◌, ◌<◌, ◌≤◌, true, IfSome, length, take, drop};
ghost use Rattle.oracle_list.specs.Changes.{length_at, change_bytes, changed};

use reading::read_full;
use replay::{Edit, Reply, part, rest, store, u32_of};
use std::fmt;

// ---- the parts of a case and of a call

// The number that the first two bytes of a list store, and what follows it, unless the list ends in it. Two functions, here and below, since
// `from_le_bytes` is of no trait that u16 and u32 share.
fn first_u16(list: &[u8]) -> Option<(u16, &[u8])>
    ensures { IfSome result (λ p. (p.0 ≡ length_at list.now 0) × (p.1.now ≡ drop 2 list.now) × (length p.1.now < length list.now)) }
{
    let (bytes, behind) = list.split_first_chunk::<2>()?;
    Some((u16::from_le_bytes(*bytes), behind))
}

// The number that the first four bytes store, and what follows it, unless the list ends in it.
fn first_u32(list: &[u8]) -> Option<(u32, &[u8])>
    ensures { IfSome result (λ p. length p.1.now < length list.now) }
{
    let (bytes, behind) = list.split_first_chunk::<4>()?;
    Some((u32::from_le_bytes(*bytes), behind))
}

// The bytes whose length a list starts with, and what follows them, unless the list ends in them.
fn sized(list: &[u8]) -> Option<(&[u8], &[u8])>
    ensures value { IfSome result (λ p. p.0.now ≡ take (length_at list.now 0) (drop 2 list.now)) }
    ensures sizes { IfSome result (λ p. (length p.0.now < 65536) × (length p.1.now < length list.now)) }
{
    let (size, behind) = first_u16(list)?;
    behind.split_at_checked(usize::from(size))
}

// A case of the list: the sheet, the frame, the output's length, the number of calls, and what follows, the calls first.
#[derive(Clone, Copy, Debug, PartialEq, Eq)]
struct Case<'a> {
    sheet: &'a [u8],
    frame: &'a [u8],
    output: u16,
    calls: u16,
    behind: &'a [u8],
    ghost sheet_fits: { length sheet.now < 65536 },
    ghost frame_fits: { length frame.now < 65536 },
}

// The case that a list starts with, unless the list ends in it.
fn first_case(list: &[u8]) -> Option<Case<'_>>
    ensures { IfSome result (λ case. length case.behind.now < length list.now) }
{
    let (sheet, list) = sized(list)?;
    let (frame, list) = sized(list)?;
    let (output, list) = first_u16(list)?;
    let (calls, behind) = first_u16(list)?;
    Some(Case {
        sheet,
        frame,
        output,
        calls,
        behind,
    })
}

// What has changed of some bytes: those from an offset on. The others are as they were.
#[derive(Clone, Copy, Debug, PartialEq, Eq)]
struct Change<'a> {
    at: u16,
    bytes: &'a [u8],
    ghost is_short: { length bytes.now < 65536 },
}

// The change that a list starts with, and what follows it, unless the list ends in it.
fn first_change(list: &[u8]) -> Option<(Change<'_>, &[u8])>
    ensures value { IfSome result (λ p. (p.0.at ≡ length_at list.now 0) × (p.0.bytes.now ≡ change_bytes list.now)) }
    ensures size { IfSome result (λ p. length p.1.now < length list.now) }
{
    let (at, list) = first_u16(list)?;
    let (bytes, behind) = sized(list)?;
    Some((Change { at, bytes }, behind))
}

// The reply that a list starts with, and what follows it, unless the list ends in it.
fn first_reply(list: &[u8]) -> Option<(Reply, &[u8])>
    ensures { IfSome result (λ p. length p.1.now < length list.now) }
{
    let (code, list) = first_u32(list)?;
    let (made, list) = first_u32(list)?;
    let (left, list) = first_u32(list)?;
    let (top, list) = first_u32(list)?;
    let (width, list) = first_u32(list)?;
    let (height, behind) = first_u32(list)?;
    let reply = Reply {
        code,
        made,
        left: left.cast_signed(),
        top: top.cast_signed(),
        width,
        height,
    };
    Some((reply, behind))
}

// A call of the list: its kind, its arguments, of which the first is mostly the item, and its text, style, list of edits or walker's line; then
// its answer, the reply and the three changes.
#[derive(Clone, Copy, Debug, PartialEq, Eq)]
struct Call<'a> {
    kind: u8,
    arguments: (u32, u32, u32),
    text: &'a [u8],
    reply: Reply,
    sheet: Change<'a>,
    frame: Change<'a>,
    output: Change<'a>,
}

// The call that a list starts with, and what follows it, unless the list ends in it.
fn first_call(list: &[u8]) -> Option<(Call<'_>, &[u8])>
    ensures { IfSome result (λ p. length p.1.now < length list.now) }
{
    let (kind, list) = list.split_first()?;
    let (first, list) = first_u32(list)?;
    let (second, list) = first_u32(list)?;
    let (third, list) = first_u32(list)?;
    let (text, list) = sized(list)?;
    let (reply, list) = first_reply(list)?;
    let (sheet, list) = first_change(list)?;
    let (frame, list) = first_change(list)?;
    let (output, behind) = first_change(list)?;
    let call = Call {
        kind: *kind,
        arguments: (first, second, third),
        text,
        reply,
        sheet,
        frame,
        output,
    };
    Some((call, behind))
}

impl<'a> Call<'a> {
    // The edit of a kind that the call makes.
    fn edit(self, kind: u8) -> Edit<'a> {
        let (item, x, y) = self.arguments;
        Edit::of(kind, item, x.cast_signed(), y.cast_signed(), self.text)
    }
}

// ---- the calls

// Makes a call of the list, by its kind: the stored list's own number, which is printed as one. An enum would name each kind twice, from its
// number and at its call.
fn make_call(sheet: &mut [u8], frame: &mut [u8], output: &mut [u8], call: Call<'_>) -> Reply {
    let (first, second, _) = call.arguments;
    match call.kind {
        0 => Reply::of_code(station::station_check(sheet)),
        1 => Reply::from(station::station_index(sheet, first, second)),
        2 => Reply::from(station::station_contains(sheet, first, second)),
        3 => Reply::from(station::station_bounding_box(sheet, first)),
        4 => Reply::from(station::station_draw_item(sheet, frame, first)),
        5 => Reply::from(station::station_draw_whitespace(sheet, frame, first, second)),
        6 => Reply::of_code(station::station_draw(sheet, frame)),
        kind @ 7..=9 => Reply::from(call.edit(kind - 7).make(sheet, frame)),
        kind @ 10..=12 => Reply::from(call.edit(kind - 10).make_on_sheet(sheet)),
        13 => Reply::from(station::station_write_page(sheet, frame, output)),
        15 => Reply::from(station::station_edit_list(sheet, frame, call.text)),
        _ => Reply::from(station::station_walk(call.text, first as usize)),
    }
}

// ---- the comparison

// What of a call's outcome is as the list says.
#[derive(Clone, Copy, Debug, PartialEq, Eq)]
struct Same {
    reply: bool,
    sheet: bool,
    frame: bool,
    output: bool,
}

impl Same {
    fn is_all(self) -> bool {
        self.reply && self.sheet && self.frame && self.output
    }
}

// What differs.
impl fmt::Display for Same {
    fn fmt<W: fmt::Write>(&self, f: &mut fmt::Formatter<W>) -> fmt::Result {
        let reply = if self.reply { "" } else { " reply" };
        let sheet = if self.sheet { "" } else { " sheet" };
        let frame = if self.frame { "" } else { " frame" };
        let output = if self.output { "" } else { " output" };
        write!(f, "{reply}{sheet}{frame}{output}")
    }
}

// Whether two slices have the same first bytes.
fn same_start(a: &[u8], b: &[u8], size: usize) -> bool
    ensures { (result ≡ true → take size a.now ≡ take size b.now) × (take size a.now ≡ take size b.now → result ≡ true) }
{
    part(a, 0, size) == part(b, 0, size)
}

// Whether two slices have the same bytes from an offset on.
fn same_end(a: &[u8], b: &[u8], at: usize) -> bool
    ensures { (result ≡ true → drop at a.now ≡ drop at b.now) × (drop at a.now ≡ drop at b.now → result ≡ true) }
{
    rest(a, at) == rest(b, at)
}

// Whether a slice has some bytes at an offset.
fn has_at(a: &[u8], at: usize, bytes: &[u8]) -> bool
    ensures { (result ≡ true → take (length bytes.now) (drop at a.now) ≡ bytes.now) × (take (length bytes.now) (drop at a.now) ≡ bytes.now → result ≡ true) }
{
    part(a, at, bytes.len()) == bytes
}

// Whether the bytes after a call are those before it with a change.
fn as_stored(after: &[u8], before: &[u8], change: Change<'_>) -> bool
    ensures { result ≡ true → after.now ≡ changed before.now change.entry.at change.entry.bytes.now }
{
    let at = usize::from(change.at);
    let bytes = change.bytes;
    let end = at + bytes.len();
    same_start(after, before, at) && has_at(after, at, bytes) && same_end(after, before, end)
}

// ---- the list

// What the calls of a case are made on.
#[derive(Drop)]
struct Slices<'a> {
    sheet: &'a mut [u8],
    frame: &'a mut [u8],
    output: &'a mut [u8],
}

impl<'a> Slices<'a> {
    fn make(&mut self, call: Call<'_>) -> Reply {
        make_call(self.sheet, self.frame, self.output, call)
    }

    // Keeps what other slices of these lengths hold.
    fn keep(&mut self, other: &Slices<'_>) {
        store(self.sheet, 0, other.sheet);
        store(self.frame, 0, other.frame);
        store(self.output, 0, other.output);
    }

    // Compares a call's outcome with the list.
    fn compared(&self, before: &Slices<'_>, reply: Reply, call: Call<'_>) -> Same {
        Same {
            reply: reply == call.reply,
            sheet: as_stored(self.sheet, before.sheet, call.sheet),
            frame: as_stored(self.frame, before.frame, call.frame),
            output: as_stored(self.output, before.output, call.output),
        }
    }
}

// How often each kind of call was answered, how often it was refused, and how often the outcome differs.
#[derive(Clone, Copy, Debug, Default, PartialEq, Eq)]
struct Counts {
    kinds: [u64; 16],
    refused: u64,
    differences: u64,
}

impl Counts {
    // Counts a call. A kind of 16 is a refusal more, and one of 17 a difference more; no list that the oracle writes has them.
    fn count(&mut self, call: Call<'_>, same: Same) {
        if let Some(kind) = self.kinds.get_mut(usize::from(call.kind)) {
            *kind = kind.wrapping_add(1);
        }
        if call.kind == 16 {
            self.refused = self.refused.wrapping_add(1);
        }
        if call.kind == 17 {
            self.differences = self.differences.wrapping_add(1);
        }
        if call.reply.code != 0 {
            self.refused = self.refused.wrapping_add(1);
        }
        if !same.is_all() {
            self.differences = self.differences.wrapping_add(1);
        }
    }
}

// Replays the calls of a case; what follows them, unless the list ends in them. By itself, so that its arrays are made first: made behind the step to the
// case they are cleared twice, which takes 1.27 of the program's time.
fn replay_calls<'a>(
    out: &impl Print,
    case: Case<'a>,
    number: u64,
    counts: &mut Counts,
) -> Option<&'a [u8]>
    ensures { IfSome result (λ behind. length behind.now ≤ length case.entry.behind.now) }
{
    let mut sheet = [0u8; 65536];
    let mut frame = [0u8; 65536];
    let mut output = [0u8; 65536];
    let mut old_sheet = [0u8; 65536];
    let mut old_frame = [0u8; 65536];
    let mut old_output = [0u8; 65536];
    let s = case.sheet.len();
    let f = case.frame.len();
    let o = usize::from(case.output);
    store(&mut sheet, 0, case.sheet);
    store(&mut frame, 0, case.frame);
    let mut slices = Slices {
        sheet: &mut sheet[..s],
        frame: &mut frame[..f],
        output: &mut output[..o],
    };
    let mut before = Slices {
        sheet: &mut old_sheet[..s],
        frame: &mut old_frame[..f],
        output: &mut old_output[..o],
    };
    slices.output.fill(0x5A);
    let mut behind = case.behind;
    for i in 1..=case.calls {
        let (call, next) = first_call(behind)?;
        before.keep(&slices);
        let reply = slices.make(call);
        let same = slices.compared(&before, reply, call);
        counts.count(call, same);
        if !same.is_all() {
            let kind = call.kind;
            let _ = println!(out; "difference: case {number}, call {i}, kind {kind}:{same}");
        }
        behind = next;
    }
    Some(behind)
}

// Replays the case that a list starts with; what follows it, unless the list ends in it.
fn replay_case<'a>(
    out: &impl Print,
    list: &'a [u8],
    number: u64,
    counts: &mut Counts,
) -> Option<&'a [u8]>
    ensures { IfSome result (λ behind. length behind.now < length list.now) }
{
    let case = first_case(list)?;
    replay_calls(out, case, number, counts)
}

// Replays the cases, and gives their number.
fn replay_cases(out: &impl Print, list: &[u8], counts: &mut Counts) -> u64 {
    let mut number = 0;
    let mut left = list;
    // What is left goes on, and no iterator of cases: a case tells where it ends only as it is replayed.
    while !left.is_empty() {
        number += 1;
        let Some(behind) = replay_case(out, left, number, counts) else {
            let _ = println!(out; "cut in case {number}");
            return number;
        };
        left = behind;
    }
    number
}

// Whether the list's first word is 'WPL2', and its second its length.
fn is_list(list: &[u8]) -> bool {
    list.starts_with(b"WPL2") && u32_of(rest(list, 4)) as usize == list.len()
}

// Replays a list, and writes what was met.
fn replay_list(out: &impl Print, list: &[u8]) {
    if !is_list(list) {
        let _ = println!(out; "no list");
        return;
    }
    let mut counts = Counts::default();
    let cases = replay_cases(out, rest(list, 12), &mut counts);
    let _ = println!(out; "cases {cases}");
    for (kind, count) in counts.kinds.iter().enumerate() {
        let _ = println!(out; "kind {kind}: {count}");
    }
    let _ = println!(out;
        "refused {}\ndifferences {}",
        counts.refused, counts.differences
    );
    if u64::from(u32_of(rest(list, 8))) != cases {
        let _ = println!(out; "cut");
    }
}

// Arrays of a fixed size: no heap, fixed memory.
fn main(rt: HostRuntime) {
    let mut list = [0u8; 294912];
    let n = read_full(&mut rt.stdin(), &mut list);
    replay_list(&rt, &list[..n]);
}
