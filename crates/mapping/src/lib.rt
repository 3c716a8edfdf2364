// A mapping: the entries that its bytes spell, the index of a character, whether it is listed, and the refusals 7 and 8.
#![tactic(auto)]

ghost use Rattle.std.specs.Prelude.{◌≡◌, ◌≤◌, true, length, IfSome};
ghost use Rattle.refusals.specs.Numbers.{refusal_of};
ghost use Rattle.characters.specs.Utf8.{well_formed};
ghost use Rattle.mapping.specs.Entries.{entry_at, stop_of, in_range, scalars_below, at_most, glyph_at, stop_refusal, WithinLimit};
ghost use Rattle.mapping.specs.Mapping.{from_to, list_of, place_from, glyph, contains, refusal};
ghost use Rattle.mapping.specs.Search.{SkipsBelow, StartOf, Resumes};

use characters::{Cursor, Step};
use refusals::Refusal;
use search::Passed;

pub mod search;

// What stands at a position of a mapping: a range of characters and the position after it, a sequence that RFC 3629 does not allow, or the end of
// the list. Three cases as a step has, taken by `let else` in `check_mapping`, as docs/DECISIONS.md, Forms that were asked for, names it; no Result,
// which would make the end of a list an error.
#[derive(Clone, Copy, Debug, PartialEq, Eq)]
pub enum Entry {
    Range(u32, u32, Cursor),
    IllFormed,
    End,
}

// The glyph of a character: its index, and whether the mapping lists the character. No Option: a character that is not listed has an
// index too, the replacement's.
#[derive(Clone, Copy, Debug, PartialEq, Eq)]
pub struct Glyph {
    pub index: u32,
    pub listed: bool,
}

// The bytes of a mapping that the check accepts, which are lent.
#[derive(Clone, Copy, Debug, PartialEq, Eq)]
pub struct Mapping<'a> {
    pub bytes: &'a [u8],
    ghost within_limit: { WithinLimit bytes.now },
}

// What is passed over for a character whose sequence begins with `lead` or a higher byte.
#[derive(Clone, Copy, Debug, PartialEq, Eq)]
pub struct PassedBelow {
    pub lead: u8,
    pub passed: Passed,
}

// Where the search in a mapping starts for the characters of a text: the mapping's first entry, and what is passed over after it, if anything.
#[derive(Clone, Copy, Debug, PartialEq, Eq)]
pub struct Start {
    pub first: Entry,
    pub below: Option<PassedBelow>,
}

// How many characters stand below a number.
fn scalars_below(v: u64) -> u64
    ensures { result ≡ scalars_below v }
{
    if v < 0xD800 {
        return v;
    }
    if v < 0xE000 {
        return 0xD800;
    }
    v - 0x800
}

// How many characters stand from `start` to `end`, both included.
fn range_len(start: u32, end: u32) -> u64
    ensures { result ≡ length (from_to start end) }
{
    let below = scalars_below(u64::from(start));
    scalars_below(u64::from(end) + 1).saturating_sub(below)
}

// Whether ch is a character from `start` to `end`.
fn in_range(start: u32, end: u32, ch: u32) -> bool
    ensures { result ≡ in_range start end ch }
{
    (start <= ch) & ((ch <= end) & !characters::is_surrogate(ch))
}

// The entry where no character stands.
fn stop(step: Step) -> Entry
    ensures { result ≡ stop_of step }
{
    match step {
        Step::IllFormed => Entry::IllFormed,
        _ => Entry::End,
    }
}

// The entry at the cursor.
fn entry_at(mapping: &[u8], c: Cursor) -> Entry
    ensures { result ≡ entry_at mapping.now c.at }
{
    let first = characters::next(mapping, c);
    let Step::Character(ch, after) = first else {
        return stop(first);
    };
    if ch != 0 {
        return Entry::Range(ch, ch, after);
    }
    let second = characters::next(mapping, after);
    let Step::Character(start, then) = second else {
        return stop(second);
    };
    let third = characters::next(mapping, then);
    let Step::Character(end, last) = third else {
        return stop(third);
    };
    Entry::Range(start, end, last)
}

// The first position of a character in the list that the bytes spell, counted from `count`, or 65,536 for every position from there on. No
// iterator of entries: between two of them bytes may be passed over in blocks. `well_formed` stays a clause here, in `resume` and in
// `search::skip`: the bytes are others at each call.
fn find(mapping: &[u8], count: u64, ch: u32) -> Option<u32>
    requires well { well_formed mapping.now ≡ true }
    requires count_bound { count ≤ 65_536 }
    ensures { result ≡ at_most 65_536 (place_from count ch (list_of mapping.now)) }
{
    let mut rest = mapping;
    let mut k = count;
    loop {
        let passed = search::skip(rest, ch);
        let more = passed.count.min(65536);
        k = (k + more).min(65536);
        let Entry::Range(start, end, after) = entry_at(rest, Cursor { at: passed.at }) else {
            return None;
        };
        if in_range(start, end, ch) {
            let through = range_len(start, ch);
            let place = (k + through - 1).min(65536);
            return Some(place as u32);
        }
        let len = range_len(start, end);
        k = (k + len).min(65536);
        rest = &rest[after.at..];
    }
}

// What is passed over after the first entry for the characters of a text, if a block stands there: only then is the text looked at. `SkipsBelow` is a
// clause here, in `resume` and in `search::pass_below`, since it ties what was passed to the bytes that are lent beside it.
fn passed_below(rest: &[u8], text: &[u8]) -> Option<PassedBelow>
    ensures { IfSome result (λ below. SkipsBelow rest.now below.lead below.passed) }
{
    if rest.len() < 128 {
        return None;
    }
    let lead = search::least_lead(text)?;
    let passed = search::pass_below(rest, lead);
    Some(PassedBelow { lead, passed })
}

// The rest of the bytes after the first entry in which ch is looked for, and how many characters are counted by there if `count` are before:
// after what is passed over, if the sequence of ch begins with its lead byte or a higher one, 00 counted as the highest: no 00 is passed over, so that
// U+0000 is not looked for among those bytes again.
fn resume(rest: &[u8], below: Option<PassedBelow>, count: u64, ch: u32) -> (&[u8], u64)
    requires well { well_formed rest.now ≡ true }
    requires skips_below { IfSome below (λ below. SkipsBelow rest.now below.lead below.passed) }
    requires count_bound { count ≤ 65_536 }
    ensures { Resumes rest.now ch count result.0.now result.1 }
{
    match below {
        Some(below) if below.lead.wrapping_sub(1) <= search::lead_of(ch).wrapping_sub(1) => {
            let more = below.passed.count.min(65536);
            let counted = (count + more).min(65536);
            (&rest[below.passed.at..], counted)
        }
        _ => (rest, count),
    }
}

// The glyph of a character that stands at a position, or nowhere.
fn glyph_at(place: Option<u32>, replacement: u32) -> Glyph
    ensures { result ≡ glyph_at replacement place }
{
    Glyph {
        index: place.unwrap_or(replacement),
        listed: place.is_some(),
    }
}

impl<'a> Mapping<'a> {
    // Where the search in the mapping starts for the characters of a text.
    pub fn start_of(&self, text: &[u8]) -> Start
        ensures { StartOf self.now.bytes.now result }
    {
        let first = entry_at(self.bytes, Cursor { at: 0 });
        let Entry::Range(_, _, after) = first else {
            return Start { first, below: None };
        };
        let below = passed_below(&self.bytes[after.at..], text);
        Start { first, below }
    }

    // The glyph of a character: its first position, else the replacement. Where the search starts is given, so that a character of the first
    // range is found without a step over the bytes.
    pub fn glyph_with(&self, start: Start, replacement: u32, ch: u32) -> Glyph
        requires { StartOf self.now.bytes.now start }
        ensures { result ≡ glyph self.now.bytes.now replacement ch }
    {
        let Entry::Range(low, high, after) = start.first else {
            return glyph_at(None, replacement);
        };
        if in_range(low, high, ch) {
            let through = range_len(low, ch);
            let index = (through - 1) as u32;
            return glyph_at(Some(index), replacement);
        }
        let len = range_len(low, high).min(65536);
        let (rest, count) = resume(&self.bytes[after.at..], start.below, len, ch);
        let place = find(rest, count, ch);
        glyph_at(place, replacement)
    }

    // The same, for a single character. Not by `glyph_with`: with a second caller of it a page takes 1.07 of its time (docs/PERFORMANCE.md), where none
    // is to take 1.01.
    pub fn glyph_of(&self, replacement: u32, ch: u32) -> Glyph
        ensures { result ≡ glyph self.now.bytes.now replacement ch }
    {
        let place = find(self.bytes, 0, ch);
        glyph_at(place, replacement)
    }

    // Whether the mapping lists a character.
    pub fn contains(&self, ch: u32) -> bool
        ensures { result ≡ contains self.now.bytes.now ch }
    {
        self.glyph_of(0, ch).listed
    }
}

// The refusal where a mapping's entries stop, after so many characters.
fn stop_refusal(stop: Entry, count: u64) -> Result<(), Refusal>
    ensures { refusal_of result ≡ stop_refusal stop count }
{
    let Entry::End = stop else {
        return Err(Refusal::MappingIllFormed);
    };
    if 65536 < count {
        return Err(Refusal::MappingTooLong);
    }
    Ok(())
}

// Refuses an ill-formed mapping, and one that spells more than 65,536 characters. The walk is over cursors, each entry and the next one taken
// by `let else`: docs/DECISIONS.md, Forms that were asked for, names this place.
pub fn check_mapping(mapping: &[u8]) -> Result<(), Refusal>
    ensures { refusal_of result ≡ refusal mapping.now }
{
    let mut c = Cursor { at: 0 };
    let mut count: u64 = 0;
    loop {
        let entry = entry_at(mapping, c);
        let Entry::Range(start, end, after) = entry else {
            return stop_refusal(entry, count);
        };
        let len = range_len(start, end);
        count = (count + len).min(65537);
        c = after;
    }
}
