// The search over characters that a mapping lists singly: bytes with which neither a range nor the character looked for begins are
// passed over in blocks, and a character is counted for each lead byte among them.
ghost use Rattle.std.specs.Prelude.{◌≡◌, ◌<◌, ◌≤◌, true, length, get_or, IfSome};
ghost use Rattle.std.specs.List.{position_or_len};
ghost use Rattle.characters.specs.Utf8.{well_formed};
ghost use Rattle.mapping.specs.Search.{is_lead, leads, needle_of, may_begin, may_begin_at, OfBlock, OfHit, Below, SkipsBelow, Passes, Skips, IsNeedle};

// The bytes by which a character is looked for: the first of its UTF-8 sequence, the second of four, the last but one and the last,
// with how far on from the first they stand. One that a sequence is too short for is the first again.
#[derive(Clone, Copy, Debug, PartialEq, Eq)]
pub struct Needle {
    pub lead: u8,
    pub inner: u8,
    pub middle: u8,
    pub last: u8,
    pub near: usize,
    pub mid: usize,
    pub end: usize,
}

// The bytes by which some character is looked for: the functions that search with them need the facts of `IsNeedle`.
#[derive(Clone, Copy, Debug, PartialEq, Eq)]
struct Sought {
    needle: Needle,
    ghost is_needle: { IsNeedle needle },
}

// Of 128 bytes: the greatest, where 00 comes after FF and each counts one less, and how many are lead bytes.
#[derive(Clone, Copy, Debug, PartialEq, Eq)]
pub struct Block {
    pub most: u8,
    pub leads: u8,
}

// The position after bytes that were passed over, and how many of them are lead bytes.
#[derive(Clone, Copy, Debug, PartialEq, Eq)]
pub struct Passed {
    pub at: usize,
    pub count: u64,
}

// Whether a byte begins a sequence.
fn is_lead(b: u8) -> bool
    ensures { result ≡ is_lead b }
{
    !characters::is_continuation(b)
}

// The bytes by which a character is looked for. By hand, since a number that is no `char` is looked for too.
fn needle_of(ch: u32) -> Needle
    ensures { result ≡ needle_of ch }
{
    if ch < 0x80 {
        let b = ch as u8;
        return Needle {
            lead: b,
            inner: b,
            middle: b,
            last: b,
            near: 0,
            mid: 0,
            end: 0,
        };
    }
    let last = (0x80 + ch % 64) as u8;
    if ch < 0x800 {
        let lead = (0xC0 + ch / 64) as u8;
        return Needle {
            lead,
            inner: lead,
            middle: lead,
            last,
            near: 0,
            mid: 0,
            end: 1,
        };
    }
    let middle = (0x80 + ch / 64 % 64) as u8;
    if ch < 0x10000 {
        let lead = (0xE0 + ch / 4096) as u8;
        return Needle {
            lead,
            inner: lead,
            middle,
            last,
            near: 0,
            mid: 1,
            end: 2,
        };
    }
    let lead = (0xF0 + ch / 262144 % 8) as u8;
    let inner = (0x80 + ch / 4096 % 64) as u8;
    Needle {
        lead,
        inner,
        middle,
        last,
        near: 1,
        mid: 2,
        end: 3,
    }
}

// The first byte of a character's sequence.
pub fn lead_of(ch: u32) -> u8
    ensures { result ≡ (needle_of ch).lead }
{
    needle_of(ch).lead
}

// The least byte of a text with which a sequence of several bytes begins. Any other byte counts as FF, with which none begins, so that no byte takes a
// branch: by `filter` and `min` a page of lines beside the frame takes 1.27 of its instructions.
pub fn least_lead(text: &[u8]) -> Option<u8>
    ensures { IfSome result (λ lead. 0xC0 ≤ lead) }
{
    let least = text.iter().fold(0xFF, |least: u8, b| {
        least.min(if *b < 0xC0 { 0xFF } else { *b })
    });
    (0xC0..0xFF).contains(&least).then_some(least)
}

// Whether a range or the character may begin with the byte a.
fn may_begin(needle: Needle, a: u8, b: u8, c: u8, d: u8) -> bool
    ensures { result ≡ may_begin needle a b c d }
{
    let inside = (b == needle.inner) & ((c == needle.middle) & (d == needle.last));
    (a == 0) | ((a == needle.lead) & inside)
}

// What is said of 128 bytes.
fn read_block(bytes: &[u8]) -> Block
    requires { length bytes.now ≡ 128 }
    ensures { OfBlock bytes.now 0 result }
{
    let mut most: u8 = 0;
    let mut leads: u8 = 0;
    for b in bytes {
        most = most.max(b.wrapping_sub(1));
        leads += u8::from(is_lead(*b));
    }
    Block { most, leads }
}

// How many of the first n of 64 bytes are lead bytes.
fn leads_of(bytes: &[u8], n: u8) -> u8
    requires whole { length bytes.now ≡ 64 }
    requires n_bound { n ≤ 64 }
    ensures { result ≡ leads bytes.now 0 n }
{
    let mut count: u8 = 0;
    for (i, b) in bytes.iter().enumerate() {
        let lead = u8::from(is_lead(*b));
        count += lead.min(n.saturating_sub(i as u8));
    }
    count
}

// Passes over blocks of bytes that are below `lead`, and not 00. By index: by `chunks_exact(128)` a page that looks through 47,000 characters takes
// 1.014 of its instructions, where none is to take 1.01.
fn pass_blocks(bytes: &[u8], lead: u8) -> Passed
    ensures { Below bytes.now lead result }
{
    let blocks = bytes.len() / 128;
    let mut count: u64 = 0;
    for k in 0..blocks {
        let at = 128 * k;
        let block = read_block(&bytes[at..at + 128]);
        if lead.wrapping_sub(1) <= block.most {
            return Passed { at, count };
        }
        count += u64::from(block.leads);
    }
    Passed {
        at: 128 * blocks,
        count,
    }
}

// How many bytes stand before the first lead byte.
fn before_lead(bytes: &[u8]) -> usize
    ensures { result ≡ position_or_len is_lead bytes.now }
{
    bytes
        .iter()
        .position(|b| is_lead(*b))
        .unwrap_or(bytes.len())
}

// Passes over the same blocks, and on to the next lead byte. `SkipsBelow`: see `passed_below` in lib.rt.
pub fn pass_below(bytes: &[u8], lead: u8) -> Passed
    requires { 0xC0 ≤ lead }
    ensures skips { SkipsBelow bytes.now lead result }
    ensures on_lead { result.at < length bytes.now → is_lead (get_or bytes.now result.at 0) ≡ true }
{
    let blocks = pass_blocks(bytes, lead);
    Passed {
        at: blocks.at + before_lead(&bytes[blocks.at..]),
        count: blocks.count,
    }
}

// Whether a range or the character may begin with the first of the bytes.
fn begins(rest: &[u8], needle: Needle) -> bool
    requires { 0 < length rest.now }
    ensures { result ≡ may_begin_at rest.now needle 0 }
{
    let a = rest[0];
    let b = rest.get(needle.near).copied().unwrap_or(0);
    let c = rest.get(needle.mid).copied().unwrap_or(0);
    let d = rest.get(needle.end).copied().unwrap_or(0);
    may_begin(needle, a, b, c, d)
}

impl Sought {
    // Where in 64 bytes a range or the character may begin first. A sequence that begins in the 64 reaches up to 3 bytes on.
    // By index, since of the four bytes that are looked at three stand as far on as the needle says.
    fn hit(self, bytes: &[u8]) -> Option<u8>
        requires { length bytes.now ≡ 67 }
        ensures { OfHit bytes.now self.needle 0 result }
    {
        let needle = self.needle;
        let near = needle.near;
        let mid = needle.mid;
        let end = needle.end;
        let mut left: u8 = 0;
        for i in 0..64 {
            let a = bytes[i];
            let b = bytes[i + near];
            let c = bytes[i + mid];
            let d = bytes[i + end];
            if may_begin(needle, a, b, c, d) {
                left = left.max(64 - i as u8);
            }
        }
        (0 < left).then_some(64 - left)
    }

    // Passes over bytes with which neither a range nor the character begins. By index, since the parts of 67 bytes overlap by 3:
    // `windows(67).step_by(64)` would step through the windows between.
    fn pass(self, bytes: &[u8]) -> Passed
        ensures { Passes bytes.now self.needle result }
    {
        let blocks = pass_blocks(bytes, self.needle.lead);
        let hits = (bytes.len() - blocks.at).saturating_sub(3) / 64;
        let mut count = blocks.count;
        for k in 0..hits {
            let at = blocks.at + 64 * k;
            if let Some(n) = self.hit(&bytes[at..at + 67]) {
                count += u64::from(leads_of(&bytes[at..at + 64], n));
                return Passed {
                    at: at + usize::from(n),
                    count,
                };
            }
            count += u64::from(leads_of(&bytes[at..at + 64], 64));
        }
        Passed {
            at: blocks.at + 64 * hits,
            count,
        }
    }

    // The same byte by byte, to where a range or the character may begin, or to the end.
    fn pass_bytes(self, bytes: &[u8]) -> Passed
        ensures { Skips bytes.now self.needle result }
    {
        let mut count: u64 = 0;
        for (at, b) in bytes.iter().enumerate() {
            if begins(&bytes[at..], self.needle) {
                return Passed { at, count };
            }
            count += u64::from(is_lead(*b));
        }
        Passed {
            at: bytes.len(),
            count,
        }
    }
}

// Whether a range begins, or the mapping ends, within four bytes: then a block is not worth its while.
fn is_near(rest: &[u8]) -> bool {
    let [a, b, c, d, ..] = rest else {
        return true;
    };
    *a == 0 || *b == 0 || *c == 0 || *d == 0
}

// Passes over singly listed characters other than ch. `well_formed`: see `find` in lib.rt.
pub fn skip(rest: &[u8], ch: u32) -> Passed
    requires { well_formed rest.now ≡ true }
    ensures { Skips rest.now (needle_of ch) result }
{
    if is_near(rest) {
        return Passed { at: 0, count: 0 };
    }
    let sought = Sought {
        needle: needle_of(ch),
    };
    let blocks = sought.pass(rest);
    let bytes = sought.pass_bytes(&rest[blocks.at..]);
    Passed {
        at: blocks.at + bytes.at,
        count: blocks.count + bytes.count,
    }
}
