// The file's fields: numbers stored as bytes, the header's numbers, and where records stand.
ghost use Rattle.std.specs.Prelude.{◌≡◌, ◌+◌, ◌^◌, ◌≤◌, ◌<◌, ◌↔◌, length, IsSome, IfSome};
ghost use Rattle.sheet.specs.Fields.{byte_at, le16_at, le32_at, part, frame_width, frame_height, paper, font_count, item_count, font_at, item_at};

// The number that the byte at `at` stores. An offset counts from the file's first byte, here and below, as docs/SHEET.md and the definitions have it.
pub fn u8_at(bytes: &[u8], at: usize) -> u32
    requires { at < length bytes.now }
    ensures { (result ≡ byte_at bytes.now at) × (result < 2 ^ 8) }
{
    u32::from(bytes[at])
}

// The number that the two bytes from `at` on store. One function for this and the next would need a trait over u16 and u32: `from_le_bytes` is each type's own.
#[tactic(auto, unfolding(crate::specs::Fields::le16_at))]
pub fn u16_at(bytes: &[u8], at: usize) -> usize
    requires { at + 2 ≤ length bytes.now }
    ensures { (result ≡ le16_at bytes.now at) × (result < 2 ^ 16) }
{
    usize::from(u16::from_le_bytes([bytes[at], bytes[at + 1]]))
}

// The number that the four bytes from `at` on store.
#[tactic(auto, unfolding(crate::specs::Fields::le32_at))]
pub fn u32_at(bytes: &[u8], at: usize) -> usize
    requires { at + 4 ≤ length bytes.now }
    ensures { (result ≡ le32_at bytes.now at) × (result < 2 ^ 32) }
{
    u32::from_le_bytes([bytes[at], bytes[at + 1], bytes[at + 2], bytes[at + 3]]) as usize
}

// `size` bytes of the file from `from` on.
#[tactic(auto, using(crate::proofs::Bytes::slice_part))]
pub fn part(bytes: &[u8], from: usize, size: usize) -> &[u8]
    requires { from + size ≤ length bytes.now }
    ensures { result.now ≡ part bytes.now from size }
{
    &bytes[from..from + size]
}

// Where the record of font `n` stands.
pub fn font_offset(n: u32) -> usize
    ensures { result ≡ font_at n }
{
    24 + 28 * n as usize
}

// A font's or an item's record of 28 bytes: the file and where the record stands, since a definition names a field by the file and an offset in it.
#[derive(Clone, Copy, Debug, PartialEq, Eq)]
pub struct Record<'a> {
    pub bytes: &'a [u8],
    pub at: usize,
    pub ghost whole: { at + 28 ≤ length bytes.now },
}

impl<'a> Record<'a> {
    // The header of the record's file.
    pub fn header(self) -> Header<'a>
        ensures { result.bytes.now ≡ self.entry.bytes.now }
    {
        Header { bytes: self.bytes }
    }

    // Byte `k` of the record.
    pub fn byte(self, k: usize) -> u8
        requires { k < 28 }
        ensures { result ≡ byte_at self.entry.bytes.now (self.entry.at + k) }
    {
        self.bytes[self.at + k]
    }

    // The number that the two bytes from byte `k` on store.
    pub fn u16_at(self, k: usize) -> usize
        requires { k + 2 ≤ 28 }
        ensures { (result ≡ le16_at self.entry.bytes.now (self.entry.at + k)) × (result < 2 ^ 16) }
    {
        u16_at(self.bytes, self.at + k)
    }

    // The number that the four bytes from byte `k` on store.
    pub fn u32_at(self, k: usize) -> usize
        requires { k + 4 ≤ 28 }
        ensures { (result ≡ le32_at self.entry.bytes.now (self.entry.at + k)) × (result < 2 ^ 32) }
    {
        u32_at(self.bytes, self.at + k)
    }
}

// A file of which the header is there.
#[derive(Clone, Copy, Debug, PartialEq, Eq)]
pub struct Header<'a> {
    pub bytes: &'a [u8],
    pub ghost whole: { 24 ≤ length bytes.now },
}

impl<'a> Header<'a> {
    // The header of a file, where it is there.
    pub fn of(bytes: &'a [u8]) -> Option<Header<'a>>
        ensures whole { IsSome result ↔ (24 ≤ length bytes.now) }
        ensures same_bytes { IfSome result (λ header. header.bytes.now ≡ bytes.now) }
    {
        if bytes.len() < 24 {
            return None;
        }
        Some(Header { bytes })
    }

    #[tactic(auto, unfolding(crate::specs::Fields::frame_width))]
    pub fn frame_width(self) -> u32
        ensures { result ≡ frame_width self.entry.bytes.now }
    {
        u16_at(self.bytes, 2) as u32
    }

    #[tactic(auto, unfolding(crate::specs::Fields::frame_height))]
    pub fn frame_height(self) -> u32
        ensures { result ≡ frame_height self.entry.bytes.now }
    {
        u16_at(self.bytes, 4) as u32
    }

    #[tactic(auto, unfolding(crate::specs::Fields::paper))]
    pub fn paper(self) -> u8
        ensures { result ≡ paper self.entry.bytes.now }
    {
        self.bytes[6]
    }

    #[tactic(auto, unfolding(crate::specs::Fields::font_count))]
    pub fn font_count(self) -> u32
        ensures { result ≡ font_count self.entry.bytes.now }
    {
        u8_at(self.bytes, 7)
    }

    #[tactic(auto, unfolding(crate::specs::Fields::item_count))]
    pub fn item_count(self) -> u32
        ensures { result ≡ item_count self.entry.bytes.now }
    {
        u16_at(self.bytes, 8) as u32
    }

    // Where the record of item `n` stands.
    pub fn item_offset(self, n: u32) -> usize
        ensures { result ≡ item_at self.entry.bytes.now n }
    {
        let first = font_offset(self.font_count());
        first + 28 * n as usize
    }
    // The record of font `n`.
    pub fn font(self, n: u32) -> Record<'a>
        requires { font_at n + 28 ≤ length self.bytes.now }
        ensures same_bytes { result.bytes.now ≡ self.entry.bytes.now }
        ensures place { result.at ≡ font_at n }
    {
        Record {
            bytes: self.bytes,
            at: font_offset(n),
        }
    }

    // The record of item `n`.
    pub fn item(self, n: u32) -> Record<'a>
        requires { item_at self.bytes.now n + 28 ≤ length self.bytes.now }
        ensures same_bytes { result.bytes.now ≡ self.entry.bytes.now }
        ensures place { result.at ≡ item_at self.entry.bytes.now n }
    {
        Record {
            bytes: self.bytes,
            at: self.item_offset(n),
        }
    }
}
