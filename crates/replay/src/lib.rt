// What the programs that replay a stored list share: numbers and parts read from it, its entries, bytes stored, replies in one form, and the edits.
// A list that ends early has zeros for the missing bytes, and shorter parts. So the fixed places of a record are read by their offsets: where they are cut
// off in turn, each place has to say anew what it is in a list that ends before it.
#![tactic(auto)]

ghost use Rattle.std.specs.Prelude.{◌≡◌, true, ◌+◌, ◌*◌, ◌^◌, ◌<◌, ◌≤◌, min, leb, length, get_or, take, drop};
ghost use Rattle.std.specs.Int.{w32, cast_signed};
ghost use Rattle.std.specs.Iterator.{at_most};
ghost use Rattle.std.specs.Option.{is_some};
ghost use Rattle.std.specs.Fn.{FnReturnsAt};
ghost use Rattle.replay.specs.Given.{GivesEntry};
ghost use Rattle.replay.specs.Stored.{stored};

mod edit;
mod reply;

pub use edit::Edit;
pub use reply::Reply;

// The byte at `at`.
pub fn byte_at(bytes: &[u8], at: usize) -> u8
    ensures { result ≡ get_or bytes.now at 0 }
{
    bytes.get(at).copied().unwrap_or(0)
}

// The number that the first two bytes store. Two functions, here and below, since `from_le_bytes` is of no trait that u16 and u32 share.
pub fn u16_of(bytes: &[u8]) -> u16
    ensures { result ≡ get_or bytes.now 0 0 + 256 * get_or bytes.now 1 0 }
{
    u16::from_le_bytes([byte_at(bytes, 0), byte_at(bytes, 1)])
}

// The number that the first four bytes store.
pub fn u32_of(bytes: &[u8]) -> u32
    ensures { result ≡ get_or bytes.now 0 0 + 256 * get_or bytes.now 1 0 + 65536 * get_or bytes.now 2 0 + 16777216 * get_or bytes.now 3 0 }
{
    let first = [
        byte_at(bytes, 0),
        byte_at(bytes, 1),
        byte_at(bytes, 2),
        byte_at(bytes, 3),
    ];
    u32::from_le_bytes(first)
}

// The signed number that the first four bytes store.
pub fn i32_of(bytes: &[u8]) -> i32
    ensures { result ≡ cast_signed w32 (get_or bytes.now 0 0 + 256 * get_or bytes.now 1 0 + 65536 * get_or bytes.now 2 0 + 16777216 * get_or bytes.now 3 0) }
{
    u32_of(bytes).cast_signed()
}

// As many of `size` bytes from `from` on as there are.
pub fn part(bytes: &[u8], from: usize, size: usize) -> &[u8]
    ensures { result.now ≡ take size (drop from bytes.now) }
{
    let behind = rest(bytes, from);
    &behind[..size.min(behind.len())]
}

// The bytes from `at` on.
pub fn rest(bytes: &[u8], at: usize) -> &[u8]
    ensures { result.now ≡ drop at bytes.now }
{
    &bytes[at.min(bytes.len())..]
}

// A length that is stored at `at`, at most that of the longest sheet or frame.
pub fn length_at(bytes: &[u8], at: usize) -> usize
    ensures { result ≤ 65536 }
{
    (u32_of(rest(bytes, at)) as usize).min(65536)
}

// The entries of a list, each from its start to the list's end; one of no size is the last, since it would come again and again.
#[derive(Drop)]
pub struct Entries<'a, F> {
    rest: &'a [u8],
    size: F,
}

impl<'a, F: Fn(&[u8]) -> usize> Entries<'a, F> {
    // The entries of a list, by the size of the one that a part of it starts with.
    pub fn of(list: &'a [u8], size: F) -> Entries<'a, F>
        ensures list { result.rest.now ≡ list.now }
        ensures size { result.size ≡ size }
    {
        Entries { rest: list, size }
    }
}

impl<'a, F: Fn(&[u8]) -> usize> Iterator for Entries<'a, F> {
    type Item = &'a [u8];

    ghost next_gives = { GivesEntry (FnReturnsAt F.Fn) };

    ghost remaining = { λ e. at_most (length e.rest.now) };

    ghost can_next = { λ e. F.IsAlwaysCallable e.size };

    fn next(&mut self) -> Option<&'a [u8]> {
        let entry = self.rest;
        if entry.is_empty() {
            return None;
        }
        let size = (self.size)(entry);
        self.rest = if size == 0 { &[] } else { rest(entry, size) };
        Some(entry)
    }
}

// Stores bytes from `at` on; nothing where they do not fit.
pub fn store(to: &mut [u8], at: usize, bytes: &[u8]) -> Option<()>
    ensures value { is_some result ≡ leb (at + length bytes.now) (length to.old) }
    ensures to_after { to.new ≡ stored to.old at bytes.now }
{
    if at > to.len() || bytes.len() > to.len() - at {
        return None;
    }
    let end = at + bytes.len();
    to[at..end].copy_from_slice(bytes);
    Some(())
}
