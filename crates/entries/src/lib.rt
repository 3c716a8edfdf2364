// The entries of a list of edits, read where they stand.
#![tactic(auto)]

ghost use Rattle.std.specs.Prelude.{◌≡◌, ℕ, ◌+◌, ◌≤◌, length, IfSome};
ghost use Rattle.std.specs.Option.{is_some};
ghost use Rattle.std.specs.Iterator.{at_most};
ghost use Rattle.sheet.specs.Fields.{le32_at};
ghost use Rattle.sheet.specs.OfItem.{of_item};
ghost use Rattle.entries.specs.Entries.{signed_of, is_known, is_filled};
ghost use Rattle.entries.specs.Given.{edit_by, GivesEntry};

use sheet::edit::Edit;
pub use sheet::edit::Entry;

// An offset, and no rest: by two `split_first_chunk` a place takes a test of its own that nothing is left behind, where it is one line below.

// The signed number that the four bytes from `at` on store.
fn i32_at(list: &[u8], at: usize) -> i32
    requires { at + 4 ≤ length list.now }
    ensures { result ≡ signed_of (le32_at list.now at) }
{
    i32::from_le_bytes([list[at], list[at + 1], list[at + 2], list[at + 3]])
}

// The edit of a kind with its data: none of an unknown kind, nor a place whose data are not 8 bytes.
#[tactic(auto, using(characters::proofs::Tests::tests), unfolding(crate::specs::Given::edit_by, crate::specs::Entries::is_known))]
fn edit_of(kind: u8, bytes: &[u8]) -> Option<Edit<'_>>
    ensures known { is_some result ≡ is_known kind (length bytes.now) }
    ensures value { IfSome result (λ edit. (item : ℕ) → of_item item edit ≡ edit_by kind item bytes.now) }
{
    match kind {
        0 => Some(Edit::Text(bytes)),
        1 if bytes.len() == 8 => Some(Edit::Place(i32_at(bytes, 0), i32_at(bytes, 4))),
        2 => Some(Edit::Style(bytes)),
        _ => None,
    }
}

// The entries of a list that are left, up to its end or to bytes that are no entry.
#[derive(Clone, Copy, Debug, PartialEq, Eq)]
pub struct Entries<'a> {
    rest: &'a [u8],
}

impl<'a> Entries<'a> {
    // The entries of a list.
    pub fn of(list: &'a [u8]) -> Entries<'a>
        ensures { result.rest.now ≡ list.now }
    {
        Entries { rest: list }
    }
}

impl<'a> Iterator for Entries<'a> {
    type Item = Entry<'a>;

    ghost next_gives = { GivesEntry };

    ghost remaining = { λ entries. at_most (length entries.rest.now) };

    fn next(&mut self) -> Option<Entry<'a>> {
        let ([kind, item, low, high], behind) = self.rest.split_first_chunk::<4>()?;
        let size = u16::from_le_bytes([*low, *high]);
        let (data, rest) = behind.split_at_checked(usize::from(size))?;
        let edit = edit_of(*kind, data)?;
        self.rest = rest;
        Some(Entry {
            item: u32::from(*item),
            edit,
        })
    }
}

// Whether entries fill the list.
pub fn is_filled(list: &[u8]) -> bool
    ensures { result ≡ is_filled list.now }
{
    let mut entries = Entries::of(list);
    // A `for` over `&mut entries` does not prove: what is left behind it is not told.
    while let Some(_) = entries.next() {}
    entries.rest.is_empty()
}
