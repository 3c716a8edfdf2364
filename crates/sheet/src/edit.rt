// An edit of an item.

// A new text, a new x and y, or new style bytes.
#[derive(Clone, Copy, Debug, PartialEq, Eq)]
pub enum Edit<'a> {
    Text(&'a [u8]),
    Place(i32, i32),
    Style(&'a [u8]),
}

// An edit, and the number of its item.
#[derive(Clone, Copy, Debug, PartialEq, Eq)]
pub struct Entry<'a> {
    pub item: u32,
    pub edit: Edit<'a>,
}
