// What the exported calls answer: their codes and their replies, for a host in C.
#![tactic(auto)]

pub mod batches;
pub mod codes;
pub mod replies;

// A code and a value: yes or no as 1 or 0, or a length.
#[repr(C)]
#[derive(Clone, Copy, Debug, PartialEq, Eq)]
pub struct Number {
    pub code: u32,
    pub value: u32,
}

// A code, the index of a character's glyph, and 1 for a character that is listed, else 0.
#[repr(C)]
#[derive(Clone, Copy, Debug, PartialEq, Eq)]
pub struct Glyph {
    pub code: u32,
    pub index: u32,
    pub listed: u32,
}

// A code and a position on the frame.
#[repr(C)]
#[derive(Clone, Copy, Debug, PartialEq, Eq)]
pub struct Position {
    pub code: u32,
    pub x: i32,
    pub y: i32,
}

// A code, the position after what was drawn, and how many characters are not listed.
#[repr(C)]
#[derive(Clone, Copy, Debug, PartialEq, Eq)]
pub struct Drawn {
    pub code: u32,
    pub x: i32,
    pub y: i32,
    pub replaced: u32,
}

// A code and a rectangle on the frame.
#[repr(C)]
#[derive(Clone, Copy, Debug, PartialEq, Eq)]
pub struct Box {
    pub code: u32,
    pub left: i32,
    pub top: i32,
    pub width: u32,
    pub height: u32,
}

// A code, the number of edits made, and a rectangle on the frame.
#[repr(C)]
#[derive(Clone, Copy, Debug, PartialEq, Eq)]
pub struct Batch {
    pub code: u32,
    pub made: u32,
    pub left: i32,
    pub top: i32,
    pub width: u32,
    pub height: u32,
}

// A code, and of the walker: 1 at the end, else the character, and the offset of the next.
#[repr(C)]
#[derive(Clone, Copy, Debug, PartialEq, Eq)]
pub struct Step {
    pub code: u32,
    pub ended: u32,
    pub character: u32,
    pub next: usize,
}
