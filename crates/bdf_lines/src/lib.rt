// The lines of a font file in the Glyph Bitmap Distribution Format 2.1: their words and numbers, and a glyph's lines in their usual form.
#![tactic(auto)]

pub mod forms;
pub mod values;
pub mod words;
