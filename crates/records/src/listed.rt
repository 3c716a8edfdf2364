// A font and an item of an accepted sheet, by their numbers. They are two types: one over a marker would need a trait of the count, the fact and the call's code,
// with their laws, to spare one each of `font` and `item` in lib.rt and of `font_code` and `item_code` in `calls`, whose bodies have four lines at most.
ghost use Rattle.sheet.specs.Requires.{FontListed, ItemListed};

use sheet::Sheet;

// A font of an accepted sheet.
#[derive(Clone, Copy, Debug, PartialEq, Eq)]
pub struct FontRecord<'a> {
    pub sheet: Sheet<'a>,
    pub number: u32,
    pub ghost listed: { FontListed sheet.bytes.now number },
}

// An item of an accepted sheet.
#[derive(Clone, Copy, Debug, PartialEq, Eq)]
pub struct ItemRecord<'a> {
    pub sheet: Sheet<'a>,
    pub number: u32,
    pub ghost listed: { ItemListed sheet.bytes.now number },
}
