// The refusals, by name and by number (docs/REFUSALS.md).
#![tactic(auto)]

ghost use Rattle.std.specs.Prelude.{◌≡◌, Some};
ghost use Rattle.refusals.specs.Numbers.{number};
ghost use Rattle.refusals.specs.Printed.{printed};

use std::error::Error;
use std::fmt;

// Why a call is refused.
#[derive(Clone, Copy, Debug, PartialEq, Eq)]
pub enum Refusal {
    Length,
    Edition,
    FrameSize,
    Count,
    Layout,
    Font,
    MappingIllFormed,
    MappingTooLong,
    Item,
    TextIllFormed,
    FrameLength,
    NoSuch,
    NewTextTooLong,
    NewTextIllFormed,
    Place,
    Style,
    OutputTooShort,
    Whitespace,
    BdfLine,
    BdfLimit,
    BdfEncoding,
    List,
}

impl From<Refusal> for u32 {
    ghost from_gives = { λ r n. n ≡ number r };

    fn from(refusal: Refusal) -> u32 {
        match refusal {
            Refusal::Length => 1,
            Refusal::Edition => 2,
            Refusal::FrameSize => 3,
            Refusal::Count => 4,
            Refusal::Layout => 5,
            Refusal::Font => 6,
            Refusal::MappingIllFormed => 7,
            Refusal::MappingTooLong => 8,
            Refusal::Item => 9,
            Refusal::TextIllFormed => 10,
            Refusal::FrameLength => 11,
            Refusal::NoSuch => 12,
            Refusal::NewTextTooLong => 13,
            Refusal::NewTextIllFormed => 14,
            Refusal::Place => 15,
            Refusal::Style => 16,
            Refusal::OutputTooShort => 17,
            Refusal::Whitespace => 18,
            Refusal::BdfLine => 19,
            Refusal::BdfLimit => 20,
            Refusal::BdfEncoding => 21,
            Refusal::List => 22,
        }
    }
}

// The refusal as programs print it.
impl fmt::Display for Refusal {
    ghost output = { λ r. Some (printed r) };

    fn fmt<W: fmt::Write>(&self, f: &mut fmt::Formatter<W>) -> fmt::Result {
        write!(f, "refused {}", u32::from(*self))
    }
}

impl Error for Refusal {}
