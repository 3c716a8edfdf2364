// What the programs share: rectangles, faults and files written, the number of a sheet's pixels, strange frames and checksums.
#![tactic(auto)]

ghost use Rattle.std.specs.Prelude.{◌≡◌, ◌<◌, ◌≤◌, Some, MatchResult};
ghost use Rattle.refusals.specs.Numbers.{number};
ghost use Rattle.characters.specs.Refusal.{unless_refused};
ghost use Rattle.sheet.specs.Check.{check};
ghost use Rattle.drawing.specs.Drawing.{pixel_count};
ghost use Rattle.programs.specs.declared.Fault.TheVariants.{Refused};
ghost use Rattle.programs.specs.Written.{sides, words};

use refusals::Refusal;
use station::{Batch, Box};
use std::fmt;

// A reply's rectangle as the programs write it.
#[derive(Clone, Copy, Debug, PartialEq, Eq)]
pub struct Sides {
    pub left: i32,
    pub top: i32,
    pub width: u32,
    pub height: u32,
}

impl From<Box> for Sides {
    ghost from_gives = { λ r s. (s.left ≡ r.left) × (s.top ≡ r.top) × (s.width ≡ r.width) × (s.height ≡ r.height) };

    fn from(reply: Box) -> Sides {
        Sides {
            left: reply.left,
            top: reply.top,
            width: reply.width,
            height: reply.height,
        }
    }
}

impl From<Batch> for Sides {
    ghost from_gives = { λ r s. (s.left ≡ r.left) × (s.top ≡ r.top) × (s.width ≡ r.width) × (s.height ≡ r.height) };

    fn from(reply: Batch) -> Sides {
        Sides {
            left: reply.left,
            top: reply.top,
            width: reply.width,
            height: reply.height,
        }
    }
}

impl fmt::Display for Sides {
    ghost output = { λ s. Some (sides s) };

    fn fmt<W: fmt::Write>(&self, f: &mut fmt::Formatter<W>) -> fmt::Result {
        let Sides {
            left,
            top,
            width,
            height,
        } = *self;
        write!(f, "{left} {top} {width} {height}")
    }
}

// Why a program writes nothing else; a refusal by its number, as a reply of the C interface has it.
#[derive(Clone, Copy, Debug, PartialEq, Eq)]
pub enum Fault {
    Refused(u32),
    TooShort,
    TooLong,
}

impl fmt::Display for Fault {
    ghost output = { λ fault. Some (words fault) };

    fn fmt<W: fmt::Write>(&self, f: &mut fmt::Formatter<W>) -> fmt::Result {
        match self {
            Fault::Refused(code) => write!(f, "refused {code}"),
            Fault::TooShort => write!(f, "too short"),
            Fault::TooLong => write!(f, "too long"),
        }
    }
}

impl From<Refusal> for Fault {
    ghost from_gives = { λ refusal fault. fault ≡ Refused (number refusal) };

    fn from(refusal: Refusal) -> Fault {
        Fault::Refused(u32::from(refusal))
    }
}

// A reply's code as a result: 0 is none that is refused.
pub fn accepted(code: u32) -> Result<(), Fault>
    ensures { MatchResult result (λ _. code ≡ 0) (λ fault. (fault ≡ Refused code) × (0 < code)) }
{
    match code {
        0 => Ok(()),
        _ => Err(Fault::Refused(code)),
    }
}

// Writes a fault as a line to standard output, and the same to standard error, by which a script can tell; a write that fails is let pass.
pub fn write_fault(rt: &HostRuntime, fault: Fault) {
    let _ = println!(rt; "{fault}");
    let _ = eprintln!(rt; "{fault}");
}

// Writes the first k bytes to standard output; where the write fails or ends early, standard error says that they were not written.
pub fn write_part(rt: &HostRuntime, bytes: &[u8], k: usize, name: &str) {
    let Some(part) = bytes.get(..k) else {
        return;
    };
    if rt.write_all(part).is_err() {
        let _ = eprintln!(rt; "{name} not written");
    }
}

// The number of the page's pixels; 0 for a sheet that is refused, whose canvas is empty.
pub fn pixel_count(sheet: &[u8]) -> usize
    ensures { (result ≡ unless_refused (check sheet.now) (pixel_count sheet.now) 0) × (result ≤ 65_536) }
{
    let Ok(accepted) = sheet::accepted(sheet) else {
        return 0;
    };
    let size = calls::codes::frame_size(accepted);
    size.width as usize * size.height as usize
}

// Fills a frame with greys that change from pixel to pixel, and are the same again after 251. By parts of 251, whose numbers fit 16 bits, so that several
// pixels are made at once: by one loop over the frame `joined_runs` takes 1.28 of its time.
pub fn fill_strange(frame: &mut [u8], shift: usize) {
    let first = (shift % 251) as u16;
    for part in frame.chunks_mut(251) {
        for (i, grey) in part.iter_mut().enumerate() {
            *grey = ((i as u16).wrapping_mul(37).wrapping_add(first) % 251) as u8;
        }
    }
}

// The checksum of bytes behind others, whose checksum is `from`, or 0 for none: each byte makes it 257 times as much, and the byte, and 1, modulo
// 4,294,967,291.
pub fn checksum(from: u64, bytes: &[u8]) -> u64 {
    bytes.iter().fold(from, |sum, byte| {
        ((sum % 4294967291) * 257 + u64::from(*byte) + 1) % 4294967291
    })
}
