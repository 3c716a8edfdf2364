// Stored sheets, read from standard input, through the check: a line of output for each. A write that fails is let pass.
#![tactic(auto)]

ghost use Rattle.std.specs.Prelude.{◌<◌, IfSome, length};
ghost use Rattle.std.specs.Iterator.{at_most};

use reading::read_full;

// What is left of the records of a file: 4 bytes for a length, then a sheet of that length. A record that the file cuts has no sheet, and is the last.
#[derive(Drop)]
struct Records<'a>(&'a [u8]);

impl<'a> Iterator for Records<'a> {
    type Item = Option<&'a [u8]>;

    ghost remaining = { λ records. at_most (length records.0.now) };

    fn next(&mut self) -> Option<Option<&'a [u8]>> {
        if self.0.is_empty() {
            return None;
        }
        let Some((sheet, behind)) = record(self.0) else {
            self.0 = &[];
            return Some(None);
        };
        self.0 = behind;
        Some(Some(sheet))
    }
}

// The sheet of the record that a file starts with, and what follows it, unless the file cuts it.
fn record(file: &[u8]) -> Option<(&[u8], &[u8])>
    ensures { IfSome result (λ p. length p.1.now < length file.now) }
{
    let (size, behind) = file.split_first_chunk::<4>()?;
    behind.split_at_checked(u32::from_le_bytes(*size) as usize)
}

// Writes the sheet's number and what the check says of it.
fn show_check(out: &impl Print, number: usize, sheet: &[u8]) {
    let _ = match sheet::check(sheet) {
        Ok(()) => println!(out; "{number} accepted"),
        Err(refusal) => println!(out; "{number} {refusal}"),
    };
}

// Arrays of a fixed size: no heap, fixed memory.
fn main(rt: HostRuntime) {
    let mut file = [0u8; 65537];
    let n = read_full(&mut rt.stdin(), &mut file);
    for (number, record) in Records(&file[..n]).enumerate() {
        match record {
            Some(sheet) => show_check(&rt, number, sheet),
            None => {
                let _ = println!(rt; "cut");
            }
        }
    }
}
