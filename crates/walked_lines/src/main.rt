// Walks each line of standard input with the walker: a line of output for each character (its offset, then its number in hexadecimal),
// then `end` or `10` with the offset where the walk stopped, and how many characters there were. A write that fails is let pass.
#![tactic(auto)]

ghost use Rattle.std.specs.Prelude.{◌≡◌, length};
ghost use Rattle.characters.specs.Utf8.{chars};

use characters::Step;
use characters::walker::Walker;
use reading::read_full;

// Writes what stands at an offset, and ends the line.
fn write_step(out: &impl Print, at: usize, step: Step) {
    let _ = match step {
        Step::Character(character, _) => println!(out; "{at} {character:04x}"),
        Step::IllFormed => println!(out; "{at} 10"),
        Step::End => println!(out; "{at} end"),
    };
}

// Walks a line to its end, or to what is ill-formed, writes each step, and counts the characters: a host's loop over the walker.
fn walk_line(out: &impl Print, line: &[u8]) -> usize
    ensures { result ≡ length (chars line.now) }
{
    let mut w = Walker::new(line, 0);
    let mut n = 0;
    loop {
        let step = w.next();
        write_step(out, w.at, step);
        let Step::Character(_, after) = step else {
            return n;
        };
        n += 1;
        w = w.moved(after);
    }
}

// The lines stand between line feeds: n feeds give n + 1 lines.
// Arrays of a fixed size: no heap, fixed memory.
fn main(rt: HostRuntime) {
    let mut text = [0u8; 4096];
    let n = read_full(&mut rt.stdin(), &mut text);
    for line in text[..n].split(|byte| *byte == b'\n') {
        let _ = println!(rt; "line");
        let count = walk_line(&rt, line);
        let _ = println!(rt; "characters {count}");
    }
}
