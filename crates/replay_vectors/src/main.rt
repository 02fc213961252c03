// Runs stored cases of single operations through the public functions, a case a line, and prints each answer on a line.
#![tactic(auto)]

use replay::each;
use std::io;

mod sets;
mod strings;

// Runs the case of a line, of a string or of sets; false where it is unreadable.
fn run(rt: &impl Print, line: &[u8]) -> io::Result<bool> {
    if strings::run(rt, line)? {
        return Ok(true);
    }
    sets::run(rt, line)
}

// It reads no more than 65,536 bytes.
fn main(rt: HostRuntime) -> io::Result<()> {
    let mut text = [0u8; 65536];
    let n = streams::read_full(&mut rt.reader(), &mut text)?;
    each(&rt, &text[..n], |line| run(&rt, line))
}
