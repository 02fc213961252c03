// The table of a text of rules from standard input, and what its numbers stand for.
#![tactic(auto)]

use std::io;
use std::io::Write;
use streams::{Out, read_full};

// It reads no more than 65,536 bytes: a text of more than 32,768 is refused by then.
fn main(rt: HostRuntime) -> io::Result<()> {
    let mut text = [0u8; 65536];
    let n = read_full(&mut rt.reader(), &mut text)?;
    let mut out = Out::new(&rt);
    abnf_lines::put_rules(&mut out, &text[..n])?;
    out.flush()
}
