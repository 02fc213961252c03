// The marking of a text of predictions from standard input: whether it is accepted, or what is wrong and what would be right.
#![tactic(auto)]

use std::io;
use std::io::Write;
use streams::{Out, read_full};

// It reads no more than 65,536 bytes.
fn main(rt: HostRuntime) -> io::Result<()> {
    let mut text = [0u8; 65536];
    let n = read_full(&mut rt.reader(), &mut text)?;
    let mut out = Out::new(&rt);
    mark_lines::put_text_marked(&mut out, &text[..n])?;
    out.flush()
}
