// The listing of one input: k, c and a table from standard input, FIRST and FOLLOW as lines of text.
#![tactic(auto)]

use std::io;
use std::io::Write;
use streams::{Out, read_full};

// It reads no more than 16,384 bytes, which no accepted input passes.
fn main(rt: HostRuntime) -> io::Result<()> {
    let mut input = [0u8; 16384];
    let n = read_full(&mut rt.reader(), &mut input)?;
    let mut out = Out::new(&rt);
    lines::put_listing(&mut out, &input[..n])?;
    out.flush()
}
