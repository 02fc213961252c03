// The k that each nonterminal of a table needs: the limit, c and the table from standard input, a line of text for each nonterminal.
#![tactic(auto)]

use std::io;
use std::io::Write;
use streams::{Out, read_full};

// It reads no more than 16,384 bytes, which no accepted input passes.
fn main(rt: HostRuntime) -> io::Result<()> {
    let mut input = [0u8; 16384];
    let n = read_full(&mut rt.reader(), &mut input)?;
    let mut out = Out::new(&rt);
    lines::put_needed(&mut out, &input[..n])?;
    out.flush()
}
