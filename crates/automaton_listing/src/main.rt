// The automata of a table, by which a reader decides: the limit, c and the table from standard input, the bytes and then a line for each state.
#![tactic(auto)]

use automaton_lines::{Lines, put_input};
use std::io;
use std::io::Write;
use streams::{Out, read_full};

// It reads no more than 16,384 bytes, which no accepted input passes.
fn main(rt: HostRuntime) -> io::Result<()> {
    let mut input = [0u8; 16384];
    let n = read_full(&mut rt.reader(), &mut input)?;
    let mut out = Out::new(&rt);
    put_input(&mut out, &Lines, &input[..n])?;
    out.flush()
}
