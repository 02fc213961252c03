// The automata of a table as a picture for Graphviz: the limit, c and the table from standard input, a box for each nonterminal.
#![tactic(auto)]

use automaton_lines::{Picture, put_input};
use std::io;
use std::io::Write;
use streams::{Out, read_full};

// It reads no more than 16,384 bytes, which no accepted input passes.
fn main(rt: HostRuntime) -> io::Result<()> {
    let mut input = [0u8; 16384];
    let n = read_full(&mut rt.reader(), &mut input)?;
    let mut out = Out::new(&rt);
    put_input(&mut out, &Picture, &input[..n])?;
    out.flush()
}
