// The k that each nonterminal of a table needs, as lines of text.
use crate::{read_before, rest};
use lookahead::needed_k;
use std::io;
use std::io::Write;

// The lines of a table: each nonterminal with its k, or its refusal. Lent are 16,384 words for each buffer.
fn put_needs(out: &mut impl Write, limit: u64, c: u64, table: &[u8]) -> io::Result<()> {
    let mut result = [0u64; 16384];
    let mut scratch = [0u64; 16384];
    let needed = match needed_k(limit, c, table, &mut result, &mut scratch) {
        Ok(needed) => needed,
        Err(e) => return writeln!(out, "{e}"),
    };
    for (i, answer) in needed.answers.iter().take(needed.n as usize).enumerate() {
        match answer {
            Ok(k) => writeln!(out, "K {i}: {k}")?,
            Err(e) => writeln!(out, "K {i}: {e}")?,
        }
    }
    Ok(())
}

// The lines of one input: the limit and c as seven-bit numbers, both read before either is tested, and the table.
pub fn put_needed(out: &mut impl Write, input: &[u8]) -> io::Result<()> {
    match read_before(input) {
        Ok(h) => put_needs(out, h.first, h.second, rest(input, h.next)),
        Err(e) => writeln!(out, "{e}"),
    }
}
