// The call for an input: the limit and c as seven-bit numbers, both read before either is tested, and the table. Lent are 16,384 words for each buffer and
// 65,536 bytes for the automata.
use crate::form::Form;
use crate::put_automata;
use automaton::automata;
use lines::{read_before, rest};
use std::io;
use std::io::Write;

// The first bytes of some; none, past the end.
pub fn front(bytes: &[u8], end: usize) -> &[u8] {
    bytes.get(..end).unwrap_or(&[])
}

fn put_called<F: Form>(
    out: &mut impl Write,
    form: &F,
    limit: u64,
    c: u64,
    table: &[u8],
) -> io::Result<()> {
    let mut bytes = [0u8; 65536];
    let mut result = [0u64; 16384];
    let mut scratch = [0u64; 16384];
    match automata(limit, c, table, &mut bytes, &mut result, &mut scratch) {
        Ok(n) => put_automata(out, form, front(&bytes, n)),
        Err(e) => writeln!(out, "{e}"),
    }
}

// The automata of one input in a form, or its refusal.
pub fn put_input<F: Form>(out: &mut impl Write, form: &F, input: &[u8]) -> io::Result<()> {
    match read_before(input) {
        Ok(h) => put_called(out, form, h.first, h.second, rest(input, h.next)),
        Err(e) => writeln!(out, "{e}"),
    }
}
