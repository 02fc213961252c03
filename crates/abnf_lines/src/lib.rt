// A text of rules as lines: its table and what the table's numbers stand for, or its refusal and where in the text that is. Thin: the table and the
// parts of the text are the library's, and proved there; here is text.
#![tactic(auto)]

use crate::numbers::put_numbers;
use crate::place::put_place;
use lines::put_pairs;
use lookahead::read_abnf;
use std::io;
use std::io::Write;

mod numbers;
mod place;

// All lines of a text. Every table of a text's rules has room in 16,384 bytes.
pub fn put_rules(out: &mut impl Write, text: &[u8]) -> io::Result<()> {
    let mut bytes = [0u8; 16384];
    match read_abnf(text, &mut bytes) {
        Ok(n) => {
            let table = bytes.get(..n).unwrap_or(&[]);
            put_pairs(out, table)?;
            put_numbers(out, text, table)
        }
        Err(e) => {
            writeln!(out, "{e}")?;
            put_place(out, text, e)
        }
    }
}
