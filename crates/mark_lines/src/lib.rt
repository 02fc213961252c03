// A text of predictions marked, as lines: accepted, or what is wrong, and then what would be right there. Thin: the marking is the library's, and proved
// there; here is text.
#![tactic(auto)]

use crate::right::put_right;
use automaton::automata;
use automaton_lines::front;
use k_tuple::Terminals;
use lines::{Before, Slots, number, read_before, rest};
use mark_rows::{BadLine, read_pairs, read_rows};
use marking::answer::MarkError;
use marking::mark;
use replay::find;
use std::io;
use std::io::Write;

mod right;

// A row as its words have it, of a production or of none.
#[derive(Clone, Copy, Debug, PartialEq, Eq)]
struct Prediction {
    nonterminal: u64,
    string: Terminals,
    production: Option<u64>,
}

// The row with a number; of zeros, where there is none.
fn prediction_at(rows: &[u64], row: u64) -> Prediction {
    let (nonterminal, lo, hi, production) = match rows.chunks_exact(4).nth(row as usize) {
        Some([a, lo, hi, i]) => (*a, *lo, *hi, *i),
        _ => (0, 0, 0, 0),
    };
    Prediction {
        nonterminal,
        string: Terminals { lo, hi },
        production: Some(production),
    }
}

// What would be right where a row is wrong or missing: the automata say it, where there are some.
fn put_behind(
    out: &mut impl Write,
    limit: u64,
    c: u64,
    table: &[u8],
    p: Prediction,
) -> io::Result<()> {
    let mut bytes = [0u8; 65536];
    let mut result = [0u64; 16384];
    let mut scratch = [0u64; 16384];
    match automata(limit, c, table, &mut bytes, &mut result, &mut scratch) {
        Ok(n) => put_right(out, front(&bytes, n), p),
        Err(_) => Ok(()),
    }
}

// The answer for rows, lent 16,384 words for each buffer.
fn put_answer(
    out: &mut impl Write,
    limit: u64,
    c: u64,
    table: &[u8],
    rows: &[u64],
) -> io::Result<()> {
    let mut result = [0u64; 16384];
    let mut scratch = [0u64; 16384];
    match mark(limit, c, table, rows, &mut result, &mut scratch) {
        Ok(()) => writeln!(out, "accepted"),
        Err(MarkError::BadRow(row)) => {
            writeln!(out, "refused 24 at row {row}")?;
            put_behind(out, limit, c, table, prediction_at(rows, row))
        }
        Err(
            MarkError::Missing {
                nonterminal,
                string,
            },
        ) => {
            writeln!(out, "refused 25 for {nonterminal}: {}", Slots::of(string))?;
            let p = Prediction {
                nonterminal,
                string,
                production: None,
            };
            put_behind(out, limit, c, table, p)
        }
        Err(MarkError::Refused(e)) => writeln!(out, "{e}"),
    }
}

// The greatest terminal index of a table, whose second number says how many there are: its strings are packed for it.
fn greatest(table: &[u8]) -> u64 {
    let n = number(table, 0);
    let t = number(table, n.next);
    if 4089 < t.value {
        return 4095;
    }
    u64::from(t.value) + 5
}

// The marking of the lines from a place on, behind the first.
fn put_rows(
    out: &mut impl Write,
    text: &[u8],
    from: usize,
    input: &[u8],
    h: Before,
) -> io::Result<()> {
    let table = rest(input, h.next);
    let mut rows = [0u64; 16384];
    match read_rows(text, from, greatest(table), &mut rows) {
        Ok(count) => put_answer(out, h.first, h.second, table, &rows[..count]),
        Err(BadLine(line)) => writeln!(out, "line {line} is no row"),
    }
}

// All lines for a text.
pub fn put_text_marked(out: &mut impl Write, text: &[u8]) -> io::Result<()> {
    let end = find(text, 0, b'\n');
    let mut input = [0u8; 16384];
    let Some(count) = read_pairs(&text[..end], &mut input) else {
        return writeln!(out, "line 1 is no table");
    };
    match read_before(&input[..count]) {
        Ok(h) => put_rows(out, text, end + 1, &input[..count], h),
        Err(e) => writeln!(out, "{e}"),
    }
}
