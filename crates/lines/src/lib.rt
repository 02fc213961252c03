// A listing: k, c and a table become FIRST and FOLLOW as lines of text. Thin: what is worked out is the library's, and proved there; here is text.
#![tactic(auto)]

use crate::positions::put_positions;
use crate::sets::{Sizes, put_set};
use cfg::table::read_number;
use lookahead::{Lookahead, Refusal, lookahead_sets};
use std::io;
use std::io::Write;

mod needed;
mod positions;
mod sets;

pub use needed::put_needed;
pub use positions::number;
pub use sets::Slots;

// The digit of half a byte.
fn digit(half: u8) -> u8 {
    b"0123456789abcdef"[usize::from(half % 16)]
}

// Bytes as hexadecimal pairs, and the line's end.
pub fn put_pairs(out: &mut impl Write, bytes: &[u8]) -> io::Result<()> {
    for &b in bytes {
        out.write_all(&[digit(b / 16), digit(b)])?;
    }
    writeln!(out)
}

// The first line: k, the width, the rounds of each level and those of FOLLOW.
fn put_head(out: &mut impl Write, k: u64, a: &Lookahead) -> io::Result<()> {
    write!(out, "k {k} width {} rounds", a.width)?;
    for rounds in a.rounds.iter().take(k as usize) {
        write!(out, " {rounds}")?;
    }
    writeln!(out, " follow {}", a.follow)
}

// The sets of a kind, a line each: the kind's letter, the number, the members.
fn put_kind(
    out: &mut impl Write,
    letter: char,
    kind: usize,
    count: usize,
    res: &[u64],
    s: Sizes,
) -> io::Result<()> {
    for i in 0..count {
        write!(out, "{letter} {i}")?;
        put_set(out, res, kind, i, s)?;
    }
    Ok(())
}

// The lines of all sets.
fn put_sets(
    out: &mut impl Write,
    c: u64,
    table: &[u8],
    res: &[u64],
    a: &Lookahead,
) -> io::Result<()> {
    let s = Sizes {
        n: a.n as usize,
        p: a.p as usize,
        q: a.q as usize,
        c: c as usize,
    };
    put_kind(out, 'N', 0, s.n, res, s)?;
    put_kind(out, 'P', 1, s.p, res, s)?;
    put_kind(out, 'F', 2, s.n, res, s)?;
    put_positions(out, table, res, s)
}

// The listing of a table.
fn put_table(out: &mut impl Write, k: u64, c: u64, table: &[u8]) -> io::Result<()> {
    let mut result = [0u64; 4096];
    let mut scratch = [0u64; 4096];
    match lookahead_sets(k, c, table, &mut result, &mut scratch) {
        Ok(a) => {
            put_head(out, k, &a)?;
            put_sets(out, c, table, &result, &a)
        }
        Err(e) => writeln!(out, "{e}"),
    }
}

// What stands from a place on; nothing, past the end.
pub fn rest(input: &[u8], at: usize) -> &[u8] {
    input.get(at..).unwrap_or(&[])
}

// The two numbers before a table, and where it begins.
#[derive(Clone, Copy, Debug, PartialEq, Eq)]
pub struct Before {
    pub first: u64,
    pub second: u64,
    pub next: usize,
}

// Reads both numbers before either is tested.
pub fn read_before(input: &[u8]) -> Result<Before, Refusal> {
    let first = read_number(input, 0)?;
    let second = read_number(input, first.next)?;
    Ok(Before {
        first: u64::from(first.value),
        second: u64::from(second.value),
        next: second.next,
    })
}

// The listing of one input: k and c as seven-bit numbers, and the table.
pub fn put_listing(out: &mut impl Write, input: &[u8]) -> io::Result<()> {
    match read_before(input) {
        Ok(h) => put_table(out, h.first, h.second, rest(input, h.next)),
        Err(e) => writeln!(out, "{e}"),
    }
}
