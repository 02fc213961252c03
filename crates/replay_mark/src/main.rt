// Runs stored cases of `mark`, a case a line: the limit and c, then the bytes of the table, then four words for each row. Prints what is wrong, or that the
// rows are accepted. Both buffers are full of marks before a call, so that words left as they came are seen.
#![tactic(auto)]

ghost use Rattle.std.specs.Prelude.{IfSome};
ghost use Rattle.io.specs.Counts.{IsPrefixLen};

use k_tuple::{Terminals, Unpacked};
use marking::{MarkError, mark};
use replay::{decimal, each, find, read_column, read_last, refused, slots, told};
use replay_tables::{MARK, narrowed, wiped};
use std::io;

// A bad row, by its number.
fn told_bad(rt: &impl Print, row: u64) -> io::Result<()> {
    rt.write_all(b"refused 24 ")?;
    decimal(rt, row)?;
    told(rt, b"")
}

// The slots of a string that are used; all where they are fewer.
fn used(slots: &[u16], length: u64) -> &[u16] {
    let n = length as usize;
    if slots.len() < n {
        return slots;
    }
    &slots[0..n]
}

// A missing string, by its nonterminal and its slots.
fn told_missing(rt: &impl Print, nonterminal: u64, string: Terminals) -> io::Result<()> {
    let none = Unpacked {
        length: 0,
        slots: [0; 10],
    };
    let u = string.unpack().unwrap_or(none);
    let all = u.slots;
    rt.write_all(b"refused 25 ")?;
    decimal(rt, nonterminal)?;
    rt.write_all(b":")?;
    slots(rt, used(&all, u.length))?;
    told(rt, b"")
}

fn told_answer(rt: &impl Print, m: Result<(), MarkError>) -> io::Result<()> {
    match m {
        Ok(()) => told(rt, b"accepted"),
        Err(MarkError::BadRow(row)) => told_bad(rt, row),
        Err(
            MarkError::Missing {
                nonterminal,
                string,
            },
        ) => told_missing(rt, nonterminal, string),
        Err(MarkError::Refused(e)) => refused(rt, u64::from(e)),
    }
}

// A refusal by 1 to 10 leaves every word as it came; else there are zeros before the marks.
fn told_words(rt: &impl Print, m: Result<(), MarkError>, words: &[u64]) -> io::Result<()> {
    let untouched = match m {
        Err(MarkError::Refused(e)) => u64::from(e) <= 10,
        _ => false,
    };
    if !wiped(words, !untouched) {
        told(rt, b"lent words changed")?;
    }
    Ok(())
}

fn answer(rt: &impl Print, limit: u64, c: u64, table: &[u8], rows: &[u64]) -> io::Result<()> {
    let mut result = [MARK; 16384];
    let mut scratch = [MARK; 16384];
    let m = mark(limit, c, table, rows, &mut result, &mut scratch);
    told_answer(rt, m)?;
    told_words(rt, m, &result)?;
    told_words(rt, m, &scratch)
}

// Runs a case; false where its numbers are none.
fn run_table(rt: &impl Print, limit: u64, c: u64, xs: &[u64], rows: &[u64]) -> io::Result<bool> {
    let mut table = [0u8; 512];
    let n = narrowed(xs, &mut table);
    if n != xs.len() {
        return Ok(false);
    }
    answer(rt, limit, c, &table[..n], rows)?;
    Ok(true)
}

// The numbers of a line's three columns, if it is a case: how many bytes of a table, and words of rows, there are.
fn columns(
    line: &[u8],
    head: &mut [u64],
    xs: &mut [u64],
    rows: &mut [u64],
) -> Option<(usize, usize)>
    ensures { IfSome result (λ n. IsPrefixLen n.0 xs.new × IsPrefixLen n.1 rows.new) }
{
    let end = find(line, 0, b' ');
    if &line[..end] != b"mark".as_slice() {
        return None;
    }
    let h = read_column(line, end, head)?;
    if h.count != 2 {
        return None;
    }
    let x = read_column(line, h.next?, xs)?;
    let words = read_last(line, x.next?, rows)?;
    Some((x.count, words))
}

fn run(rt: &impl Print, line: &[u8]) -> io::Result<bool> {
    let mut head = [0u64; 4];
    let mut xs = [0u64; 512];
    let mut rows = [0u64; 512];
    let Some((count, words)) = columns(line, &mut head, &mut xs, &mut rows) else {
        return Ok(false);
    };
    run_table(rt, head[0], head[1], &xs[..count], &rows[..words])
}

// It reads no more than 65,536 bytes.
fn main(rt: HostRuntime) -> io::Result<()> {
    let mut text = [0u8; 65536];
    let n = streams::read_full(&mut rt.reader(), &mut text)?;
    each(&rt, &text[..n], |line| run(&rt, line))
}
