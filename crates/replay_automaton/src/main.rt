// Runs stored cases of `automata`, a case a line: the limit, c and how many bytes are lent, then the bytes of the table. Prints the automata as hexadecimal
// pairs, or the refusal. All that is lent is full of marks before a call, so that what is left as it came is seen.
#![tactic(auto)]

use automaton::automata;
use refusals::Refusal;
use replay::{each, refused, told};
use replay_tables::{MARK, MARK_BYTE, kept, narrowed, pairs, read_case, wiped};
use std::io;

// The bytes that were written, and that those behind them are as they came; or the refusal, and that all are.
fn told_answer(rt: &impl Print, answer: Result<usize, Refusal>, out: &[u8]) -> io::Result<()> {
    match answer {
        Ok(count) => {
            pairs(rt, out, count)?;
            told(rt, b"")?;
            kept(rt, out, count)
        }
        Err(e) => {
            refused(rt, u64::from(e))?;
            kept(rt, out, 0)
        }
    }
}

// A refusal by 1 to 9 leaves every word as it came, and 10 for too few bytes does not; else there are zeros before the marks.
fn told_words(rt: &impl Print, answer: Result<usize, Refusal>, words: &[u64]) -> io::Result<()> {
    let some = match answer {
        Ok(_) => true,
        Err(e) => 9 < u64::from(e),
    };
    if !wiped(words, some) {
        told(rt, b"lent words changed")?;
    }
    Ok(())
}

// Runs a case with so many of the bytes lent; false where there are not as many.
fn answer(
    rt: &impl Print,
    limit: u64,
    c: u64,
    room: usize,
    table: &[u8],
    out: &mut [u8],
) -> io::Result<bool> {
    if out.len() < room {
        return Ok(false);
    }
    let mut result = [MARK; 16384];
    let mut scratch = [MARK; 16384];
    let a = automata(
        limit,
        c,
        table,
        &mut out[0..room],
        &mut result,
        &mut scratch,
    );
    told_answer(rt, a, out)?;
    told_words(rt, a, &result)?;
    told_words(rt, a, &scratch)?;
    Ok(true)
}

// Runs a case; false where its numbers are none.
fn run_table(rt: &impl Print, limit: u64, c: u64, room: u64, xs: &[u64]) -> io::Result<bool> {
    let mut table = [0u8; 512];
    let mut out = [MARK_BYTE; 4096];
    let n = narrowed(xs, &mut table);
    if n != xs.len() {
        return Ok(false);
    }
    answer(rt, limit, c, room as usize, &table[..n], &mut out)
}

// Runs the case of a line; false where it is none.
fn run(rt: &impl Print, line: &[u8]) -> io::Result<bool> {
    let mut head = [0u64; 4];
    let mut xs = [0u64; 512];
    let Some(count) = read_case(line, b"automata", 3, &mut head, &mut xs) else {
        return Ok(false);
    };
    run_table(rt, head[0], head[1], head[2], &xs[..count])
}

// It reads no more than 65,536 bytes.
fn main(rt: HostRuntime) -> io::Result<()> {
    let mut text = [0u8; 65536];
    let n = streams::read_full(&mut rt.reader(), &mut text)?;
    each(&rt, &text[..n], |line| run(&rt, line))
}
