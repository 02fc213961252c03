// Runs stored cases of `needed_k`, a case a line: the limit and c, then the bytes of the table. Prints for each nonterminal its k, or r and its refusal,
// or the refusal of the whole call. Both buffers are full of marks before a call, so that words left as they came are seen.
#![tactic(auto)]

use lookahead::{Needed, Refusal, needed_k};
use replay::{decimal, each, refused, told};
use replay_tables::{MARK, narrowed, read_case, wiped};
use std::io;

// What is told of one nonterminal, behind a blank if it is not the first.
fn told_one(rt: &impl Print, i: usize, answer: Result<u64, Refusal>) -> io::Result<()> {
    if 0 < i {
        rt.write_all(b" ")?;
    }
    match answer {
        Ok(k) => decimal(rt, k),
        Err(e) => {
            rt.write_all(b"r")?;
            decimal(rt, u64::from(e))
        }
    }
}

fn told_each(rt: &impl Print, n: u64, answers: &[Result<u64, Refusal>; 128]) -> io::Result<()> {
    for (i, answer) in answers.iter().enumerate() {
        if n <= i as u64 {
            break;
        }
        told_one(rt, i, *answer)?;
    }
    Ok(())
}

fn told_answer(rt: &impl Print, a: Result<Needed, Refusal>) -> io::Result<()> {
    match a {
        Ok(a) => {
            let answers = a.answers;
            told_each(rt, a.n, &answers)?;
            told(rt, b"")
        }
        Err(e) => refused(rt, u64::from(e)),
    }
}

// A refusal of the whole call leaves every word as it came; else there are zeros before the marks.
fn answer(rt: &impl Print, limit: u64, c: u64, table: &[u8]) -> io::Result<()> {
    let mut result = [MARK; 16384];
    let mut scratch = [MARK; 16384];
    let a = needed_k(limit, c, table, &mut result, &mut scratch);
    told_answer(rt, a)?;
    let some = a.is_ok();
    if !wiped(&result, some) || !wiped(&scratch, some) {
        told(rt, b"lent words changed")?;
    }
    Ok(())
}

// Runs a case; false where its numbers are none.
fn run_table(rt: &impl Print, limit: u64, c: u64, xs: &[u64]) -> io::Result<bool> {
    let mut table = [0u8; 512];
    let n = narrowed(xs, &mut table);
    if n != xs.len() {
        return Ok(false);
    }
    answer(rt, limit, c, &table[..n])?;
    Ok(true)
}

// Runs the case of a line; false where it is none.
fn run(rt: &impl Print, line: &[u8]) -> io::Result<bool> {
    let mut head = [0u64; 4];
    let mut xs = [0u64; 512];
    let Some(count) = read_case(line, b"needed", 2, &mut head, &mut xs) else {
        return Ok(false);
    };
    run_table(rt, head[0], head[1], &xs[..count])
}

// It reads no more than 65,536 bytes.
fn main(rt: HostRuntime) -> io::Result<()> {
    let mut text = [0u8; 65536];
    let n = streams::read_full(&mut rt.reader(), &mut text)?;
    each(&rt, &text[..n], |line| run(&rt, line))
}
