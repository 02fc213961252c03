// Runs stored texts of rules through the public reader, and prints the table of each, as hexadecimal pairs, or its refusal. A text stands behind a line
// of ten bytes: the number of bytes that are lent for its table and its length, four hexadecimal digits each.
#![tactic(auto)]

use abnf::grammar::read_abnf;
use abnf_tables::refused::Refused;
use replay::{read_last, told};
use replay_tables::{MARK_BYTE, kept, pairs};
use std::io;
use std::io::Read;
use streams::read_full;

// What the line before a text says.
#[derive(Clone, Copy, Debug, PartialEq, Eq)]
struct Case {
    room: usize,
    length: usize,
}

fn head(line: &[u8]) -> Option<Case> {
    let mut n = [0u64; 3];
    if read_last(line, 0, &mut n)? != 2 {
        return None;
    }
    Some(Case {
        room: n[0] as usize,
        length: n[1] as usize,
    })
}

// The table, or the refusal and its place; and behind it how the other bytes stand.
fn told_answer(rt: &impl Print, a: Result<usize, Refused>, table: &[u8]) -> io::Result<()> {
    let written = match a {
        Ok(n) => {
            pairs(rt, table, n)?;
            n
        }
        Err(e) => {
            print!(rt; "{e}")?;
            0
        }
    };
    told(rt, b"")?;
    kept(rt, table, written)
}

// The answer to a text with so many of some bytes lent; false where they are more than there are.
fn answer(rt: &impl Print, text: &[u8], table: &mut [u8], room: usize) -> io::Result<bool> {
    if table.len() < room {
        return Ok(false);
    }
    let a = read_abnf(text, &mut table[0..room]);
    told_answer(rt, a, table)?;
    Ok(true)
}

fn run(rt: &impl Print, text: &[u8], room: usize) -> io::Result<bool> {
    let mut table = [MARK_BYTE; 4096];
    answer(rt, text, &mut table, room)
}

// Reads the bytes of a text and runs it; false where they are not there.
fn run_text(rt: &impl Print, input: &mut impl Read, h: Case, text: &mut [u8]) -> io::Result<bool> {
    let n = h.length;
    if text.len() < n {
        return Ok(false);
    }
    if read_full(input, &mut text[0..n])? < n {
        return Ok(false);
    }
    run(rt, &text[0..n], h.room)
}

// The next text; false where there is none, or it is unreadable.
fn next(rt: &impl Print, input: &mut impl Read, text: &mut [u8]) -> io::Result<bool> {
    let mut line = [0u8; 10];
    if read_full(input, &mut line)? == 0 {
        return Ok(false);
    }
    let Some(h) = head(&line[0..9]) else {
        told(rt, b"unreadable")?;
        return Ok(false);
    };
    if run_text(rt, input, h, text)? {
        return Ok(true);
    }
    told(rt, b"unreadable")?;
    Ok(false)
}

// At most a thousand texts.
fn each(rt: &impl Print, input: &mut impl Read, text: &mut [u8]) -> io::Result<()> {
    for _ in 0..1000 {
        if !next(rt, input, text)? {
            return Ok(());
        }
    }
    Ok(())
}

fn main(rt: HostRuntime) -> io::Result<()> {
    let mut text = [0u8; 65536];
    each(&rt, &mut rt.reader(), &mut text)
}
