// Runs stored inputs through the same code as `listing`, and prints each as a line `case` with its name and its listing behind it.
// An input stands behind a line of nine bytes: a name of three, a blank, its length in four hexadecimal digits, the line's end.
#![tactic(auto)]

use replay::{read_last, told};
use std::io;
use std::io::{Read, Write};
use streams::{Out, read_full};

// The length that a line names, if it does. It is read as a column, the last of the line.
fn size(line: &[u8]) -> Option<usize> {
    let mut n = [0u64; 2];
    if read_last(line, 3, &mut n)? != 1 {
        return None;
    }
    Some(n[0] as usize)
}

// The listing of an input, behind its name.
fn list(rt: &impl Print, name: &[u8], text: &[u8]) -> io::Result<()> {
    let mut out = Out::new(rt);
    out.write_all(b"case ")?;
    out.write_all(name)?;
    writeln!(out)?;
    lines::put_listing(&mut out, text)?;
    out.flush()
}

// Reads so many bytes and lists them; false where they are not there.
fn run(
    rt: &impl Print,
    input: &mut impl Read,
    name: &[u8],
    n: usize,
    text: &mut [u8],
) -> io::Result<bool> {
    if text.len() < n {
        return Ok(false);
    }
    if read_full(input, &mut text[..n])? < n {
        return Ok(false);
    }
    list(rt, name, &text[..n])?;
    Ok(true)
}

// The next case; false where there is none, or it is unreadable.
fn next(rt: &impl Print, input: &mut impl Read, text: &mut [u8]) -> io::Result<bool> {
    let mut line = [0u8; 9];
    if read_full(input, &mut line)? == 0 {
        return Ok(false);
    }
    if let Some(n) = size(&line[..8]) {
        if run(rt, input, &line[..3], n, text)? {
            return Ok(true);
        }
    }
    told(rt, b"unreadable")?;
    Ok(false)
}

// At most a thousand cases.
fn main(rt: HostRuntime) -> io::Result<()> {
    let mut text = [0u8; 16384];
    let mut input = rt.reader();
    for _ in 0..1000 {
        if !next(&rt, &mut input, &mut text)? {
            break;
        }
    }
    Ok(())
}
