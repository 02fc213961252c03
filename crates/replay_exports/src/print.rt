// A call as a line.
use std::io;

// What lent words hold before a call.
pub const MARK: u64 = 7;

fn put(rt: &impl Print, text: &[u8]) -> io::Result<()> {
    rt.write_all(text)
}

// The call's name and the number that it returned.
fn returned(rt: &impl Print, name: &[u8], number: u64) -> io::Result<()> {
    put(rt, name)?;
    put(rt, b" ")?;
    replay::decimal(rt, number)?;
    put(rt, b":")
}

// A number behind a blank.
fn number(rt: &impl Print, n: u64) -> io::Result<()> {
    put(rt, b" ")?;
    replay::decimal(rt, n)
}

fn numbers(rt: &impl Print, ws: &[u64]) -> io::Result<()> {
    for w in ws {
        number(rt, *w)?;
    }
    Ok(())
}

// A call, and its words in decimal.
pub fn line(rt: &impl Print, name: &[u8], number: u64, ws: &[u64]) -> io::Result<()> {
    returned(rt, name, number)?;
    numbers(rt, ws)?;
    put(rt, b"\n")
}

// Packed words behind some text.
fn packed(rt: &impl Print, text: &[u8], ws: &[u64]) -> io::Result<()> {
    put(rt, text)?;
    replay::words(rt, ws)?;
    put(rt, b"\n")
}

// A call, and its words as a string's or a set's are printed.
pub fn packed_line(rt: &impl Print, name: &[u8], number: u64, ws: &[u64]) -> io::Result<()> {
    returned(rt, name, number)?;
    packed(rt, b" ", ws)
}

// Words that a call was lent besides, on a line of their own.
pub fn more(rt: &impl Print, ws: &[u64]) -> io::Result<()> {
    packed(rt, b"  ", ws)
}

// Bytes that a call was lent, on a line of their own.
pub fn bytes(rt: &impl Print, bs: &[u8]) -> io::Result<()> {
    put(rt, b" ")?;
    for b in bs {
        number(rt, u64::from(*b))?;
    }
    put(rt, b"\n")
}
