// Stored cases of calls that work in lent bytes and words: numbers become a table's bytes, and what is lent is full of marks before a call, so that it
// shows what the call changed.
#![tactic(auto)]

ghost use Rattle.std.specs.Prelude.{◌≤◌, length, IfSome};
ghost use Rattle.io.specs.Counts.{IsPrefixLen};

use replay::{find, read_column, read_last, told};
use std::io;

pub const MARK: u64 = 0x5555_5555_5555_5555;

pub const MARK_BYTE: u8 = 0x55;

// Where the words that are x end, at the front.
fn front(ws: &[u64], x: u64) -> usize
    ensures { IsPrefixLen result ws.now }
{
    ws.iter().position(|w| *w != x).unwrap_or(ws.len())
}

// Whether the words are zeros and then marks: none of one, or none of the other, where they should not be.
pub fn wiped(ws: &[u64], some: bool) -> bool {
    let n = front(ws, 0);
    if some != (0 < n) {
        return false;
    }
    n + front(&ws[n..], MARK) == ws.len()
}

// Copies numbers into narrower ones, up to the first that does not fit, and answers how many.
pub fn narrowed<T: TryFrom<u64> + Copy>(xs: &[u64], into: &mut [T]) -> usize
where
    <T as TryFrom<u64>>::Error: Drop,
    ensures { result ≤ length into.new }
{
    let most = into.len().min(xs.len());
    for i in 0..most {
        let Ok(x) = T::try_from(xs[i]) else {
            return i;
        };
        into[i] = x;
    }
    most
}

// Reads the case of a word in a line: so many numbers in its first column, and those of its second, the last, of which it tells how many there are.
pub fn read_case(
    line: &[u8],
    word: &[u8],
    n: usize,
    head: &mut [u64],
    xs: &mut [u64],
) -> Option<usize>
    ensures { IfSome result (λ count. IsPrefixLen count xs.new) }
{
    let end = find(line, 0, b' ');
    if &line[..end] != word {
        return None;
    }
    let column = read_column(line, end, head)?;
    if column.count != n {
        return None;
    }
    read_last(line, column.next?, xs)
}

// Whether all bytes from a place on are marks.
fn all_marks(bytes: &[u8], from: usize) -> bool {
    bytes.iter().skip(from).all(|b| *b == MARK_BYTE)
}

// The first bytes of a table as pairs; as many as there are.
pub fn pairs(rt: &impl Print, table: &[u8], count: usize) -> io::Result<()> {
    for b in table.iter().take(count) {
        print!(rt; "{b:02x}")?;
    }
    Ok(())
}

// Every byte behind the table, and on a refusal every byte, is as it came.
pub fn kept(rt: &impl Print, table: &[u8], written: usize) -> io::Result<()> {
    if !all_marks(table, written) {
        told(rt, b"lent bytes changed")?;
    }
    Ok(())
}
