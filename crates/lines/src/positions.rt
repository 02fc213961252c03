// The lines of the positions: the table is read once more, for the production and the place of each nonterminal in a right side.
use crate::sets::{Sizes, put_set};
use cfg::table::{Read, read_number};
use std::io;
use std::io::Write;

// The number at a place; where there is none, 0 and the same place.
pub fn number(table: &[u8], place: usize) -> Read<u16> {
    read_number(table, place).unwrap_or(Read {
        value: 0,
        next: place,
    })
}

// The place behind so many numbers.
fn behind(table: &[u8], place: usize, count: usize) -> usize {
    let mut at = place;
    for _ in 0..count {
        at = number(table, at).next;
    }
    at
}

// All positions of a table, each with its production, its place from 1 on, and its set. There are at most 4,096.
pub fn put_positions(out: &mut impl Write, table: &[u8], res: &[u64], s: Sizes) -> io::Result<()> {
    let mut place = behind(table, 0, 4);
    let mut found = 0;
    for production in 0..s.p {
        let length = number(table, behind(table, place, 1));
        place = length.next;
        for j in 0..u32::from(length.value) {
            let symbol = number(table, place);
            place = symbol.next;
            if symbol.value % 2 == 0 && found < 4096 {
                write!(out, "Q {production} {}", j + 1)?;
                put_set(out, res, 3, found, s)?;
                found += 1;
            }
        }
    }
    Ok(())
}
