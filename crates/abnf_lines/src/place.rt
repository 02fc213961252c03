// Where in a text a refusal is: its line and column, counted from 1, and the text around it with a mark below the place.
ghost use Rattle.std.specs.Prelude.{◌≤◌};

use abnf_tables::refused::Refused;
use lookahead::Refusal;
use std::io;
use std::io::Write;

// A line's number, and the place of its first byte.
#[derive(Clone, Copy, Debug, PartialEq, Eq)]
struct Spot {
    line: usize,
    start: usize,
}

// The line in which a place is.
fn spot_of(text: &[u8], place: u16) -> Spot
    ensures { result.start ≤ place }
{
    let mut line: usize = 1;
    let mut start: usize = 0;
    for i in 0..usize::from(place) {
        if text.get(i) == Some(&b'\n') {
            line += 1;
            start = i + 1;
        }
    }
    Spot { line, start }
}

// A byte that has no shape of its own is shown as a blank, or as a question mark.
fn shown(b: u8) -> u8 {
    match b {
        b'\t' => b' ',
        b' '..=b'~' => b,
        _ => b'?',
    }
}

// The bytes of a line from a place on, at most so many.
fn put_around(out: &mut impl Write, text: &[u8], from: usize, most: usize) -> io::Result<()> {
    for b in text.iter().skip(from).take(most) {
        if matches!(*b, 0 | b'\r' | b'\n') {
            break;
        }
        out.write_all(&[shown(*b)])?;
    }
    writeln!(out)
}

// The lines of a refusal's place: up to 40 bytes before it and 40 from it on, and a mark below it. `LentTooFew` is at no place.
pub fn put_place(out: &mut impl Write, text: &[u8], e: Refused) -> io::Result<()> {
    if e.refusal == Refusal::LentTooFew {
        return Ok(());
    }
    let spot = spot_of(text, e.place);
    let place = usize::from(e.place);
    let behind = place - spot.start;
    let before = behind.min(40);
    writeln!(out, "line {} column {}", spot.line, behind + 1)?;
    put_around(out, text, place - before, before + 40)?;
    for _ in 0..before {
        write!(out, " ")?;
    }
    writeln!(out, "^")
}
