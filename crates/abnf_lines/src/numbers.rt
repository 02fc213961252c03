// What the numbers of a text's table stand for: a line for each nonterminal, its name or the place of its "[", and for each terminal, its literal.
use cfg::table::read_number;
use lookahead::{TextPart, nonterminal_part, terminal_part};
use std::io;
use std::io::Write;

// A part of a text; none, past the end.
fn cut(text: &[u8], part: TextPart) -> &[u8] {
    text.get(part.start..part.end).unwrap_or(&[])
}

// A nonterminal: its name as it stands; of a group, "[" with its place.
fn put_nonterminal(out: &mut impl Write, text: &[u8], number: u16) -> io::Result<()> {
    write!(out, "nonterminal {number} ")?;
    if let Some(part) = nonterminal_part(text, number) {
        let name = cut(text, part);
        out.write_all(name)?;
        if name == b"[".as_slice() {
            write!(out, " at {}", part.start)?;
        }
    }
    writeln!(out)
}

// A terminal: its literal, in quotes.
fn put_terminal(out: &mut impl Write, text: &[u8], number: u16) -> io::Result<()> {
    write!(out, "terminal {number} \"")?;
    if let Some(part) = terminal_part(text, number) {
        out.write_all(cut(text, part))?;
    }
    writeln!(out, "\"")
}

// The lines of all numbers of a text's table, which begins with how many nonterminals and terminals there are, at most 4,089. Terminals begin at 5.
pub fn put_numbers(out: &mut impl Write, text: &[u8], table: &[u8]) -> io::Result<()> {
    let Ok(n) = read_number(table, 0) else {
        return Ok(());
    };
    let Ok(t) = read_number(table, n.next) else {
        return Ok(());
    };
    for i in 0..n.value {
        put_nonterminal(out, text, i)?;
    }
    if t.value <= 4089 {
        for i in 5..t.value + 5 {
            put_terminal(out, text, i)?;
        }
    }
    Ok(())
}
