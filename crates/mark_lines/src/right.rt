// What would be right where a row is wrong or missing, as a line for a person: its string is walked through the automaton of its nonterminal.
use crate::Prediction;
use automaton_lines::{Reached, follow_string};
use lines::{Slots, number};
use std::io;
use std::io::Write;

// How a string that stops too early, or goes astray, would go on: behind the terminals that were taken, those of the arrows that leave.
fn put_onward(
    out: &mut impl Write,
    bytes: &[u8],
    nonterminal: u64,
    taken: &Slots,
    r: Reached,
) -> io::Result<()> {
    write!(out, "right: {nonterminal}: {taken}")?;
    if taken.used == 0 {
        write!(out, "one of")?;
    } else {
        write!(out, " and then one of")?;
    }
    let mut at = r.stop.place;
    for _ in 0..r.stop.arrows {
        let terminal = number(bytes, at);
        let target = number(bytes, terminal.next);
        at = target.next;
        write!(out, " {}", terminal.value)?;
    }
    writeln!(out)
}

// What is right in place of a row, or of none.
pub fn put_right(out: &mut impl Write, bytes: &[u8], p: Prediction) -> io::Result<()> {
    if p.string.unpack().is_err() {
        return writeln!(out, "right: no row with these terminals");
    }
    let string = Slots::of(p.string);
    let r = follow_string(bytes, p.nonterminal, &string);
    let slots = string.slots;
    let taken = Slots {
        slots,
        used: r.taken,
    };
    if r.states < 2 {
        return writeln!(out, "right: no row for this nonterminal");
    }
    let Some(right) = r.stop.production else {
        return put_onward(out, bytes, p.nonterminal, &taken, r);
    };
    if r.taken == string.used && p.production == Some(u64::from(right)) {
        return writeln!(out, "right: this row once");
    }
    writeln!(out, "right: {}: {taken}: {right}", p.nonterminal)
}
