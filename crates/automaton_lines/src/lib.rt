// The automata of a table as lines, or as a picture for Graphviz: their bytes are read back, state by state. Thin: what is worked out is the library's,
// and proved there; here is text.
#![tactic(auto)]

use crate::form::{Form, State};
use lines::number;
use std::io;
use std::io::Write;

mod called;
mod form;
mod string_walk;

pub use called::{front, put_input};
pub use form::{Lines, Picture};
pub use string_walk::{Reached, Stop, follow_string};

// The state whose bytes begin at a place: its production plus 1 or 0, how many arrows leave it, and these. Tells the place behind them.
fn put_state<F: Form>(
    out: &mut impl Write,
    form: &F,
    s: State,
    bytes: &[u8],
    place: usize,
) -> io::Result<usize> {
    let production = number(bytes, place);
    let count = number(bytes, production.next);
    form.put_begun(out, s, production.value.checked_sub(1))?;
    let mut at = count.next;
    for _ in 0..count.value {
        let terminal = number(bytes, at);
        let target = number(bytes, terminal.next);
        form.put_arrow(out, s, terminal.value, target.value)?;
        at = target.next;
    }
    form.put_ended(out)?;
    Ok(at)
}

// The automaton whose bytes begin at a place: how many states it has, and these. Tells the place behind them.
fn put_automaton<F: Form>(
    out: &mut impl Write,
    form: &F,
    nonterminal: usize,
    bytes: &[u8],
    place: usize,
) -> io::Result<usize> {
    let count = number(bytes, place);
    form.put_open(out, nonterminal)?;
    let mut at = count.next;
    for i in 0..count.value {
        let s = State {
            nonterminal,
            number: i,
        };
        at = put_state(out, form, s, bytes, at)?;
    }
    form.put_close(out)?;
    Ok(at)
}

// The automata of all nonterminals in turn, of which there are at most 128.
pub fn put_automata<F: Form>(out: &mut impl Write, form: &F, bytes: &[u8]) -> io::Result<()> {
    form.put_first(out, bytes)?;
    let mut at = 0;
    for i in 0..128 {
        if bytes.len() <= at {
            break;
        }
        at = put_automaton(out, form, i, bytes, at)?;
    }
    form.put_last(out)
}
