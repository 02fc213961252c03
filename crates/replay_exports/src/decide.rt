// The calls that go on from the sets, on S → 5 5; S → 5 6, which needs 2, at the limit 2 or 1 with room for 2 members in each set: the result needs 4 sets
// of 5 words and the scratch 6. More words are lent of each.
ghost use Rattle.std.specs.Prelude.{◌≤◌};

use crate::print::{MARK, bytes, line, more};
use exports::automata::jomankitu_automata;
use exports::mark::jomankitu_mark;
use exports::needed::jomankitu_needed_k;
use std::io;

fn needed_k(rt: &impl Print, limit: u64, table: &[u8], n: usize) -> io::Result<()>
    requires { n ≤ 258 }
{
    let mut result = [MARK; 42];
    let mut scratch = [MARK; 42];
    let mut answer = [MARK; 258];
    let r = jomankitu_needed_k(
        limit,
        2,
        table,
        &mut result,
        &mut scratch,
        &mut answer[0..n],
    );
    line(rt, b"needed_k", r, &answer)?;
    more(rt, &result)?;
    more(rt, &scratch)
}

// Into 16 bytes or fewer, of which the automaton takes 15.
fn automata(rt: &impl Print, table: &[u8], room: usize) -> io::Result<()>
    requires { room ≤ 16 }
{
    let mut out = [7u8; 16];
    let mut result = [MARK; 42];
    let mut scratch = [MARK; 42];
    let mut answer = [MARK; 2];
    let r = jomankitu_automata(
        2,
        2,
        table,
        &mut out[0..room],
        &mut result,
        &mut scratch,
        &mut answer,
    );
    line(rt, b"automata", r, &answer)?;
    bytes(rt, &out)?;
    more(rt, &result)?;
    more(rt, &scratch)
}

fn mark(rt: &impl Print, table: &[u8], rows: &[u64], n: usize) -> io::Result<()>
    requires { n ≤ 5 }
{
    let mut result = [MARK; 42];
    let mut scratch = [MARK; 42];
    let mut answer = [MARK; 5];
    let r = jomankitu_mark(
        2,
        2,
        table,
        rows,
        &mut result,
        &mut scratch,
        &mut answer[0..n],
    );
    line(rt, b"mark", r, &answer)?;
    more(rt, &result)?;
    more(rt, &scratch)
}

// Both rows, in width 4: accepted; the first alone: a string is missing; one and a half: the second row is bad; too few words for the answer.
fn marks(rt: &impl Print, table: &[u8]) -> io::Result<()> {
    let high: u64 = 4755801206503243776;
    let rows = [0u64, 101, high, 1, 0, 85, high, 0];
    mark(rt, table, &rows, 5)?;
    mark(rt, table, &rows[0..4], 4)?;
    mark(rt, table, &rows[0..6], 4)?;
    mark(rt, table, &rows, 3)
}

pub fn run(rt: &impl Print) -> io::Result<()> {
    let table = [1u8, 2, 0, 2, 0, 2, 11, 11, 0, 2, 11, 13];
    needed_k(rt, 2, &table, 258)?;
    needed_k(rt, 1, &table, 258)?;
    needed_k(rt, 2, &table, 257)?;
    automata(rt, &table, 16)?;
    automata(rt, &table, 14)?;
    marks(rt, &table)
}
