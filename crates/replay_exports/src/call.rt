// The call on S → 5 V; V → 6; V → nothing, at k = 2 with room for 2 members in each set: the result needs 8 sets of 5 words and so does the scratch.
// Two words more are lent of each, and seventeen for the record, or fewer.
ghost use Rattle.std.specs.Prelude.{◌≤◌};

use crate::print::{MARK, line, more};
use exports::{jomankitu_lookahead_sets, jomankitu_set_of};
use std::io;

fn lookahead_sets(
    rt: &impl Print,
    k: u64,
    c: u64,
    table: &[u8],
    room: usize,
    n: usize,
) -> io::Result<()>
    requires { (room ≤ 42) × (n ≤ 17) }
{
    let mut result = [MARK; 42];
    let mut scratch = [MARK; 42];
    let mut answer = [MARK; 17];
    let r = jomankitu_lookahead_sets(
        k,
        c,
        table,
        &mut result[0..room],
        &mut scratch,
        &mut answer[0..n],
    );
    line(rt, b"lookahead_sets", r, &answer)?;
    more(rt, &result)?;
    more(rt, &scratch)
}

// In a result of 42 words.
fn set_of(rt: &impl Print, kind: usize, number: usize, n: usize) -> io::Result<()>
    requires { n ≤ 3 }
{
    let mut out = [MARK; 3];
    let r = jomankitu_set_of(42, kind, number, 2, 3, 1, 2, &mut out[0..n]);
    line(rt, b"set_of", r, &out)
}

// The record and the sets; a room that is too small; words too few for the sets.
fn enough(rt: &impl Print, table: &[u8]) -> io::Result<()> {
    lookahead_sets(rt, 2, 2, table, 42, 17)?;
    lookahead_sets(rt, 2, 1, table, 42, 16)?;
    lookahead_sets(rt, 2, 2, table, 39, 16)?;
    lookahead_sets(rt, 2, 2, table, 0, 16)
}

// Too few words for the record: what comes before 10 is refused first, and 11 is not.
fn too_few(rt: &impl Print, table: &[u8]) -> io::Result<()> {
    lookahead_sets(rt, 11, 2, table, 42, 15)?;
    lookahead_sets(rt, 2, 0, table, 42, 0)?;
    lookahead_sets(rt, 2, 2, &table[0..0], 42, 15)?;
    lookahead_sets(rt, 2, 1, table, 42, 15)?;
    lookahead_sets(rt, 2, 2, table, 42, 15)
}

// The first and the last of each kind, and no such set.
fn parts(rt: &impl Print) -> io::Result<()> {
    set_of(rt, 0, 0, 3)?;
    set_of(rt, 1, 2, 3)?;
    set_of(rt, 2, 1, 3)?;
    set_of(rt, 3, 0, 3)?;
    set_of(rt, 3, 1, 3)?;
    set_of(rt, 0, 0, 1)
}

pub fn run(rt: &impl Print) -> io::Result<()> {
    let table = [2u8, 2, 0, 3, 0, 2, 11, 2, 1, 1, 13, 1, 0];
    enough(rt, &table)?;
    too_few(rt, &table)?;
    parts(rt)
}
