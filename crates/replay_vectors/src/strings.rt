// Stored cases of packed strings: each runs through a public function, and its answer is printed on a line.
use k_tuple::{Terminals, Unpacked};
use refusals::Refusal;
use replay::{find, read_last, refused, told, truth};
use replay_tables::narrowed;
use std::cmp::Ordering;
use std::io;

// Each prints an answer on a line, or its refusal.
fn told_string(rt: &impl Print, a: Result<Terminals, Refusal>) -> io::Result<()> {
    match a {
        Ok(t) => {
            replay::words(rt, &[t.lo, t.hi])?;
            told(rt, b"")
        }
        Err(e) => refused(rt, u64::from(e)),
    }
}

fn told_width(rt: &impl Print, a: Result<u64, Refusal>) -> io::Result<()> {
    match a {
        Ok(w) => {
            replay::decimal(rt, w)?;
            told(rt, b"")
        }
        Err(e) => refused(rt, u64::from(e)),
    }
}

fn told_complete(rt: &impl Print, a: Result<bool, Refusal>) -> io::Result<()> {
    match a {
        Ok(b) => truth(rt, b),
        Err(e) => refused(rt, u64::from(e)),
    }
}

fn told_order(rt: &impl Print, a: Result<Ordering, Refusal>) -> io::Result<()> {
    match a {
        Ok(Ordering::Less) => told(rt, b"-1"),
        Ok(Ordering::Equal) => told(rt, b"0"),
        Ok(Ordering::Greater) => told(rt, b"1"),
        Err(e) => refused(rt, u64::from(e)),
    }
}

fn told_unpacked(rt: &impl Print, a: Result<Unpacked, Refusal>) -> io::Result<()> {
    match a {
        Ok(u) => {
            replay::decimal(rt, u.length)?;
            replay::slots(rt, &u.slots)?;
            told(rt, b"")
        }
        Err(e) => refused(rt, u64::from(e)),
    }
}

// make: k, the greatest terminal, the list.
fn of_list(rt: &impl Print, k: u64, m: u64, list: &[u64]) -> io::Result<bool> {
    let mut ts = [0u16; 64];
    let count = narrowed(list, &mut ts);
    if count != list.len() {
        return Ok(false);
    }
    told_string(rt, Terminals::make(&ts[..count], k, m))?;
    Ok(true)
}

fn string(lo: &u64, hi: &u64) -> Terminals {
    Terminals { lo: *lo, hi: *hi }
}

// Runs the case of a word and its numbers; false where there is no such case.
fn answered(rt: &impl Print, word: &[u8], n: &[u64]) -> io::Result<bool> {
    match (word, n) {
        (b"make", [k, m, list @ ..]) => return of_list(rt, *k, *m, list),
        (b"width", [m]) => told_width(rt, k_tuple::width(*m))?,
        (b"eps", [m]) => told_string(rt, Terminals::eps(*m))?,
        (b"end", [m]) => told_string(rt, Terminals::end(*m))?,
        (b"unpack", [lo, hi]) => told_unpacked(rt, string(lo, hi).unpack())?,
        (b"push", [lo, hi, x]) => told_string(rt, string(lo, hi).push(*x))?,
        (b"complete", [k, lo, hi]) => told_complete(rt, string(lo, hi).is_k_complete(*k))?,
        (b"cut", [k, lo, hi]) => told_string(rt, string(lo, hi).cut(*k))?,
        (b"order", [a, b, c, d]) => told_order(rt, string(a, b).cmp(string(c, d)))?,
        (b"join", [k, a, b, c, d]) => told_string(rt, string(a, b).k_concat(string(c, d), *k))?,
        _ => return Ok(false),
    }
    Ok(true)
}

// Runs the case of a line; false where it is none of these.
pub fn run(rt: &impl Print, line: &[u8]) -> io::Result<bool> {
    let end = find(line, 0, b' ');
    let mut n = [0u64; 64];
    let Some(count) = read_last(line, end, &mut n) else {
        return Ok(false);
    };
    answered(rt, &line[..end], &n[..count])
}
