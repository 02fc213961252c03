// Stored cases of sets: each runs through a public function, and its answer is printed, with the words of the output where there is one.
// The output lent to a call is full of marks before it, so that words left as they came are seen.
ghost use Rattle.std.specs.Prelude.{IfSome};
ghost use Rattle.io.specs.Counts.{IsPrefixLen};

use k_joins::k_concat;
use k_tuples::set::Grown;
use k_tuples::{intersection, is_disjoint, is_k_complete, union};
use refusals::Refusal;
use replay::{find, read_column, read_last, told, truth, words};
use std::io;

const MARK: u64 = 0x5555_5555_5555_5555;

fn all_are(ws: &[u64], x: u64) -> bool {
    ws.iter().all(|w| *w == x)
}

// A refusal leaves every word as it came, but a set that is too large leaves zeros.
fn kept_promise(e: Refusal, out: &[u64]) -> bool {
    all_are(out, if e == Refusal::SetTooLarge { 0 } else { MARK })
}

fn refused(rt: &impl Print, e: Refusal, out: &[u64]) -> io::Result<()> {
    replay::refused(rt, u64::from(e))?;
    if !kept_promise(e, out) {
        told(rt, b"lent words changed")?;
    }
    Ok(())
}

fn told_union(rt: &impl Print, answer: Result<Grown, Refusal>, out: &[u64]) -> io::Result<()> {
    match answer {
        Ok(Grown::Added) => {
            words(rt, out)?;
            told(rt, b" true")
        }
        Ok(Grown::Same) => {
            words(rt, out)?;
            told(rt, b" false")
        }
        Err(e) => refused(rt, e, out),
    }
}

fn told_set(rt: &impl Print, answer: Result<(), Refusal>, out: &[u64]) -> io::Result<()> {
    match answer {
        Ok(()) => {
            words(rt, out)?;
            told(rt, b"")
        }
        Err(e) => refused(rt, e, out),
    }
}

fn told_test(rt: &impl Print, answer: Result<bool, Refusal>) -> io::Result<()> {
    match answer {
        Ok(b) => truth(rt, b),
        Err(e) => replay::refused(rt, u64::from(e)),
    }
}

// A case of one set; false where there is no such case, here and below.
fn of_one(rt: &impl Print, word: &[u8], k: u64, a: &[u64]) -> io::Result<bool> {
    match word {
        b"complete" => {
            told_test(rt, is_k_complete(k, a))?;
            Ok(true)
        }
        _ => Ok(false),
    }
}

fn of_two(rt: &impl Print, word: &[u8], k: u64, a: &[u64], b: &[u64]) -> io::Result<bool> {
    match word {
        b"disjoint" => {
            told_test(rt, is_disjoint(k, a, b))?;
            Ok(true)
        }
        _ => Ok(false),
    }
}

fn into_output(
    rt: &impl Print,
    word: &[u8],
    k: u64,
    a: &[u64],
    b: &[u64],
    out: &mut [u64],
) -> io::Result<bool> {
    match word {
        b"union" => {
            told_union(rt, union(k, a, b, out), out)?;
            Ok(true)
        }
        b"intersection" => {
            told_set(rt, intersection(k, a, b, out), out)?;
            Ok(true)
        }
        b"join" => {
            told_set(rt, k_concat(k, a, b, out), out)?;
            Ok(true)
        }
        _ => Ok(false),
    }
}

// Runs the case of two sets. The head is k, and the words of the output if there is one.
fn answered(rt: &impl Print, word: &[u8], head: &[u64], a: &[u64], b: &[u64]) -> io::Result<bool> {
    if head.len() == 1 {
        return of_two(rt, word, head[0], a, b);
    }
    if head.len() != 2 || 64 < head[1] {
        return Ok(false);
    }
    let mut out = [MARK; 64];
    let n = head[1] as usize;
    into_output(rt, word, head[0], a, b, &mut out[..n])
}

// The columns of a line: a head and one set, or a head and two sets.
#[derive(Clone, Copy, Debug, PartialEq, Eq)]
struct Columns {
    head: usize,
    first: usize,
    second: Option<usize>,
}

fn read_columns(
    line: &[u8],
    at: usize,
    head: &mut [u64],
    a: &mut [u64],
    b: &mut [u64],
) -> Option<Columns>
    ensures { IfSome result (λ n. IsPrefixLen n.head head.new × IsPrefixLen n.first a.new × IfSome n.second (λ m. IsPrefixLen m b.new)) }
{
    let h = read_column(line, at, head)?;
    let x = read_column(line, h.next?, a)?;
    let second = match x.next {
        Some(next) => Some(read_last(line, next, b)?),
        None => None,
    };
    Some(Columns {
        head: h.count,
        first: x.count,
        second,
    })
}

// Runs the case of a line; false where it is none of these.
pub fn run(rt: &impl Print, line: &[u8]) -> io::Result<bool> {
    let end = find(line, 0, b' ');
    let mut head = [0u64; 4];
    let mut a = [0u64; 64];
    let mut b = [0u64; 64];
    let Some(n) = read_columns(line, end, &mut head, &mut a, &mut b) else {
        return Ok(false);
    };
    let Some(second) = n.second else {
        if n.head != 1 {
            return Ok(false);
        }
        return of_one(rt, &line[..end], head[0], &a[..n.first]);
    };
    answered(
        rt,
        &line[..end],
        &head[..n.head],
        &a[..n.first],
        &b[..second],
    )
}
