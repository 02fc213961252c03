// A fixed work through the public functions, to measure. Each round makes two sets of strings of one to three slots, a member at a time, joins them at
// k = 4 and unites the result with the first. The input is the number of rounds, of members, and of words (at most 2,049) for the join and for the
// union; the output is a checksum of what every round made.
#![tactic(auto)]

ghost use Rattle.std.specs.Prelude.{◌<◌};

use k_joins::k_concat;
use k_tuple::Terminals;
use k_tuples::union;
use refusals::Refusal;
use replay::told;
use std::io;
use std::num::wrapping_add_u64;

const K: u64 = 4;

// The greatest terminal of strings of width 8.
const GREATEST: u64 = 254;

fn narrow(x: u64) -> u16
    requires { x < 65536 }
{
    x as u16
}

// A string of one to three slots, a different one for most numbers.
fn string(i: u64) -> Result<Terminals, Refusal> {
    let s = i % 1000;
    let ts = [
        narrow(5 + s % 240),
        narrow(5 + s * 7 % 240),
        narrow(5 + s * 13 % 240),
    ];
    if s % 3 == 0 {
        return Terminals::make(&ts[0..1], K, GREATEST);
    }
    if s % 3 == 1 {
        return Terminals::make(&ts[0..2], K, GREATEST);
    }
    Terminals::make(&ts, K, GREATEST)
}

// A set with a string added.
fn with(set: [u64; 129], x: Result<Terminals, Refusal>) -> [u64; 129] {
    let Ok(t) = x else {
        return set;
    };
    let one = [0x0000_0001_0000_0001, t.lo, t.hi];
    let mut sum = [0u64; 129];
    let _ = union(K, &set, &one, &mut sum);
    sum
}

// The set of the strings of a number and the ones after it.
fn set_of(from: u64, members: u64) -> [u64; 129] {
    let mut set = [0u64; 129];
    for i in 0..members {
        let next = with(set, string(wrapping_add_u64(from, i)));
        set = next;
    }
    set
}

fn mixed(sum: u64, word: u64) -> u64 {
    wrapping_add_u64(sum, word) ^ sum >> 7
}

fn digest(words: &[u64]) -> u64 {
    let mut sum = 0;
    for word in words {
        sum = mixed(sum, *word);
    }
    sum
}

fn round(r: u64, members: u64, joined: &mut [u64], sum: &mut [u64]) -> u64 {
    let a = set_of(r, members);
    let b = set_of(wrapping_add_u64(r, 500), members);
    let _ = k_concat(K, &a, &b, joined);
    let _ = union(K, joined, &a, sum);
    digest(sum)
}

fn worked(rounds: u64, members: u64, joined: &mut [u64], sum: &mut [u64]) -> u64 {
    let mut check = 0;
    for r in 0..rounds {
        check = mixed(check, round(r, members, joined, sum));
    }
    check
}

fn run(rt: &impl Print, text: &[u8]) -> io::Result<bool> {
    let end = replay::find(text, 0, b'\n');
    let mut n = [0u64; 4];
    let Some(column) = replay::read_column(&text[0..end], 0, &mut n) else {
        return Ok(false);
    };
    if column.count != 3 {
        return Ok(false);
    }
    if 2049 < n[2] {
        return Ok(false);
    }
    let size = n[2] as usize;
    let mut joined = [0u64; 2049];
    let mut sum = [0u64; 2049];
    replay::decimal(
        rt,
        worked(n[0], n[1], &mut joined[0..size], &mut sum[0..size]),
    )?;
    told(rt, b"")?;
    Ok(true)
}

fn main(rt: HostRuntime) -> io::Result<()> {
    let mut text = [0u8; 4096];
    let n = streams::read_full(&mut rt.reader(), &mut text)?;
    replay::readable(&rt, run(&rt, &text[..n])?)
}
