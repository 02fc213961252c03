// Sets in lent words: {[5]}, {[5], [6]}, and what is made of them in eight words, of which so many are lent. At 2 all their members are unfinished, which
// the upper half of a count word says; at 1 none is.
ghost use Rattle.std.specs.Prelude.{◌≤◌};

use crate::print::{MARK, line, more, packed_line};
use exports::sets::{
    jomankitu_all_complete, jomankitu_disjoint, jomankitu_intersection, jomankitu_join_sets,
    jomankitu_union,
};
use std::io;

const ONE: u64 = 0x4100_0000_0000_0000;

fn union(rt: &impl Print, k: u64, a: &[u64], b: &[u64], room: usize, n: usize) -> io::Result<()>
    requires { (room ≤ 8) × (n ≤ 2) }
{
    let mut out = [MARK; 8];
    let mut told = [MARK; 2];
    let r = jomankitu_union(k, a, b, &mut out[0..room], &mut told[0..n]);
    line(rt, b"union", r, &told)?;
    more(rt, &out)
}

fn intersection(rt: &impl Print, k: u64, a: &[u64], b: &[u64], room: usize) -> io::Result<()>
    requires { room ≤ 8 }
{
    let mut out = [MARK; 8];
    let r = jomankitu_intersection(k, a, b, &mut out[0..room]);
    packed_line(rt, b"intersection", r, &out)
}

fn join_sets(rt: &impl Print, k: u64, a: &[u64], b: &[u64], room: usize) -> io::Result<()>
    requires { room ≤ 8 }
{
    let mut out = [MARK; 8];
    let r = jomankitu_join_sets(k, a, b, &mut out[0..room]);
    packed_line(rt, b"join_sets", r, &out)
}

fn disjoint(rt: &impl Print, k: u64, a: &[u64], b: &[u64], n: usize) -> io::Result<()>
    requires { n ≤ 2 }
{
    let mut out = [MARK; 2];
    let r = jomankitu_disjoint(k, a, b, &mut out[0..n]);
    line(rt, b"disjoint", r, &out)
}

fn all_complete(rt: &impl Print, k: u64, a: &[u64], n: usize) -> io::Result<()>
    requires { n ≤ 2 }
{
    let mut out = [MARK; 2];
    let r = jomankitu_all_complete(k, a, &mut out[0..n]);
    line(rt, b"all_complete", r, &out)
}

// The union adds, or not; without room; with no word to tell it in, where 1 comes before 10.
fn unions(rt: &impl Print, a: &[u64], b: &[u64]) -> io::Result<()> {
    union(rt, 2, a, b, 7, 2)?;
    union(rt, 2, b, a, 7, 2)?;
    union(rt, 2, a, b, 4, 2)?;
    union(rt, 2, a, b, 7, 0)?;
    union(rt, 11, a, b, 7, 0)
}

// Into words enough, none, and at no k.
fn others(rt: &impl Print, a: &[u64], b: &[u64]) -> io::Result<()> {
    intersection(rt, 2, a, b, 7)?;
    intersection(rt, 2, a, b, 0)?;
    join_sets(rt, 2, a, b, 7)?;
    join_sets(rt, 0, a, b, 7)
}

fn tests(rt: &impl Print, a: &[u64], b: &[u64]) -> io::Result<()> {
    let at_one = [2, 5, ONE, 6, ONE];
    disjoint(rt, 2, a, b, 2)?;
    disjoint(rt, 0, a, b, 0)?;
    all_complete(rt, 1, &at_one, 2)?;
    all_complete(rt, 2, b, 1)?;
    all_complete(rt, 2, b, 0)
}

// Sets that are none: cut short, or of no words.
fn no_sets(rt: &impl Print, a: &[u64], b: &[u64]) -> io::Result<()> {
    let cut = [1, 5];
    union(rt, 2, &cut, b, 7, 2)?;
    union(rt, 2, &cut, b, 7, 0)?;
    disjoint(rt, 2, &cut, a, 2)?;
    all_complete(rt, 2, &cut[0..0], 2)
}

// The numbers of 2 at 1, the first set's or the second's, and a number in a set without members.
fn wrong_numbers(rt: &impl Print, a: &[u64], b: &[u64]) -> io::Result<()> {
    let none = [0];
    let some = [0x0000_0001_0000_0000];
    union(rt, 1, a, &none, 7, 2)?;
    intersection(rt, 1, &none, b, 7)?;
    join_sets(rt, 1, b, &none, 7)?;
    disjoint(rt, 1, &none, a, 2)?;
    disjoint(rt, 2, &some, b, 2)?;
    all_complete(rt, 1, b, 2)
}

pub fn run(rt: &impl Print) -> io::Result<()> {
    let a = [0x0000_0001_0000_0001, 5, ONE];
    let b = [0x0000_0002_0000_0002, 5, ONE, 6, ONE];
    unions(rt, &a, &b)?;
    others(rt, &a, &b)?;
    tests(rt, &a, &b)?;
    no_sets(rt, &a, &b)?;
    wrong_numbers(rt, &a, &b)
}
