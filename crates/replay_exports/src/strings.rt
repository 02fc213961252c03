// Packed strings. Each function lends n words of three, or of twelve for a string unpacked.
ghost use Rattle.std.specs.Prelude.{◌≤◌};

use crate::print::{MARK, line, packed_line};
use exports::strings::{
    jomankitu_complete, jomankitu_cut, jomankitu_end, jomankitu_eps, jomankitu_join,
    jomankitu_make, jomankitu_order, jomankitu_push, jomankitu_unpack, jomankitu_width,
};
use std::io;

// The high words of strings of one and of two slots at width 4.
const ONE: u64 = 0x4100_0000_0000_0000;

const TWO: u64 = 0x4200_0000_0000_0000;

// Makes a call with n of three words lent, and prints its number and its words.
fn numbers<F: FnOnce(&mut [u64]) -> u64>(
    rt: &impl Print,
    name: &[u8],
    n: usize,
    call: F,
) -> io::Result<()>
    requires callable { F.IsAlwaysCallable call }
    requires few { n ≤ 3 }
{
    let mut out = [MARK; 3];
    let r = call(&mut out[..n]);
    line(rt, name, r, &out)
}

// The same, where the words are a string.
fn string<F: FnOnce(&mut [u64]) -> u64>(
    rt: &impl Print,
    name: &[u8],
    n: usize,
    call: F,
) -> io::Result<()>
    requires callable { F.IsAlwaysCallable call }
    requires few { n ≤ 3 }
{
    let mut out = [MARK; 3];
    let r = call(&mut out[..n]);
    packed_line(rt, name, r, &out)
}

fn unpack(rt: &impl Print, lo: u64, hi: u64, n: usize) -> io::Result<()>
    requires { n ≤ 12 }
{
    let mut out = [MARK; 12];
    let r = jomankitu_unpack(lo, hi, &mut out[..n]);
    line(rt, b"unpack", r, &out)
}

// With words enough, with too few, and refused by 14.
fn by_m(rt: &impl Print) -> io::Result<()> {
    numbers(rt, b"width", 3, |out| jomankitu_width(7, out))?;
    numbers(rt, b"width", 3, |out| jomankitu_width(4095, out))?;
    numbers(rt, b"width", 0, |out| jomankitu_width(4095, out))?;
    string(rt, b"eps", 3, |out| jomankitu_eps(7, out))?;
    string(rt, b"eps", 1, |out| jomankitu_eps(7, out))?;
    string(rt, b"end", 3, |out| jomankitu_end(7, out))?;
    string(rt, b"end", 3, |out| jomankitu_end(4095, out))
}

// The first three of a list; no list at all; 1 before 10 and 10 before 14.
fn by_list(rt: &impl Print) -> io::Result<()> {
    let list = [6u16, 7, 8];
    string(rt, b"make", 3, |out| jomankitu_make(&list, 3, 8, out))?;
    string(rt, b"make", 3, |out| jomankitu_make(&list[0..0], 3, 8, out))?;
    string(rt, b"make", 0, |out| jomankitu_make(&list, 11, 8, out))?;
    string(rt, b"make", 1, |out| jomankitu_make(&list, 3, 7, out))?;
    string(rt, b"make", 2, |out| jomankitu_make(&list, 3, 7, out))
}

// A string with a slot more, cut, and joined; ε takes none; 13 where the words are no string, 1 and 10 before it.
fn by_words(rt: &impl Print) -> io::Result<()> {
    string(rt, b"push", 3, |out| jomankitu_push(5, ONE, 6, out))?;
    string(rt, b"push", 3, |out| jomankitu_push(15, ONE, 6, out))?;
    string(rt, b"cut", 3, |out| jomankitu_cut(101, TWO, 1, out))?;
    string(rt, b"cut", 3, |out| jomankitu_cut(1, 0, 1, out))?;
    string(rt, b"cut", 1, |out| jomankitu_cut(1, 0, 1, out))?;
    string(rt, b"cut", 1, |out| jomankitu_cut(1, 0, 11, out))?;
    string(rt, b"join", 3, |out| jomankitu_join(5, ONE, 6, ONE, 2, out))
}

// Complete or not, less or greater, and the slots, of which ε has 65,535.
fn by_tests(rt: &impl Print) -> io::Result<()> {
    numbers(
        rt,
        b"complete",
        3,
        |out| jomankitu_complete(101, TWO, 2, out),
    )?;
    numbers(
        rt,
        b"complete",
        3,
        |out| jomankitu_complete(101, TWO, 3, out),
    )?;
    numbers(
        rt,
        b"complete",
        0,
        |out| jomankitu_complete(101, TWO, 11, out),
    )?;
    numbers(
        rt,
        b"order",
        3,
        |out| jomankitu_order(15, ONE, 101, TWO, out),
    )?;
    numbers(rt, b"order", 3, |out| jomankitu_order(15, ONE, 0, ONE, out))?;
    unpack(rt, 101, TWO, 12)?;
    unpack(rt, 15, ONE, 12)?;
    unpack(rt, 1, 0, 11)?;
    unpack(rt, 1, 0, 10)
}

pub fn run(rt: &impl Print) -> io::Result<()> {
    by_m(rt)?;
    by_list(rt)?;
    by_words(rt)?;
    by_tests(rt)
}
