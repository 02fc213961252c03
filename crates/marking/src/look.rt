// A table's rows at one level, each looked up in the set of its production, and marked there.
ghost use Rattle.std.specs.Prelude.{◌≡◌, ◌+◌, ◌*◌, ◌≤◌, ◌<◌, length, replicate};
ghost use Rattle.k_tuple.specs.Wide.{value};
ghost use Rattle.k_tuple.specs.Packed.{number_of};
ghost use Rattle.k_tuples.specs.Words.{IsSet};
ghost use Rattle.blocks.specs.Stores.{Sets};
ghost use Rattle.marking.specs.Lines.{numbers_in, numbers_at, Placed, Stand, level_of, line_at, MarkTaken, LineTaken, Checked};

use crate::bits::{is_marked, set_mark};
use decision::{Layout, Links};
use k_tuple::Terminals;
use k_tuple::parts::same;
use k_tuples::set::{count, index, member, place};

// The place of x in a set, by halving.
fn seek_in(set: &[u64], x: Terminals) -> Option<usize>
    requires { IsSet set.now }
    ensures { Placed (numbers_in set.now) (number_of x) result }
{
    let p = place(set, x);
    if p < count(set) {
        if same(x, member(set, p)) {
            return Some(p);
        }
    }
    None
}

// The place of x in production i's set.
fn seek(res: &[u64], u: Layout, i: usize, x: Terminals) -> Option<usize>
    requires { Sets u.b u.sets res.now × (u.n + i < u.sets) }
    ensures { Placed (numbers_at u res.now i) (number_of x) result }
{
    let b = u.b;
    let at = (u.n + i) * b;
    let end = at + b;
    seek_in(&res[at..end], x)
}

// Marks x in production i's set. Says whether it is there and was not marked.
fn take_mark(u: Layout, res: &[u64], marks: &mut [u64; 8192], i: usize, x: Terminals) -> bool
    requires { (Sets u.b u.sets res.now × (u.b ≤ 2049)) × ((u.n + i < u.sets) × ((i < 512) × (length marks.old ≡ 8192))) }
    ensures { MarkTaken (numbers_at u res.now i) i (number_of x) marks.old marks.new result }
{
    let Some(j) = seek(res, u, i, x) else {
        return false;
    };
    let e = 1024 * i + j;
    if is_marked(marks, e) {
        return false;
    }
    set_mark(marks, e);
    true
}

// The k of nonterminal a, 0 where there is no such nonterminal.
// Kept: no Option. Such a row is of level 0 by the definition `level_of`, where every row is bad.
fn level(ks: &[u64; 128], n: usize, a: u64) -> u64
    requires { n ≤ 128 }
    ensures { result ≡ level_of n ks.now a }
{
    let at = index(a);
    if at < n {
        return ks[at];
    }
    0
}

// Takes the row of nonterminal a, string x and production i, where it is of level k. Says whether it is fine.
fn take_line(
    k: u64,
    u: Layout,
    links: &Links,
    ks: &[u64; 128],
    res: &[u64],
    marks: &mut [u64; 8192],
    a: u64,
    x: Terminals,
    i: u64,
) -> bool
    requires { Stand u links.now ks.now res.now × (length marks.old ≡ 8192) }
    ensures { LineTaken u links.now ks.now res.now k (record { nonterminal = a; number = number_of x; production = i }) marks.old marks.new result }
{
    if level(ks, u.n, a) != k {
        return true;
    }
    let own = index(i);
    if u.p <= own {
        return false;
    }
    if links.left[own] != index(a) {
        return false;
    }
    take_mark(u, res, marks, own, x)
}

// Takes row t.
fn take_row(
    k: u64,
    u: Layout,
    links: &Links,
    ks: &[u64; 128],
    res: &[u64],
    marks: &mut [u64; 8192],
    rows: &[u64],
    t: usize,
) -> bool
    requires { (Stand u links.now ks.now res.now × (length marks.old ≡ 8192)) × (4 * t + 4 ≤ length rows.now) }
    ensures { LineTaken u links.now ks.now res.now k (line_at rows.now t) marks.old marks.new result }
{
    let at = 4 * t;
    let a = rows[at];
    let lo = rows[at + 1];
    let hi = rows[at + 2];
    let i = rows[at + 3];
    let x = Terminals { lo, hi };
    take_line(k, u, links, ks, res, marks, a, x, i)
}

// The first bad row of level k among so many, or their number. Where there is none, the rows of this level are marked.
pub fn check_rows(
    k: u64,
    u: Layout,
    links: &Links,
    ks: &[u64; 128],
    res: &[u64],
    marks: &mut [u64; 8192],
    rows: &[u64],
    end: usize,
) -> usize
    requires { (Stand u links.now ks.now res.now × (marks.old ≡ replicate 8192 0)) × (4 * end ≤ length rows.now) }
    ensures { Checked u links.now ks.now res.now k rows.now end marks.new result }
{
    for t in 0..end {
        if !take_row(k, u, links, ks, res, marks, rows, t) {
            return t;
        }
    }
    end
}
