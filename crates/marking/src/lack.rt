// The first string without a row: of the strings that are not marked, the least of the first nonterminal that has one.
ghost use Rattle.std.specs.Prelude.{◌≡◌, ◌+◌, ◌^◌, ◌≤◌, ◌<◌, length, get_or};
ghost use Rattle.k_tuple.specs.Packed.{number_of};
ghost use Rattle.blocks.specs.Stores.{Sets};
ghost use Rattle.marking.specs.Lines.{numbers_at, Stand, FirstFree, Improved, Least, end_of, Lacked};

use crate::bits::is_marked;
use decision::{Layout, Links};
use k_tuple::Terminals;
use k_tuple::parts::lower;
use k_tuples::set::{count, member};

// The first nonterminal with a string that has no row, and its first such string.
#[derive(Clone, Copy)]
pub struct Missed {
    pub nonterminal: usize,
    pub string: Terminals,
}

// How many strings production i has.
fn size(res: &[u64], u: Layout, i: usize) -> usize
    requires { Sets u.b u.sets res.now × (u.n + i < u.sets) }
    ensures { result ≡ length (numbers_at u res.now i) }
{
    let b = u.b;
    let at = (u.n + i) * b;
    let end = at + b;
    count(&res[at..end])
}

// String j of production i.
fn string_at(res: &[u64], u: Layout, i: usize, j: usize) -> Terminals
    requires { Sets u.b u.sets res.now × ((u.n + i < u.sets) × (j < length (numbers_at u res.now i))) }
    ensures { (number_of result ≡ get_or (numbers_at u res.now i) j 0) × (result.lo < 2 ^ 64) }
{
    let b = u.b;
    let at = (u.n + i) * b;
    let end = at + b;
    member(&res[at..end], j)
}

// The first of production i's n marks that is not set.
fn first_free(marks: &[u64; 8192], i: usize, n: usize) -> Option<usize>
    requires { (i < 512) × (n ≤ 1024) }
    ensures { FirstFree marks.now i n result }
{
    for j in 0..n {
        if !is_marked(marks, 1024 * i + j) {
            return Some(j);
        }
    }
    None
}

// The least string of production i that is not marked, where it is below the best so far.
fn improve(
    res: &[u64],
    u: Layout,
    marks: &[u64; 8192],
    best: Option<Terminals>,
    i: usize,
) -> Option<Terminals>
    requires { (Sets u.b u.sets res.now × (u.b ≤ 2049)) × ((u.n + i < u.sets) × (i < 512)) }
    ensures { Improved (numbers_at u res.now i) marks.now i best result }
{
    let Some(j) = first_free(marks, i, size(res, u, i)) else {
        return best;
    };
    let x = string_at(res, u, i, j);
    if let Some(y) = best {
        if !lower(x, y) {
            return best;
        }
    }
    Some(x)
}

// The least string of a's that is not marked.
fn lack_of(
    res: &[u64],
    u: Layout,
    links: &Links,
    ks: &[u64; 128],
    marks: &[u64; 8192],
    a: usize,
) -> Option<Terminals>
    requires { Stand u links.now ks.now res.now × (a < u.n) }
    ensures { Least u links.now res.now marks.now a u.p result }
{
    let p = u.p;
    let mut i = links.first[a];
    let mut best = None;
    while i < p {
        best = improve(res, u, marks, best, i);
        i = links.next[i];
    }
    best
}

// Before which of n nonterminals another one is sought: what was missed so far comes before those behind it.
fn end_of(n: usize, m: Option<Missed>) -> usize
    ensures { result ≡ end_of n m }
{
    match m {
        Some(m) => m.nonterminal,
        None => n,
    }
}

// The first nonterminal of level k, before the one told so far, that has a string which is not marked; else the one told so far.
pub fn lack_all(
    k: u64,
    u: Layout,
    links: &Links,
    ks: &[u64; 128],
    res: &[u64],
    marks: &[u64; 8192],
    m: Option<Missed>,
) -> Option<Missed>
    requires { Stand u links.now ks.now res.now × (end_of u.n m ≤ u.n) }
    ensures { Lacked u links.now ks.now res.now marks.now k m result }
{
    for a in 0..end_of(u.n, m) {
        if ks[a] == k {
            if let Some(string) = lack_of(res, u, links, ks, marks, a) {
                return Some(Missed {
                    nonterminal: a,
                    string,
                });
            }
        }
    }
    m
}
