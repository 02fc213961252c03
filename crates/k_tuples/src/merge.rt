// Two sets in lent words read side by side, as both rise: what they have in common, and their union in place.
ghost use Rattle.std.specs.Prelude.{◌≡◌, ◌+◌, ◌*◌, ◌≤◌, ◌<◌, [], ◌∷◌, length, take};
ghost use Rattle.k_tuples.specs.Members.{add_all};
ghost use Rattle.k_tuples.specs.Words.{room_of, decode, IsSet, Grew};
ghost use Rattle.k_tuples.specs.Merging.{side_of, written, Begins, Merged, Passed};

use crate::set::{Grown, copy_front, count, member, place, read, room, set_count};
use k_tuple::Terminals;
use refusals::Refusal;
use std::cmp::Ordering;

// Where x stands to y, by their words: the high ones first.
pub fn compare(x: Terminals, y: Terminals) -> Ordering
    ensures { result ≡ side_of x y }
{
    if x.hi == y.hi {
        x.lo.cmp(&y.lo)
    } else {
        x.hi.cmp(&y.hi)
    }
}

// How many members the union of two sets has. Members p of dst come before the first of src: the walk begins behind them.
fn union_count(dst: &[u64], src: &[u64], p: usize) -> usize
    requires { (IsSet dst.now × IsSet src.now) × Begins dst.now src.now p }
    ensures { result ≡ length (add_all (decode src.now) (decode dst.now)) }
{
    let old = count(dst);
    let n = count(src);
    let mut i = p;
    let mut j = 0;
    let mut new = 0;
    while i < old {
        if n <= j {
            return old + new;
        }
        let x = member(dst, i);
        let y = member(src, j);
        match compare(x, y) {
            Ordering::Less => {
                i += 1;
            }
            Ordering::Equal => {
                i += 1;
                j += 1;
            }
            Ordering::Greater => {
                j += 1;
                new += 1;
            }
        }
    }
    old + new + (n - j)
}

// Writes x at place n.
fn put(dst: &mut [u64], n: usize, x: Terminals)
    requires { 2 * n + 3 ≤ length dst.old }
    ensures { dst.new ≡ written n (x ∷ []) dst.old }
{
    dst[2 * n + 1] = x.lo;
    dst[2 * n + 1 + 1] = x.hi;
}

// Writes the first n members of src from place p on.
fn put_first(dst: &mut [u64], p: usize, src: &[u64], n: usize)
    requires { (IsSet src.now × (n ≤ length (decode src.now))) × ((2 * length (decode src.now) + 1 ≤ length src.now) × (2 * (p + n) + 1 ≤ length dst.old)) }
    ensures { dst.new ≡ written p (take n (decode src.now)) dst.old }
{
    let at = 2 * p + 1;
    copy_front(&mut dst[at..], &src[1..], 2 * n);
}

// Makes the members of dst those of the union, which are n, from the last one on, up to the place from which all stand where they belong.
// No member is overwritten before it was read: those still to be written are never fewer than those of dst that are left.
fn merge_back(dst: &mut [u64], src: &[u64], p: usize, n: usize)
    requires { ((IsSet dst.old × IsSet src.now) × Begins dst.old src.now p) × ((n ≡ length (add_all (decode src.now) (decode dst.old))) × (n ≤ room_of (length dst.old))) }
    ensures { Merged dst.old (add_all (decode src.now) (decode dst.old)) dst.new }
{
    let mut i = count(dst);
    let mut j = count(src);
    let mut m = n;
    while p < i {
        if m <= i {
            return;
        }
        let x = read(dst, 2 * i - 1);
        let y = read(src, 2 * j - 1);
        m -= 1;
        match compare(x, y) {
            Ordering::Less => {
                put(dst, m, y);
                j -= 1;
            }
            Ordering::Equal => {
                put(dst, m, x);
                i -= 1;
                j -= 1;
            }
            Ordering::Greater => {
                put(dst, m, x);
                i -= 1;
            }
        }
    }
    put_first(dst, p, src, j);
}

// How many members of b come before the first of a.
pub fn start(a: &[u64], b: &[u64]) -> usize
    requires { IsSet a.now × IsSet b.now }
    ensures { Passed (decode a.now) (decode b.now) result }
{
    if count(a) == 0 {
        return 0;
    }
    place(b, member(a, 0))
}

// Adds every member of src, which has some, to dst.
pub fn unite(dst: &mut [u64], src: &[u64]) -> Result<Grown, Refusal>
    requires { (IsSet dst.old × IsSet src.now) × (0 < length (decode src.now)) }
    ensures { Grew dst.old dst.new (add_all (decode src.now) (decode dst.old)) result }
{
    let p = place(dst, member(src, 0));
    let n = union_count(dst, src, p);
    if room(dst.len()) < n {
        return Err(Refusal::SetTooLarge);
    }
    if n <= count(dst) {
        return Ok(Grown::Same);
    }
    merge_back(dst, src, p, n);
    set_count(dst, n);
    Ok(Grown::Added)
}
