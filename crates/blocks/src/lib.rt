// Lent words that are cut into blocks of b words, a set in each: work on one block, and on the first n blocks. Words have m such blocks, or l.
// Where a set is made its number of unfinished members is that at k.
// Kept: a part of words that is written, `&mut words[at..end]`, is named where it is lent. No proof is made for a function that gives such a part.
// Kept: words, b and m side by side. A struct over lent words is no plainer: each call would also have to say that it still holds the same words.
#![tactic(auto)]

ghost use Rattle.std.specs.Prelude.{◌≡◌, ◌+◌, ◌*◌, ◌≤◌, ◌<◌, length};
ghost use Rattle.k_tuple.specs.Packed.{WellFormed};
ghost use Rattle.k_tuples.specs.Blocks.{part_at};
ghost use Rattle.blocks.specs.Stores.{Sets, Both, BothAt, WithOne, WithOneAt, WithTwo, WithString, Raisable, Only, PutSingle, Raised, Joined, JoinAdded, United, UnitedBlock, Copied, CopiedBlock, Emptied, EmptiedFirst, TakenBlock, TakenFirst, AskedComplete};

use crate::one::{join_more, unite_one};
use k_tuple::Terminals;
use k_tuples::set::{Grown, clear_set, number, renumber, replace_set, same_set};
use refusals::Refusal;

pub mod one;

// Block i of words that are read.
pub fn block(words: &[u64], b: usize, i: usize) -> &[u64]
    requires { i * b + b ≤ length words.now }
    ensures { result.now ≡ part_at b i words.now }
{
    let at = i * b;
    &words[at..at + b]
}

// Adds the join of two sets to block out.
pub fn join_add(
    words: &mut [u64],
    xs: &[u64],
    ys: &[u64],
    b: usize,
    m: usize,
    out: usize,
    k: u64,
) -> Result<Grown, Refusal>
    requires { WithTwo k b m words.old xs.now ys.now × (out < m) }
    ensures { JoinAdded k b m out result xs.now ys.now words.old words.new }
{
    let at = out * b;
    join_more(&mut words[at..at + b], xs, ys, k)
}

// Makes block out the join of two sets: it is emptied, and the join is added.
pub fn join_into(
    words: &mut [u64],
    xs: &[u64],
    ys: &[u64],
    b: usize,
    m: usize,
    out: usize,
    k: u64,
) -> Result<Grown, Refusal>
    requires { WithTwo k b m words.old xs.now ys.now × (out < m) }
    ensures { Joined k b m out result xs.now ys.now words.old words.new }
{
    clear_block(words, b, m, out);
    join_add(words, xs, ys, b, m, out, k)
}

// Adds a set to block to.
pub fn unite_into(
    words: &mut [u64],
    xs: &[u64],
    b: usize,
    m: usize,
    to: usize,
    k: u64,
) -> Result<Grown, Refusal>
    requires { WithOneAt k b m words.old xs.now × (to < m) }
    ensures { United k b m to result xs.now words.old words.new }
{
    let at = to * b;
    unite_one(&mut words[at..at + b], xs, k)
}

// Adds block from of src to block to.
pub fn unite_block(
    words: &mut [u64],
    src: &[u64],
    b: usize,
    m: usize,
    l: usize,
    from: usize,
    to: usize,
    k: u64,
) -> Result<Grown, Refusal>
    requires { BothAt k b m l words.old src.now × ((from < l) × (to < m)) }
    ensures { UnitedBlock k b m l from to result src.now words.old words.new }
{
    unite_into(words, block(src, b, from), b, m, to, k)
}

// Makes block to a copy of a set that it has room for.
pub fn copy_into(words: &mut [u64], xs: &[u64], b: usize, m: usize, to: usize)
    requires { WithOne b m words.old xs.now × ((to < m) × (length xs.now ≤ b)) }
    ensures { Copied b m to xs.now words.old words.new }
{
    let at = to * b;
    replace_set(&mut words[at..at + b], xs);
}

// Makes block to a copy of block from of src.
pub fn copy_block(
    words: &mut [u64],
    src: &[u64],
    b: usize,
    m: usize,
    l: usize,
    from: usize,
    to: usize,
)
    requires { Both b m l words.old src.now × ((from < l) × (to < m)) }
    ensures { CopiedBlock b m l from to src.now words.old words.new }
{
    copy_into(words, block(src, b, from), b, m, to);
}

// The set of one string, in three words.
pub fn single(t: Terminals, k: u64) -> [u64; 3]
    requires { WellFormed t }
    ensures { Only k t result }
{
    k_tuples::set::single(t, k)
}

// Makes block to the set of one string.
pub fn put_single(words: &mut [u64], t: Terminals, b: usize, m: usize, to: usize, k: u64)
    requires { WithString k b m t words.old × ((to < m) × (3 ≤ b)) }
    ensures { PutSingle k b m to t words.old words.new }
{
    let one = single(t, k);
    copy_into(words, &one, b, m, to);
}

// Makes the numbers of all sets, which were true at a lower k, true at k.
pub fn raise(words: &mut [u64], b: usize, m: usize, k: u64)
    requires { Raisable k b m words.old }
    ensures { Raised k b m words.old words.new }
{
    for i in 0..m {
        let at = i * b;
        renumber(k, &mut words[at..at + b]);
    }
}

// Empties block to.
pub fn clear_block(words: &mut [u64], b: usize, m: usize, to: usize)
    requires { Sets b m words.old × (to < m) }
    ensures { Emptied b m to words.old words.new }
{
    let at = to * b;
    clear_set(&mut words[at..at + b]);
}

// Empties the first n blocks.
pub fn clear_first(words: &mut [u64], b: usize, m: usize, n: usize)
    requires { Sets b m words.old × (n ≤ m) }
    ensures { EmptiedFirst b m n words.old words.new }
{
    for i in 0..n {
        clear_block(words, b, m, i);
    }
}

// Makes block i what it is in src, unless it is that already. Tells whether it is.
fn take_block(words: &mut [u64], src: &[u64], b: usize, m: usize, l: usize, i: usize) -> bool
    requires { Both b m l words.old src.now × ((i < m) × (i < l)) }
    ensures { TakenBlock b m l i result src.now words.old words.new }
{
    let same = same_set(block(src, b, i), block(words, b, i));
    if !same {
        copy_block(words, src, b, m, l, i, i);
    }
    same
}

// Makes the first n blocks those of src, and marks those that were it already. Tells whether all were.
pub fn take_first(
    words: &mut [u64],
    src: &[u64],
    b: usize,
    m: usize,
    l: usize,
    n: usize,
    same: &mut [bool],
) -> bool
    requires { Both b m l words.old src.now × ((n ≤ m) × ((n ≤ l) × (n ≤ length same.old))) }
    ensures { TakenFirst b m l n result src.now words.old words.new same.new }
{
    let mut all = true;
    for i in 0..n {
        let alike = take_block(words, src, b, m, l, i);
        same[i] = alike;
        all &= alike;
    }
    all
}

// Whether every member of block at is complete at k, by the number that is kept.
pub fn is_complete(words: &[u64], b: usize, m: usize, at: usize, k: u64) -> bool
    requires { Sets b m words.now × (at < m) }
    ensures { AskedComplete k b m at result words.now }
{
    number(block(words, b, at)) == 0
}
