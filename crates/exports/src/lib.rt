// The surface for C, and for any language that calls C; `exports_c` is its archive. A slice is passed as a pointer and a length. A function answers by the
// number of a refusal, 0 where there is none, and leaves its other numbers in lent words.
#![tactic(auto)]

ghost use Rattle.std.specs.Prelude.{◌≡◌, length, [], ◌∷◌};
ghost use Rattle.k_tuple.specs.Paper.{flag, gives};
ghost use Rattle.exports.specs.Told.{too_few, Wrote, Told, number_told, on_paper, part_of};
ghost use Rattle.engine.specs.Call.{record_of};
ghost use Rattle.exports.specs.Call.{record_words, Called};

use engine::ask::place;
use k_tuples::set::copy_front;
use lookahead::{Lookahead, Refusal, lookahead_sets};

pub mod automata;
pub mod mark;
pub mod needed;
pub mod rules;
pub mod sets;
pub mod strings;

// The refusal where the words for an answer are too few: 10, but first what comes before it in the table.
fn too_few(refusal: u64) -> u64
    ensures { result ≡ too_few refusal }
{
    if refusal < 1 {
        return 10;
    }
    if 9 < refusal {
        return 10;
    }
    refusal
}

// Tells a refusal, and numbers in lent words: a call that has numbers to tell tells them by this function.
fn tell(out: &mut [u64], refusal: u64, values: &[u64]) -> u64
    ensures { Wrote (length values.now) refusal values.now out.old result out.new }
{
    let n = values.len();
    if out.len() < n {
        return too_few(refusal);
    }
    copy_front(out, values, n);
    refusal
}

// The number of a result's refusal, 0 where there is none.
fn refusal_number<T: Drop>(r: &Result<T, Refusal>) -> u64
    ensures { result ≡ number_told r.now }
{
    match r {
        Ok(_) => 0,
        Err(e) => u64::from(*e),
    }
}

// Tells a result: its N numbers in lent words, or zeros, and its refusal.
fn tell_result<const N: usize>(out: &mut [u64], said: Result<[u64; N], Refusal>) -> u64
    ensures { Told N (on_paper N said.entry) out.old result out.new }
{
    let number = refusal_number(&said);
    tell(out, number, &said.unwrap_or([0; N]))
}

// One number to tell.
fn alone(n: u64) -> [u64; 1]
    ensures { result ≡ n ∷ [] }
{
    [n]
}

// Yes or no as one number: 1 or 0.
fn flag(b: bool) -> [u64; 1]
    ensures { result ≡ flag b }
{
    [u64::from(b)]
}

// The numbers of the engine's answer: that of its refusal, and zeros; or 0, and the answer's.
fn record_words(a: Result<Lookahead, Refusal>) -> [u64; 16]
    ensures { result ≡ record_words (record_of a) }
{
    match a {
        Ok(l) => {
            let r = l.rounds;
            [
                0, l.n, l.p, l.q, l.width, r[0], r[1], r[2], r[3], r[4], r[5], r[6], r[7], r[8],
                r[9], l.follow,
            ]
        }
        Err(e) => [u64::from(e), 0, 0, 0, 0, 0, 0, 0, 0, 0, 0, 0, 0, 0, 0, 0],
    }
}

// FIRST and FOLLOW of a table at k, with room for c members in each set. The answer takes sixteen words; where they are too few the engine is asked
// with no words at all, which it refuses by 10 or what comes before it, and touches nothing.
pub fn jomankitu_lookahead_sets(
    k: u64,
    c: u64,
    table: &[u8],
    res: &mut [u64],
    scratch: &mut [u64],
    answer: &mut [u64],
) -> u64
    ensures { Called k c table.now res.old scratch.old answer.old result res.new scratch.new answer.new }
{
    if answer.len() < 16 {
        let few = lookahead_sets(k, c, table, &mut res[..0], &mut scratch[..0]);
        return refusal_number(&few);
    }
    let a = lookahead_sets(k, c, table, res, scratch);
    tell(answer, refusal_number(&a), &record_words(a))
}

// Where the part of a set begins, and its length.
fn part_of(
    len: usize,
    kind: usize,
    number: usize,
    n: usize,
    p: usize,
    q: usize,
    c: usize,
) -> [u64; 2]
    ensures { result ≡ part_of len kind number n p q c }
{
    match place(len, kind, number, n, p, q, c) {
        Some(at) => [at as u64, 2 * c as u64 + 1],
        None => [0, 0],
    }
}

// Where in a result of so many words the part of a set begins, and its length, in two words; 0 and 0 where there is no such set.
pub fn jomankitu_set_of(
    len: usize,
    kind: usize,
    number: usize,
    n: usize,
    p: usize,
    q: usize,
    c: usize,
    out: &mut [u64],
) -> u64
    ensures { Told 2 (gives (part_of len kind number n p q c)) out.old result out.new }
{
    let part = part_of(len, kind, number, n, p, q, c);
    tell(out, 0, &part)
}
