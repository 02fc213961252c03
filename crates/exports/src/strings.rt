// Packed strings for C: a string is its two words, the low one first.
ghost use Rattle.std.specs.Prelude.{◌≡◌, [], ◌∷◌};
ghost use Rattle.k_tuple.specs.Packed.{reads};
ghost use Rattle.k_tuple.specs.Answers.{two_words, place_of, width_answer, eps_answer, end_answer, make_answer, unpack_answer, cut_answer, push_answer, join_answer, complete_answer, order_answer};
ghost use Rattle.exports.specs.Pairs.{pair};
ghost use Rattle.exports.specs.Told.{Told, UnpackedTo, slot_words};

use crate::{alone, flag, tell_result};
use lookahead::{Terminals, Unpacked};
use std::cmp::Ordering;

// The words of a string, the low one first.
fn string_words(t: Terminals) -> [u64; 2]
    ensures { result ≡ two_words t }
{
    [t.lo, t.hi]
}

// 0 less, 1 equal, 2 greater.
fn place(o: Ordering) -> [u64; 1]
    ensures { result ≡ place_of o ∷ [] }
{
    match o {
        Ordering::Less => [0],
        Ordering::Equal => [1],
        Ordering::Greater => [2],
    }
}

// The length and the ten slots.
fn unpacked_words(u: Unpacked) -> [u64; 11]
    ensures { result ≡ slot_words u.length u.slots }
{
    let s = u.slots;
    [
        u.length,
        u64::from(s[0]),
        u64::from(s[1]),
        u64::from(s[2]),
        u64::from(s[3]),
        u64::from(s[4]),
        u64::from(s[5]),
        u64::from(s[6]),
        u64::from(s[7]),
        u64::from(s[8]),
        u64::from(s[9]),
    ]
}

// The width for the greatest terminal m, in one word.
pub fn jomankitu_width(m: u64, out: &mut [u64]) -> u64
    ensures { Told 1 (width_answer m) out.old result out.new }
{
    tell_result(out, lookahead::width(m).map(alone))
}

// ε, for the greatest terminal m, in two words.
pub fn jomankitu_eps(m: u64, out: &mut [u64]) -> u64
    ensures { Told 2 (eps_answer m) out.old result out.new }
{
    tell_result(out, Terminals::eps(m).map(string_words))
}

// The end marker alone, for the greatest terminal m, in two words.
pub fn jomankitu_end(m: u64, out: &mut [u64]) -> u64
    ensures { Told 2 (end_answer m) out.old result out.new }
{
    tell_result(out, Terminals::end(m).map(string_words))
}

// The first k of a list, for the greatest terminal m, in two words. An end marker may only be the last of them.
pub fn jomankitu_make(ts: &[u16], k: u64, m: u64, out: &mut [u64]) -> u64
    ensures { Told 2 (make_answer k m ts.now) out.old result out.new }
{
    tell_result(out, Terminals::make(ts, k, m).map(string_words))
}

// A string with one slot more, in two words. Nothing goes behind an end marker.
pub fn jomankitu_push(lo: u64, hi: u64, x: u64, out: &mut [u64]) -> u64
    ensures { Told 2 (push_answer x (reads (pair lo hi))) out.old result out.new }
{
    let t = Terminals { lo, hi };
    tell_result(out, t.push(x).map(string_words))
}

// The first k slots of a string, in two words.
pub fn jomankitu_cut(lo: u64, hi: u64, k: u64, out: &mut [u64]) -> u64
    ensures { Told 2 (cut_answer k (reads (pair lo hi))) out.old result out.new }
{
    let t = Terminals { lo, hi };
    tell_result(out, t.cut(k).map(string_words))
}

// The join of x with y at k, in two words.
pub fn jomankitu_join(xlo: u64, xhi: u64, ylo: u64, yhi: u64, k: u64, out: &mut [u64]) -> u64
    ensures { Told 2 (join_answer k (reads (pair xlo xhi)) (reads (pair ylo yhi))) out.old result out.new }
{
    let x = Terminals { lo: xlo, hi: xhi };
    let y = Terminals { lo: ylo, hi: yhi };
    tell_result(out, x.k_concat(y, k).map(string_words))
}

// Whether a string is complete at k, in one word: 1 or 0.
pub fn jomankitu_complete(lo: u64, hi: u64, k: u64, out: &mut [u64]) -> u64
    ensures { Told 1 (complete_answer k (reads (pair lo hi))) out.old result out.new }
{
    let t = Terminals { lo, hi };
    tell_result(out, t.is_k_complete(k).map(flag))
}

// The order of x and y, in one word: 0 less, 1 equal, 2 greater.
pub fn jomankitu_order(xlo: u64, xhi: u64, ylo: u64, yhi: u64, out: &mut [u64]) -> u64
    ensures { Told 1 (order_answer (reads (pair xlo xhi)) (reads (pair ylo yhi))) out.old result out.new }
{
    let x = Terminals { lo: xlo, hi: xhi };
    let y = Terminals { lo: ylo, hi: yhi };
    tell_result(out, x.cmp(y).map(place))
}

// The length of a string and ten slots, ε as 65,535 and unused places 0, in eleven words.
pub fn jomankitu_unpack(lo: u64, hi: u64, out: &mut [u64]) -> u64
    ensures { UnpackedTo (unpack_answer (reads (pair lo hi))) out.old result out.new }
{
    let t = Terminals { lo, hi };
    tell_result(out, t.unpack().map(unpacked_words))
}
