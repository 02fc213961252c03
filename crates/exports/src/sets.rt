// Sets in lent words for C.
ghost use Rattle.std.specs.Prelude.{◌≡◌, length};
ghost use Rattle.k_tuple.specs.Paper.{values_of};
ghost use Rattle.k_tuples.specs.Answers.{union_on_paper, union_answer, union_words, intersect_answer, intersect_words, disjoint_answer, complete_answer};
ghost use Rattle.k_joins.specs.Answers.{join_answer, join_words};
ghost use Rattle.exports.specs.Told.{Told, Left, Made};

use crate::{flag, refusal_number, tell_result};
use lookahead::Grown;

// Whether a set grew, as one number: 1 or 0.
fn grew(g: Grown) -> [u64; 1]
    ensures { result ≡ values_of (union_on_paper (Ok g)) }
{
    flag(g == Grown::Added)
}

// Makes out the union of two sets. Whether that added to the first is told in one word: 1 or 0.
pub fn jomankitu_union(k: u64, a: &[u64], b: &[u64], out: &mut [u64], told: &mut [u64]) -> u64
    ensures { Made 1 (union_answer k (length out.old) a.now b.now) (union_words k a.now b.now out.old) out.old told.old result out.new told.new }
{
    if told.is_empty() {
        return refusal_number(&lookahead::union(k, a, b, &mut out[..0]));
    }
    tell_result(told, lookahead::union(k, a, b, out).map(grew))
}

// Makes out the intersection of two sets.
pub fn jomankitu_intersection(k: u64, a: &[u64], b: &[u64], out: &mut [u64]) -> u64
    ensures { Left (intersect_answer k (length out.old) a.now b.now) (intersect_words k a.now b.now out.old) result out.new }
{
    refusal_number(&lookahead::intersection(k, a, b, out))
}

// Whether two sets have no member in common, in one word: 1 or 0.
pub fn jomankitu_disjoint(k: u64, a: &[u64], b: &[u64], out: &mut [u64]) -> u64
    ensures { Told 1 (disjoint_answer k a.now b.now) out.old result out.new }
{
    tell_result(out, lookahead::is_disjoint(k, a, b).map(flag))
}

// Whether a set has a member and every member is complete at k, in one word: 1 or 0.
pub fn jomankitu_all_complete(k: u64, a: &[u64], out: &mut [u64]) -> u64
    ensures { Told 1 (complete_answer k a.now) out.old result out.new }
{
    tell_result(out, lookahead::is_k_complete(k, a).map(flag))
}

// Makes out the join of two sets at k.
pub fn jomankitu_join_sets(k: u64, a: &[u64], b: &[u64], out: &mut [u64]) -> u64
    ensures { Left (join_answer k (length out.old) a.now b.now) (join_words k a.now b.now out.old) result out.new }
{
    refusal_number(&lookahead::k_concat(k, a, b, out))
}
