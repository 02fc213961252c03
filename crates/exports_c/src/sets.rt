// Sets of packed strings, for C: each function is the one of that name of `exports::sets`.
ghost use Rattle.std.specs.Prelude.{length};
ghost use Rattle.k_tuples.specs.Answers.{union_answer, union_words, intersect_answer, intersect_words, disjoint_answer, complete_answer};
ghost use Rattle.k_joins.specs.Answers.{join_answer, join_words};
ghost use Rattle.exports.specs.Told.{Told, Left, Made};

// Makes out the union of two sets. Whether that added to the first is told in one word: 1 or 0.
#[unsafe(no_mangle)]
pub extern "C" fn jomankitu_union(
    k: u64,
    a: &[u64],
    b: &[u64],
    out: &mut [u64],
    told: &mut [u64],
) -> u64
    ensures { Made 1 (union_answer k (length out.old) a.now b.now) (union_words k a.now b.now out.old) out.old told.old result out.new told.new }
{
    exports::sets::jomankitu_union(k, a, b, out, told)
}

// Makes out the intersection of two sets.
#[unsafe(no_mangle)]
pub extern "C" fn jomankitu_intersection(k: u64, a: &[u64], b: &[u64], out: &mut [u64]) -> u64
    ensures { Left (intersect_answer k (length out.old) a.now b.now) (intersect_words k a.now b.now out.old) result out.new }
{
    exports::sets::jomankitu_intersection(k, a, b, out)
}

// Whether two sets have no member in common, in one word: 1 or 0.
#[unsafe(no_mangle)]
pub extern "C" fn jomankitu_disjoint(k: u64, a: &[u64], b: &[u64], out: &mut [u64]) -> u64
    ensures { Told 1 (disjoint_answer k a.now b.now) out.old result out.new }
{
    exports::sets::jomankitu_disjoint(k, a, b, out)
}

// Whether a set has a member and every member is complete at k, in one word: 1 or 0.
#[unsafe(no_mangle)]
pub extern "C" fn jomankitu_all_complete(k: u64, a: &[u64], out: &mut [u64]) -> u64
    ensures { Told 1 (complete_answer k a.now) out.old result out.new }
{
    exports::sets::jomankitu_all_complete(k, a, out)
}

// Makes out the join of two sets at k.
#[unsafe(no_mangle)]
pub extern "C" fn jomankitu_join_sets(k: u64, a: &[u64], b: &[u64], out: &mut [u64]) -> u64
    ensures { Left (join_answer k (length out.old) a.now b.now) (join_words k a.now b.now out.old) result out.new }
{
    exports::sets::jomankitu_join_sets(k, a, b, out)
}
