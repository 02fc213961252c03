// The join of two sets pair by pair: each product is put into the output where it belongs.
ghost use Rattle.std.specs.Prelude.{◌+◌, ◌*◌, ◌<◌, [], ◌∷◌, length};
ghost use Rattle.k_tuples.specs.Members.{add_all, joins_of, row_of, pairs_of};
ghost use Rattle.k_tuples.specs.Words.{member_at, decode, IsSet, Grew, Joinable, AllJoinable};

use k_tuple::Terminals;
use k_tuple::well::{is_complete, join};
use k_tuples::set::{Grown, count, growth, insert, member};
use refusals::Refusal;

// Adds the join of x with member i of ys to out.
fn add_join(out: &mut [u64], x: Terminals, ys: &[u64], i: usize, k: u64) -> Result<Grown, Refusal>
    requires { IsSet out.old × (IsSet ys.now × ((i < length (decode ys.now)) × Joinable k x ys.now)) }
    ensures { Grew out.old out.new (add_all (joins_of k x (member_at ys.now (2 * i + 1) ∷ [])) (decode out.old)) result }
{
    insert(out, join(x, member(ys, i), k))
}

// Adds the join of x with each member of ys to out.
fn join_each(out: &mut [u64], x: Terminals, ys: &[u64], k: u64) -> Result<Grown, Refusal>
    requires { IsSet out.old × (IsSet ys.now × Joinable k x ys.now) }
    ensures { Grew out.old out.new (add_all (joins_of k x (decode ys.now)) (decode out.old)) result }
{
    let old = count(out);
    let n = count(ys);
    for i in 0..n {
        add_join(out, x, ys, i, k)?;
    }
    Ok(growth(old, out))
}

// Adds to out what member i of xs gives in a join with ys: itself, if it is complete.
fn join_row(out: &mut [u64], xs: &[u64], i: usize, ys: &[u64], k: u64) -> Result<Grown, Refusal>
    requires { IsSet out.old × (IsSet xs.now × (IsSet ys.now × ((i < length (decode xs.now)) × AllJoinable k xs.now ys.now))) }
    ensures { Grew out.old out.new (add_all (row_of k (member_at xs.now (2 * i + 1)) (decode ys.now)) (decode out.old)) result }
{
    let x = member(xs, i);
    if is_complete(x, k) {
        return insert(out, x);
    }
    join_each(out, x, ys, k)
}

// Adds the join of two sets at k to out, pair by pair.
pub fn join_plain(out: &mut [u64], xs: &[u64], ys: &[u64], k: u64) -> Result<Grown, Refusal>
    requires { IsSet out.old × (IsSet xs.now × (IsSet ys.now × AllJoinable k xs.now ys.now)) }
    ensures { Grew out.old out.new (add_all (pairs_of k (decode xs.now) (decode ys.now)) (decode out.old)) result }
{
    let old = count(out);
    let n = count(xs);
    for i in 0..n {
        join_row(out, xs, i, ys, k)?;
    }
    Ok(growth(old, out))
}
