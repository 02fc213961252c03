// The join of two sets into an output: added to the set that it holds, or in place of what it holds. Small sets are joined pair by pair, others by runs.
ghost use Rattle.std.specs.Prelude.{◌≡◌, ◌≤◌, [], length};
ghost use Rattle.k_tuples.specs.Members.{add_all, pairs_of};
ghost use Rattle.k_tuples.specs.Words.{room_of, decode, IsSet, grown, Grew, filled, AllJoinable, Numbered};

use crate::pairs::join_plain;
use crate::runs::join_large;
use k_tuples::set::{Grown, clear, count, number, or_zeros, union_into};
use refusals::Refusal;

// Two sets with fewer pairs of members are joined pair by pair: there runs cost more than they save.
const FEW_JOINED: usize = 24;

const FEW_PAIRS: usize = 48;

// Adds the join of two sets at k to out. Where nothing of the first is unfinished it is the first set.
pub fn join_into(out: &mut [u64], xs: &[u64], ys: &[u64], k: u64) -> Result<Grown, Refusal>
    requires { IsSet out.old × (IsSet xs.now × (IsSet ys.now × (AllJoinable k xs.now ys.now × Numbered k xs.now))) }
    ensures { Grew out.old out.new (add_all (pairs_of k (decode xs.now) (decode ys.now)) (decode out.old)) result }
{
    if number(xs) == 0 {
        return union_into(out, xs);
    }
    let n = count(xs);
    let m = count(ys);
    if n == 0 || m == 0 || n < FEW_JOINED && m < FEW_PAIRS / (n + 1) {
        return join_plain(out, xs, ys, k);
    }
    join_large(out, xs, ys, k)
}

// Makes out the join of two sets at k, or zeros where it has no room for that.
pub fn join_sets(out: &mut [u64], xs: &[u64], ys: &[u64], k: u64) -> Result<Grown, Refusal>
    requires { (1 ≤ length out.old) × (IsSet xs.now × (IsSet ys.now × (AllJoinable k xs.now ys.now × Numbered k xs.now))) }
    ensures answer { result ≡ grown (room_of (length out.old)) 0 (length (add_all (pairs_of k (decode xs.now) (decode ys.now)) [])) }
    ensures words { out.new ≡ filled 0 (length out.old) (add_all (pairs_of k (decode xs.now) (decode ys.now)) []) }
{
    clear(out);
    let g = join_into(out, xs, ys, k);
    or_zeros(out, g)
}
