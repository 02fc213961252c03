// One set in lent words, to which others are added: its number of unfinished members is true at k before and after. Where what is added has
// nothing unfinished, and a join has not where one of its two sets has not, the number stays as it is.
ghost use Rattle.blocks.specs.Ones.{Two, Three, OneUnited, OneJoinAdded};

use k_joins::join::join_into;
use k_tuples::set::{Grown, add_number, count, finish, number, union_into};
use refusals::Refusal;

// Adds a set to a set. Where the two have nothing in common, which their counts tell, their numbers are added.
pub fn unite_one(set: &mut [u64], xs: &[u64], k: u64) -> Result<Grown, Refusal>
    requires { Two k set.old xs.now }
    ensures { OneUnited k result xs.now set.old set.new }
{
    let old = count(set);
    let g = union_into(set, xs)?;
    if number(xs) == 0 {
        return Ok(g);
    }
    if count(set) == old + count(xs) {
        add_number(set, number(xs));
        return Ok(g);
    }
    finish(k, set, Ok(g))
}

// Adds the join of two sets to a set.
pub fn join_more(set: &mut [u64], xs: &[u64], ys: &[u64], k: u64) -> Result<Grown, Refusal>
    requires { Three k set.old xs.now ys.now }
    ensures { OneJoinAdded k result xs.now ys.now set.old set.new }
{
    let g = join_into(set, xs, ys, k);
    if number(xs) == 0 || number(ys) == 0 {
        return g;
    }
    finish(k, set, g)
}
