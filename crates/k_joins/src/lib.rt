// Joining two sets in lent words. The function here tests what it is given, and refuses by the numbers of the rules.
#![tactic(auto)]

ghost use Rattle.std.specs.Prelude.{◌≡◌, length};
ghost use Rattle.k_tuples.specs.Answers.{set_on_paper};
ghost use Rattle.k_joins.specs.Answers.{join_answer, join_words};

use crate::join::join_sets;
use k_tuples::check;
use k_tuples::set::finish;
use refusals::Refusal;

pub mod join;
pub mod pairs;
pub mod runs;

// The complete members of a, and each other member joined with each of b.
pub fn k_concat(k: u64, a: &[u64], b: &[u64], out: &mut [u64]) -> Result<(), Refusal>
    ensures answer { set_on_paper result ≡ join_answer k (length out.old) a.now b.now }
    ensures words { out.new ≡ join_words k a.now b.now out.old }
{
    check(k, out.len(), a, b)?;
    let g = join_sets(out, a, b, k);
    finish(k, out, g)?;
    Ok(())
}
