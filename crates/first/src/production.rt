// FIRST of the productions, made once from the sets of the nonterminals.
ghost use Rattle.std.specs.Prelude.{◌+◌, ◌≤◌};
ghost use Rattle.cfg.specs.Written.{productions_of};
ghost use Rattle.first_theory.specs.Compute.{production_sets};
ghost use Rattle.first.specs.Steps.{Ready, old_sets, room};
ghost use Rattle.first.specs.Rounds.{Rules};
ghost use Rattle.first.specs.Levels.{Produced};

use crate::Setup;
use crate::right::first_of_right_side;
use cfg::table::span_at;
use refusals::Refusal;

// FIRST of the productions, from set n of the result on. Refuses a set that is too large.
pub fn first_productions(
    res: &mut [u64],
    scratch: &mut [u64],
    u: Setup,
    k: u64,
    words: &[u16],
) -> Result<(), Refusal>
    requires { (Ready u k res.old scratch.old × (u.n + u.p ≤ u.rsets)) × Rules u words.now }
    ensures { Produced u k (production_sets (room u) k (old_sets u res.old) (productions_of u.p words.now)) result res.old scratch.old res.new scratch.new }
{
    let mut place = 0;
    for i in 0..u.p {
        let span = span_at(words, place);
        first_of_right_side(res, scratch, u, u.n + i, k, &words[span.from..span.to])?;
        place = span.to;
    }
    Ok(())
}
