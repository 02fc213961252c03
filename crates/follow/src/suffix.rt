// The suffix sets FIRST(β) of all positions, worked out once.
ghost use Rattle.std.specs.Prelude.{◌≡◌};
ghost use Rattle.k_tuples.specs.Work.{refused};
ghost use Rattle.first.specs.Steps.{Ready, old_sets, room};
ghost use Rattle.follow_theory.specs.Follow.{follow};
ghost use Rattle.follow.specs.Suffixes.{Suffixes};
ghost use Rattle.first.specs.Rounds.{grammar_in};
ghost use Rattle.follow.specs.Steps.{Grammatical, Passed, occurrences};

use crate::walk::{next, start};
use first::Setup;
use first::right::first_of_right_side;
use refusals::Refusal;

// Makes the set of each position FIRST(β). Refuses a set that is too large.
pub fn make_suffixes(
    res: &mut [u64],
    scratch: &mut [u64],
    u: Setup,
    k: u64,
    words: &[u16],
) -> Result<(), Refusal>
    requires { Ready u k res.old scratch.old × Grammatical u words.now }
    ensures { Passed u k (follow (room u) k (grammar_in u words.now) (old_sets u res.old) ≡ refused 11) (Suffixes (room u) k (old_sets u res.old) (occurrences u words.now)) result res.old scratch.old res.new scratch.new }
{
    let places = u.n + u.p + u.n;
    let q = u.rsets - places;
    let mut w = start(u.p);
    for i in 0..q {
        w = next(words, w);
        first_of_right_side(res, scratch, u, places + i, k, &words[w.at..w.end])?;
    }
    Ok(())
}
