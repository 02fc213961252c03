// The sets of the positions: each suffix set joined with the final FOLLOW of its source.
ghost use Rattle.std.specs.Prelude.{◌≡◌, ◌<◌};
ghost use Rattle.k_tuples.specs.Sets.{join_sets};
ghost use Rattle.k_tuples.specs.States.{set_of};
ghost use Rattle.k_tuples.specs.Work.{refused, got, within};
ghost use Rattle.first.specs.Steps.{Ready, InWork, Made, result_sets, old_sets, room};
ghost use Rattle.follow_theory.specs.Follow.{position_sets};
ghost use Rattle.follow.specs.Steps.{Suffixed, Passed, occurrences, follow_sets};

use crate::walk::{next, start};
use blocks::{block, copy_block, join_into};
use first::Setup;
use k_tuples::set::Grown;
use refusals::Refusal;

// Joins set at of the result with set from, in the scratch.
fn join_sets(
    scratch: &mut [u64],
    res: &[u64],
    u: Setup,
    at: usize,
    k: u64,
    from: usize,
) -> Result<Grown, Refusal>
    requires { Ready u k res.now scratch.old × ((at < u.rsets) × (from < u.rsets)) }
    ensures { InWork u k u.n 0 (join_sets k (set_of (result_sets u res.now) at) (set_of (result_sets u res.now) from)) result scratch.old scratch.new }
{
    let x = block(res, u.b, at);
    let y = block(res, u.b, from);
    join_into(scratch, x, y, u.b, u.ssets, u.n, k)
}

// Makes set at of the result its join with set from. Refuses one that is too large.
fn take_position(
    res: &mut [u64],
    scratch: &mut [u64],
    u: Setup,
    at: usize,
    k: u64,
    from: usize,
) -> Result<(), Refusal>
    requires { Ready u k res.old scratch.old × ((at < u.rsets) × (from < u.rsets)) }
    ensures { Made u at k (within (room u) (join_sets k (set_of (result_sets u res.old) at) (set_of (result_sets u res.old) from))) result res.old scratch.old res.new scratch.new }
{
    join_sets(scratch, res, u, at, k, from)?;
    copy_block(res, scratch, u.b, u.rsets, u.ssets, u.n, at);
    Ok(())
}

// Makes the set of each position, a suffix set so far, its equation's join with the FOLLOW sets. Refuses a set that is too large.
pub fn make_positions(
    res: &mut [u64],
    scratch: &mut [u64],
    u: Setup,
    k: u64,
    words: &[u16],
) -> Result<(), Refusal>
    requires { Ready u k res.old scratch.old × Suffixed u k words.now res.old }
    ensures { Passed u k (position_sets (room u) k (old_sets u res.old) (occurrences u words.now) (follow_sets u res.old) ≡ refused 11) (λ Z. position_sets (room u) k (old_sets u res.old) (occurrences u words.now) (follow_sets u res.old) ≡ got Z) result res.old scratch.old res.new scratch.new }
{
    let follow = u.n + u.p;
    let places = follow + u.n;
    let q = u.rsets - places;
    let mut w = start(u.p);
    for i in 0..q {
        w = next(words, w);
        let from = follow + w.source;
        take_position(res, scratch, u, places + i, k, from)?;
    }
    Ok(())
}
