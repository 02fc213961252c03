// Each production's set joined with FOLLOW of its left side, in place, through a block to work in.
ghost use Rattle.std.specs.Prelude.{◌≡◌, ◌<◌};
ghost use Rattle.k_tuples.specs.States.{set_of};
ghost use Rattle.blocks.specs.Stores.{Joined};
ghost use Rattle.k_tuples.specs.Blocks.{part_at};
ghost use Rattle.decision.specs.Call.{refusals_in, ks_in};
ghost use Rattle.decision.specs.Steps.{Long, Fit, Ready, Taken, JoinedOne, JoinedAll};

use crate::{KAnswers, Layout, Links, is_open};
use blocks::block;
use k_tuples::set::Grown;
use refusals::Refusal;

// Joins set at of the result with set from, in the block.
fn join_block(
    work: &mut [u64],
    res: &[u64],
    u: Layout,
    k: u64,
    at: usize,
    from: usize,
) -> Result<Grown, Refusal>
    requires { Ready u k res.now work.old × ((at < u.sets) × (from < u.sets)) }
    ensures { Joined k u.b 1 0 result (part_at u.b at res.now) (part_at u.b from res.now) work.old work.new }
{
    let x = block(res, u.b, at);
    let y = block(res, u.b, from);
    blocks::join_into(work, x, y, u.b, 1, 0, k)
}

// Makes set at of the result its join with set from. An error says that this was too large; the set is then as it was.
fn take_join(
    res: &mut [u64],
    work: &mut [u64],
    u: Layout,
    k: u64,
    at: usize,
    from: usize,
) -> Result<(), Refusal>
    requires { Ready u k res.old work.old × ((at < u.sets) × (from < u.sets)) }
    ensures { Taken u k at from result res.old work.old res.new work.new }
{
    if join_block(work, res, u, k, at, from).is_err() {
        k_tuples::set::clear(work);
        return Err(Refusal::SetTooLarge);
    }
    blocks::copy_block(res, work, u.b, u.sets, 1, 0, at);
    Ok(())
}

// Joins production i's set, where its left side is open.
fn join_one(
    res: &mut [u64],
    work: &mut [u64],
    u: Layout,
    links: &Links,
    k: u64,
    i: usize,
    answers: &mut KAnswers,
)
    requires { (Ready u k res.old work.old × Fit u links.now) × ((i < u.p) × Long answers.old) }
    ensures joined { JoinedOne u links.now k i (refusals_in answers.old) (refusals_in answers.new) res.old work.old res.new work.new }
    ensures ks { ks_in answers.new ≡ ks_in answers.old }
{
    let a = links.left[i];
    if !is_open(answers[a]) {
        return;
    }
    let at = u.n + i;
    let from = u.n + u.p + a;
    if let Err(e) = take_join(res, work, u, k, at, from) {
        answers[a] = Err(e);
    }
}

// Joins the sets of all productions whose left side is open.
pub fn join_all(
    res: &mut [u64],
    work: &mut [u64],
    u: Layout,
    links: &Links,
    k: u64,
    answers: &mut KAnswers,
)
    requires { (Ready u k res.old work.old × Fit u links.now) × Long answers.old }
    ensures joined { JoinedAll u links.now k u.p (refusals_in answers.old) (refusals_in answers.new) res.old work.old res.new work.new }
    ensures ks { ks_in answers.new ≡ ks_in answers.old }
{
    for i in 0..u.p {
        join_one(res, work, u, links, k, i, answers);
    }
}
