// The rounds of FOLLOW: equations in production order, then position, each seeing the sets as they stand. An equation is taken only if it is
// due: in the first round, and then where its source has grown since it was last taken. Any other has nothing to add. The equations with source
// A that are numbered below due[A] are due, where of q equations, equation i has number i in this round and q + i in the next. Where equation i
// adds a string to its target B, due[B] becomes q + i + 1, so that every equation with source B is due when it comes next.
ghost use Rattle.std.specs.Prelude.{suc, ◌-◌, ◌*◌, ◌≤◌, ◌≡◌, length, OnOk};
ghost use Rattle.k_tuples.specs.Work.{settle};
ghost use Rattle.first.specs.Steps.{Ready, old_sets, room};
ghost use Rattle.follow_theory.specs.Follow.{take_all};
ghost use Rattle.follow.specs.Steps.{Running, At, Copied, JoinedIn, Taken, Rounded, Ended, places_at, occurrences, follow_sets};
ghost use Rattle.follow.specs.Due.{TakenDue, Due, Lowered};

use crate::walk::{next, start};
use blocks::{block, copy_block, join_add};
use first::Setup;
use k_tuples::set::{Grown, room};
use refusals::Refusal;

// Adds the join of the suffix set of position i and the source's FOLLOW to the target's, in the scratch.
fn join_equation(
    scratch: &mut [u64],
    res: &[u64],
    u: Setup,
    k: u64,
    i: usize,
    source: usize,
    target: usize,
) -> Result<Grown, Refusal>
    requires { (Ready u k res.now scratch.old × Copied u res.now scratch.old) × At u i source target }
    ensures { JoinedIn u k i source target result res.now scratch.old scratch.new }
{
    let follow = u.n + u.p;
    let x = block(res, u.b, follow + u.n + i);
    let y = block(res, u.b, follow + source);
    join_add(scratch, x, y, u.b, u.ssets, target, k)
}

// Takes the equation of position i: the target's FOLLOW gets the join, in both buffers. Tells whether that added a string; refuses a set that is too large.
fn take_equation(
    res: &mut [u64],
    scratch: &mut [u64],
    u: Setup,
    k: u64,
    i: usize,
    source: usize,
    target: usize,
) -> Result<Grown, Refusal>
    requires { (Ready u k res.old scratch.old × Copied u res.old scratch.old) × At u i source target }
    ensures { Taken u k i source target result res.old scratch.old res.new scratch.new }
{
    match join_equation(scratch, res, u, k, i, source, target)? {
        Grown::Added => {
            let to = u.n + u.p + target;
            copy_block(res, scratch, u.b, u.rsets, u.ssets, target, to);
            Ok(Grown::Added)
        }
        Grown::Same => Ok(Grown::Same),
    }
}

// Takes the equation of position i if it is due, and notes that its target has grown if it has. Tells whether that added a string; refuses a set that is too large.
fn take_due(
    res: &mut [u64],
    scratch: &mut [u64],
    u: Setup,
    k: u64,
    i: usize,
    source: usize,
    target: usize,
    due: &mut [usize; 128],
) -> Result<Grown, Refusal>
    requires { ((Ready u k res.old scratch.old × Copied u res.old scratch.old) × At u i source target) × (u.n ≤ 128) }
    ensures { TakenDue u k i source target result res.old scratch.old due.old res.new scratch.new due.new }
{
    if due[source] <= i {
        return Ok(Grown::Same);
    }
    match take_equation(res, scratch, u, k, i, source, target)? {
        Grown::Added => {
            let q = u.rsets - (u.n + u.p + u.n);
            due[target] = q + i + 1;
            Ok(Grown::Added)
        }
        Grown::Same => Ok(Grown::Same),
    }
}

// One round: every equation that is due, once. Tells whether it added a string; refuses a set that is too large.
fn follow_round(
    res: &mut [u64],
    scratch: &mut [u64],
    u: Setup,
    k: u64,
    words: &[u16],
    due: &mut [usize; 128],
) -> Result<Grown, Refusal>
    requires { Running u k words.now res.old scratch.old × Due u k words.now 0 res.old due.old }
    ensures rounded { Rounded u k (take_all (room u) k (old_sets u res.old) (occurrences u words.now) (follow_sets u res.old)) result res.old scratch.old res.new scratch.new }
    ensures passed { OnOk result (Due u k words.now (u.rsets - places_at u) res.new due.new) }
{
    let q = u.rsets - (u.n + u.p + u.n);
    let mut w = start(u.p);
    let mut added = false;
    for i in 0..q {
        w = next(words, w);
        let grown = take_due(res, scratch, u, k, i, w.source, w.target, due)?;
        match grown {
            Grown::Added => added = true,
            Grown::Same => {}
        }
    }
    if added {
        return Ok(Grown::Added);
    }
    Ok(Grown::Same)
}

// What is due in the next round: the first n numbers less q, or 0.
fn next_due(due: &mut [usize; 128], n: usize, q: usize)
    requires { (n ≤ 128) × (length due.old ≡ 128) }
    ensures { Lowered n q due.old due.new }
{
    for a in 0..n {
        due[a] = due[a].saturating_sub(q);
    }
}

// Rounds, up to the first that adds nothing, which counts. Every round before it adds a string, so n times the room, and one, are enough.
pub fn follow_rounds(
    res: &mut [u64],
    scratch: &mut [u64],
    u: Setup,
    k: u64,
    words: &[u16],
) -> Result<u64, Refusal>
    requires { Running u k words.now res.old scratch.old }
    ensures { Ended u k (settle (take_all (room u) k (old_sets u res.old) (occurrences u words.now)) 11 (suc (u.n * room u)) 0 (follow_sets u res.old)) result res.old scratch.old res.new scratch.new }
{
    let q = u.rsets - (u.n + u.p + u.n);
    let mut due = [q; 128];
    let most = (u.n * room(u.b) + 1) as u64;
    for done in 0..most {
        match follow_round(res, scratch, u, k, words, &mut due)? {
            Grown::Same => return Ok(done + 1),
            Grown::Added => next_due(&mut due, u.n, q),
        }
    }
    Err(Refusal::SetTooLarge)
}
