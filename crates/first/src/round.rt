// A round of FIRST: the product of each production is added to the new set of its left side, and the new sets take the place of the old ones. A left
// side that is not due has its new set already, and its productions are passed over.
ghost use Rattle.std.specs.Prelude.{map, ◌≤◌, ◌<◌, length, OnOk};
ghost use Rattle.cfg.specs.Reading.{pick};
ghost use Rattle.cfg.specs.Written.{symbol_of, productions_of};
ghost use Rattle.k_tuples.specs.Work.{got};
ghost use Rattle.first_theory.specs.Compute.{round_from, round};
ghost use Rattle.first.specs.Steps.{Ready, Free, Symbols, old_sets, room};
ghost use Rattle.first.specs.Rounds.{new_sets, add_one, Extended, Rules, grammar_in, Rounded};
ghost use Rattle.first.specs.Due.{kept_of, Known, Alike};

use crate::Setup;
use crate::due::clear_due;
use crate::right::first_of_right_side;
use cfg::grammar::Productions;
use refusals::Refusal;

// Adds the product of a right side to the new set of its left side. Refuses a set that is too large.
fn add_production(
    res: &mut [u64],
    scratch: &mut [u64],
    u: Setup,
    at: usize,
    k: u64,
    left: usize,
    right: &[u16],
) -> Result<(), Refusal>
    requires { (Ready u k res.old scratch.old × Free u at) × ((left < u.n) × Symbols u (map symbol_of right.now)) }
    ensures { Extended u at k (add_one u k (old_sets u res.old) (new_sets u scratch.old) left (map symbol_of right.now)) result res.old scratch.old res.new scratch.new }
{
    first_of_right_side(res, scratch, u, at, k, right)?;
    blocks::unite_block(scratch, res, u.b, u.ssets, u.rsets, at, left, k)?;
    Ok(())
}

// The same, if the left side is due.
fn add_due(
    res: &mut [u64],
    scratch: &mut [u64],
    u: Setup,
    at: usize,
    k: u64,
    left: usize,
    right: &[u16],
    due: bool,
) -> Result<(), Refusal>
    requires { (Ready u k res.old scratch.old × Free u at) × ((left < u.n) × Symbols u (map symbol_of right.now)) }
    ensures { Extended u at k (pick due (add_one u k (old_sets u res.old) (new_sets u scratch.old) left (map symbol_of right.now)) (got (new_sets u scratch.old))) result res.old scratch.old res.new scratch.new }
{
    if due {
        return add_production(res, scratch, u, at, k, left, right);
    }
    Ok(())
}

// Adds the product of each production whose left side is due to the new set of that. Refuses a set that is too large.
fn add_productions(
    res: &mut [u64],
    scratch: &mut [u64],
    u: Setup,
    at: usize,
    k: u64,
    words: &[u16],
    due: &[bool; 128],
) -> Result<(), Refusal>
    requires { (Ready u k res.old scratch.old × Free u at) × Rules u words.now }
    ensures { Extended u at k (round_from (room u) k (old_sets u res.old) (new_sets u scratch.old) (kept_of due.now (productions_of u.p words.now))) result res.old scratch.old res.new scratch.new }
{
    let ps = Productions {
        words,
        p: u.p as u16,
    };
    for q in ps {
        let left = usize::from(q.left);
        add_due(res, scratch, u, at, k, left, q.right, due[left])?;
    }
    Ok(())
}

// How a round ends: with the sets before it, or with others.
#[derive(Clone, Copy, Debug, PartialEq, Eq)]
pub enum Round {
    Same,
    Changed,
}

// One round: all new sets from the old ones, which they then replace. Only those that are due are worked out; those that did not change are marked.
// Refuses a set that is too large. Set at of the result is for the product in hand.
pub fn first_round(
    res: &mut [u64],
    scratch: &mut [u64],
    u: Setup,
    at: usize,
    k: u64,
    words: &[u16],
    due: &[bool; 128],
    same: &mut [bool],
) -> Result<Round, Refusal>
    requires { ((Ready u k res.old scratch.old × Free u at) × Rules u words.now) × (Known u k words.now due.now res.old scratch.old × (u.n ≤ length same.old)) }
    ensures rounded { Rounded u at k (round (room u) (grammar_in u words.now) k (old_sets u res.old)) result res.old scratch.old res.new scratch.new }
    ensures marked { OnOk result (Alike u same.new res.old res.new) }
{
    clear_due(scratch, u, k, due);
    add_productions(res, scratch, u, at, k, words, due)?;
    if blocks::take_first(res, scratch, u.b, u.rsets, u.ssets, u.n, same) {
        return Ok(Round::Same);
    }
    Ok(Round::Changed)
}
