// Which nonterminals a round of FIRST has to work out: those with a right side in which some set is not what it was before the last round. The
// others' new sets are the old ones, and stand in the scratch already.
ghost use Rattle.std.specs.Prelude.{◌≡◌, ◌≤◌, ◌<◌};
ghost use Rattle.cfg.specs.Written.{productions_of};
ghost use Rattle.k_tuples.specs.Blocks.{IsStored};
ghost use Rattle.first.specs.Rounds.{Rules};
ghost use Rattle.first.specs.Due.{due_of, Blanked};

use crate::Setup;
use cfg::accept::all_marked;
use cfg::grammar::Productions;

// The left sides of the productions in which some nonterminal is not marked as the same.
pub fn due_after(words: &[u16], u: Setup, same: &[bool; 128]) -> [bool; 128]
    requires { Rules u words.now }
    ensures { result ≡ due_of same.now (productions_of u.p words.now) }
{
    let ps = Productions {
        words,
        p: u.p as u16,
    };
    let mut due = [false; 128];
    for q in ps {
        if !all_marked(q.right, true, same) {
            due[usize::from(q.left)] = true;
        }
    }
    due
}

// Empties the new sets that are due.
pub fn clear_due(scratch: &mut [u64], u: Setup, k: u64, due: &[bool; 128])
    requires { IsStored k u.w u.b u.ssets scratch.old × ((u.n < u.ssets) × (u.n ≤ 128)) }
    ensures { Blanked u k due.now scratch.old scratch.new }
{
    for i in 0..u.n {
        if due[i] {
            blocks::clear_block(scratch, u.b, u.ssets, i);
        }
    }
}
