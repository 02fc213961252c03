// The decision automaton of each nonterminal of a table, written as bytes. For every k in use the engine is run twice: once for the sizes of the trees, which
// decide all refusals, and once for their bytes, at places that are known by then.
#![tactic(auto)]

ghost use Rattle.std.specs.Prelude.{◌≤◌, length};
ghost use Rattle.decision.specs.Steps.{Long};
ghost use Rattle.automaton.specs.Call.{recorded, Promised};
ghost use Rattle.automaton.specs.Steps.{trees_of, Ready, Planned, AllStand, KStands, SizesPut, Measured, Fitting, KWritten, Wrote, Made, Done};

use crate::sizes::{place_of, total};
use crate::strings::{size_of_tree, write_tree};
use crate::task::Task;
use decision::joined::{all_ks, join_k, plan_of, wipe_both};
use decision::needed_k;
use refusals::Refusal;

mod sizes;
mod strings;
mod task;

// Makes the joined sets of k stand in the result; where k is 0 there is nothing to make.
fn stand_at(k: u64, t: &Task, res: &mut [u64], scratch: &mut [u64])
    requires { Ready t.now (length res.old) (length scratch.old) × (k ≤ 10) }
    ensures { KStands t.now k res.old scratch.old res.new scratch.new }
{
    if k == 0 {
        return;
    }
    join_k(
        k, t.limit, t.c, t.table, t.layout, t.links, t.ks, res, scratch,
    );
}

// The sizes of the trees whose k this is, or that one of them has too many states.
fn measure_k(k: u64, t: &Task, res: &[u64], sizes: &mut [usize; 128]) -> Result<(), Refusal>
    requires { (Planned t.now × AllStand t.now k res.now) × Long sizes.old }
    ensures { SizesPut (trees_of t.now) k t.now.layout.n t.now.ks.now sizes.old sizes.new result }
{
    for a in 0..t.layout.n {
        if t.ks[a] == k {
            let size = size_of_tree(t, res, k, a)?;
            sizes[a] = size;
        }
    }
    Ok(())
}

// The sizes of all trees, k by k, or that one of them has too many states.
fn measure_all(t: &Task, res: &mut [u64], scratch: &mut [u64]) -> Result<[usize; 128], Refusal>
    requires { Ready t.now (length res.old) (length scratch.old) }
    ensures { Measured t.now res.old scratch.old result res.new scratch.new }
{
    let mut sizes = [0usize; 128];
    for k in 0..11 {
        stand_at(k, t, res, scratch);
        measure_k(k, t, res, &mut sizes)?;
    }
    Ok(sizes)
}

// Writes the trees whose k this is, each at its place.
fn write_k(k: u64, t: &Task, res: &[u64], sizes: &[usize; 128], out: &mut [u8])
    requires { (Planned t.now × AllStand t.now k res.now) × Fitting (trees_of t.now) t.now.layout.n sizes.now (length out.old) }
    ensures { KWritten (trees_of t.now) t.now.layout.n k t.now.layout.n t.now.ks.now sizes.now out.old out.new }
{
    let room = out.len();
    for a in 0..t.layout.n {
        if t.ks[a] == k {
            let at = place_of(sizes, a, room);
            write_tree(t, res, k, a, out, at);
        }
    }
}

// Writes all trees, k by k.
fn write_all(t: &Task, res: &mut [u64], scratch: &mut [u64], sizes: &[usize; 128], out: &mut [u8])
    requires { Ready t.now (length res.old) (length scratch.old) × Fitting (trees_of t.now) t.now.layout.n sizes.now (length out.old) }
    ensures { Wrote t.now sizes.now out.old res.old scratch.old out.new res.new scratch.new }
{
    for k in 0..11 {
        stand_at(k, t, res, scratch);
        write_k(k, t, res, sizes, out);
    }
}

// The automata of a table all of whose nonterminals are decided: how many bytes they take, which are written, or why none is.
fn made(t: &Task, out: &mut [u8], res: &mut [u64], scratch: &mut [u64]) -> Result<usize, Refusal>
    requires { Ready t.now (length res.old) (length scratch.old) }
    ensures { Made t.now out.old res.old scratch.old result out.new res.new scratch.new }
{
    let sizes = measure_all(t, res, scratch)?;
    let bytes = total(&sizes, t.layout.n, out.len())?;
    write_all(t, res, scratch, &sizes, out);
    Ok(bytes)
}

// The same, and both buffers are wiped, whatever the answer.
fn on_trees(
    t: &Task,
    out: &mut [u8],
    res: &mut [u64],
    scratch: &mut [u64],
) -> Result<usize, Refusal>
    requires { Ready t.now (length res.old) (length scratch.old) }
    ensures { Done t.now out.old res.old scratch.old result out.new res.new scratch.new }
{
    let answer = made(t, out, res, scratch);
    wipe_both(t.limit, t.c, t.table, t.layout, t.links, res, scratch);
    answer
}

// Writes the decision automaton of each nonterminal of a table, in turn, for which k up to the limit and sets of c members are tried. Both buffers are worked in.
pub fn automata(
    limit: u64,
    c: u64,
    table: &[u8],
    out: &mut [u8],
    res: &mut [u64],
    scratch: &mut [u64],
) -> Result<usize, Refusal>
    ensures { Promised limit c table.now out.old res.old scratch.old (recorded result) out.new res.new scratch.new }
{
    let needed = needed_k(limit, c, table, res, scratch)?;
    let ks = all_ks(&needed.answers)?;
    let plan = plan_of(limit, c, table);
    let t = Task {
        limit,
        c,
        table,
        layout: plan.layout,
        links: &plan.links,
        ks: &ks,
    };
    on_trees(&t, out, res, scratch)
}
