// FIRST of a right side: its parts joined from left to right, each join made in the scratch and taken over as the product in hand. The first part
// is the first product, and where every string in hand is complete the parts that are left change nothing.
ghost use Rattle.std.specs.Prelude.{◌≡◌, map, ◌+◌, ◌/◌, ◌≤◌, ◌<◌, length, take, drop};
ghost use Rattle.k_tuple.specs.Packed.{packed};
ghost use Rattle.k_tuples.specs.States.{set_of};
ghost use Rattle.k_tuples.specs.Work.{within};
ghost use Rattle.cfg.specs.Written.{symbol_of};
ghost use Rattle.first_theory.specs.First.{run as run_part, single, parts};
ghost use Rattle.first_theory.specs.Compute.{str, part_set, join_parts, right_side};
ghost use Rattle.first.specs.Codes.{half, part_length, part_of, AllSlots};
ghost use Rattle.first.specs.Steps.{Ready, Free, Symbols, PartIn, InWork, Placed, Made, part_join, result_sets, old_sets, room};

use crate::Setup;
use blocks::{block, copy_block, is_complete, join_into, put_single, single};
use k_tuple::Terminals;
use k_tuple::well::{cut, eps, push};
use k_tuples::set::{Grown, index};
use refusals::Refusal;

// The number of a symbol, as an index and as a terminal.
fn index_of(code: u16) -> usize
    ensures { result ≡ code / 2 }
{
    usize::from(code / 2)
}

fn terminal_of(code: u16) -> u64
    ensures { result ≡ code / 2 }
{
    u64::from(code / 2)
}

// The first k terminals of a run, as one string of width w.
fn run_string(run: &[u16], k: u64, w: u64) -> Terminals
    requires { ((1 ≤ k) × (k ≤ 10)) × (((1 ≤ w) × (w ≤ 12)) × ((1 ≤ length run.now) × AllSlots w (map half run.now))) }
    ensures { result ≡ packed w (str (take k (map half run.now))) }
{
    let mut s = cut(eps(w), 0);
    for i in 0..index(k).min(run.len()) {
        s = push(s, terminal_of(run[i]));
    }
    s
}

// Where the part ends that begins at j: behind one nonterminal, or behind the terminals that stand together.
fn part_end(right: &[u16], j: usize) -> usize
    requires { j < length right.now }
    ensures { (result ≡ j + part_length (drop j right.now)) × ((j < result) × (result ≤ length right.now)) }
{
    if right[j] % 2 == 0 {
        return j + 1;
    }
    for end in j + 1..right.len() {
        if right[end] % 2 == 0 {
            return end;
        }
    }
    right.len()
}

// Joins the product in hand with the set of nonterminal i.
fn join_nonterminal(
    scratch: &mut [u64],
    res: &[u64],
    u: Setup,
    at: usize,
    k: u64,
    i: usize,
) -> Result<Grown, Refusal>
    requires { (Ready u k res.now scratch.old × Free u at) × PartIn u (single i) }
    ensures { InWork u k u.n 0 (part_join u at k res.now (single i)) result scratch.old scratch.new }
{
    let x = block(res, u.b, at);
    let y = block(res, u.b, i);
    join_into(scratch, x, y, u.b, u.ssets, u.n, k)
}

// Joins the product in hand with a run of terminals.
fn join_run(
    scratch: &mut [u64],
    res: &[u64],
    u: Setup,
    at: usize,
    k: u64,
    part: &[u16],
) -> Result<Grown, Refusal>
    requires { (Ready u k res.now scratch.old × Free u at) × ((1 ≤ length part.now) × PartIn u (run_part (map half part.now))) }
    ensures { InWork u k u.n 0 (part_join u at k res.now (run_part (map half part.now))) result scratch.old scratch.new }
{
    let x = block(res, u.b, at);
    let one = single(run_string(part, k, u.w), k);
    join_into(scratch, x, &one, u.b, u.ssets, u.n, k)
}

// Joins the product in hand with a part.
fn join_codes(
    scratch: &mut [u64],
    res: &[u64],
    u: Setup,
    at: usize,
    k: u64,
    part: &[u16],
) -> Result<Grown, Refusal>
    requires { (Ready u k res.now scratch.old × Free u at) × ((1 ≤ length part.now) × PartIn u (part_of part.now)) }
    ensures { InWork u k u.n 0 (part_join u at k res.now (part_of part.now)) result scratch.old scratch.new }
{
    let code = part[0];
    if code % 2 == 0 {
        return join_nonterminal(scratch, res, u, at, k, index_of(code));
    }
    join_run(scratch, res, u, at, k, part)
}

// The product in hand joined with a part, as the new product in hand. Refuses one that is too large.
fn join_part(
    res: &mut [u64],
    scratch: &mut [u64],
    u: Setup,
    at: usize,
    k: u64,
    part: &[u16],
) -> Result<(), Refusal>
    requires { (Ready u k res.old scratch.old × Free u at) × ((1 ≤ length part.now) × PartIn u (part_of part.now)) }
    ensures { Made u at k (within (room u) (part_join u at k res.old (part_of part.now))) result res.old scratch.old res.new scratch.new }
{
    join_codes(scratch, res, u, at, k, part)?;
    copy_block(res, scratch, u.b, u.rsets, u.ssets, u.n, at);
    Ok(())
}

// The product in hand joined with the parts of a right side, from left to right. Refuses a product that is too large.
fn join_parts(
    res: &mut [u64],
    scratch: &mut [u64],
    u: Setup,
    at: usize,
    k: u64,
    right: &[u16],
) -> Result<(), Refusal>
    requires { (Ready u k res.old scratch.old × Free u at) × Symbols u (map symbol_of right.now) }
    ensures { Made u at k (join_parts (room u) k (old_sets u res.old) (set_of (result_sets u res.old) at) (parts (map symbol_of right.now))) result res.old scratch.old res.new scratch.new }
{
    let mut j = 0;
    while j < right.len() {
        if is_complete(res, u.b, u.rsets, at, k) {
            return Ok(());
        }
        let end = part_end(right, j);
        join_part(res, scratch, u, at, k, &right[j..end])?;
        j = end;
    }
    Ok(())
}

// Makes set at of the result a copy of set i, by way of the scratch: two parts of one slice cannot be lent at once.
fn put_nonterminal(res: &mut [u64], scratch: &mut [u64], u: Setup, at: usize, k: u64, i: usize)
    requires { (Ready u k res.old scratch.old × Free u at) × PartIn u (single i) }
    ensures { Placed u at k (part_set k (old_sets u res.old) (single i)) res.old scratch.old res.new scratch.new }
{
    copy_block(scratch, res, u.b, u.ssets, u.rsets, i, u.n);
    copy_block(res, scratch, u.b, u.rsets, u.ssets, u.n, at);
}

// Makes set at of the result the set of a run of terminals.
fn put_run(res: &mut [u64], scratch: &mut [u64], u: Setup, at: usize, k: u64, part: &[u16])
    requires { (Ready u k res.old scratch.old × Free u at) × ((1 ≤ length part.now) × PartIn u (run_part (map half part.now))) }
    ensures { Placed u at k (part_set k (old_sets u res.old) (run_part (map half part.now))) res.old scratch.old res.new scratch.new }
{
    put_single(res, run_string(part, k, u.w), u.b, u.rsets, at, k);
}

// Makes set at of the result the set of a part.
fn put_codes(res: &mut [u64], scratch: &mut [u64], u: Setup, at: usize, k: u64, part: &[u16])
    requires { (Ready u k res.old scratch.old × Free u at) × ((1 ≤ length part.now) × PartIn u (part_of part.now)) }
    ensures { Placed u at k (part_set k (old_sets u res.old) (part_of part.now)) res.old scratch.old res.new scratch.new }
{
    let code = part[0];
    if code % 2 == 0 {
        put_nonterminal(res, scratch, u, at, k, index_of(code));
        return;
    }
    put_run(res, scratch, u, at, k, part);
}

// The product of a right side that has a part: the first part is in hand at once, and the others are joined to it.
fn first_of_parts(
    res: &mut [u64],
    scratch: &mut [u64],
    u: Setup,
    at: usize,
    k: u64,
    right: &[u16],
) -> Result<(), Refusal>
    requires { (Ready u k res.old scratch.old × Free u at) × (Symbols u (map symbol_of right.now) × (1 ≤ length right.now)) }
    ensures { Made u at k (right_side (room u) k (old_sets u res.old) (map symbol_of right.now)) result res.old scratch.old res.new scratch.new }
{
    let end = part_end(right, 0);
    put_codes(res, scratch, u, at, k, &right[..end]);
    join_parts(res, scratch, u, at, k, &right[end..])
}

// Makes set at of the result the product of the parts of a right side, {ε} where there are none. Refuses a product that is too large.
pub fn first_of_right_side(
    res: &mut [u64],
    scratch: &mut [u64],
    u: Setup,
    at: usize,
    k: u64,
    right: &[u16],
) -> Result<(), Refusal>
    requires { (Ready u k res.old scratch.old × Free u at) × Symbols u (map symbol_of right.now) }
    ensures { Made u at k (right_side (room u) k (old_sets u res.old) (map symbol_of right.now)) result res.old scratch.old res.new scratch.new }
{
    if 0 < right.len() {
        return first_of_parts(res, scratch, u, at, k, right);
    }
    put_single(res, eps(u.w), u.b, u.rsets, at, k);
    Ok(())
}
