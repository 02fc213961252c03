// The levels of FIRST: rounds up to the first that changes nothing, at 1, 2, .. and k, each level from the sets of the one before.
ghost use Rattle.std.specs.Prelude.{◌≡◌, [], ◌∷◌, ◌++◌, suc, ◌≤◌, ◌<◌, drop, replicate};
ghost use Rattle.k_tuple.specs.Strings.{eps as eps_str};
ghost use Rattle.k_tuples.specs.Blocks.{IsStored};
ghost use Rattle.blocks.specs.Stores.{Turned};
ghost use Rattle.first_theory.specs.Compute.{level, levels, first};
ghost use Rattle.first.specs.Steps.{Ready, ReadyBelow, Free, result_sets, old_sets, room};
ghost use Rattle.first.specs.Rounds.{Rules, grammar_in};
ghost use Rattle.first.specs.Levels.{Levelled, LevelsRun};

use crate::Setup;
use crate::due::due_after;
use crate::round::{Round, first_round};
use k_tuple::well::eps;
use refusals::Refusal;

// Rounds, up to the first whose sets equal those before it, which counts; at most n + 1.
pub fn first_level(
    res: &mut [u64],
    scratch: &mut [u64],
    u: Setup,
    at: usize,
    k: u64,
    words: &[u16],
) -> Result<u64, Refusal>
    requires { (Ready u k res.old scratch.old × Free u at) × Rules u words.now }
    ensures { Levelled u at k (level (room u) (grammar_in u words.now) k (old_sets u res.old)) result res.old scratch.old res.new scratch.new }
{
    let mut due = [true; 128];
    let mut same = [false; 128];
    for done in 0..u.n as u64 + 1 {
        match first_round(res, scratch, u, at, k, words, &due, &mut same)? {
            Round::Same => return Ok(done + 1),
            Round::Changed => due = due_after(words, u, &same),
        }
    }
    Err(Refusal::NotSettled)
}

// The rounds of level k, from the sets of a lower level: what is unfinished at k is counted first.
fn next_level(
    res: &mut [u64],
    scratch: &mut [u64],
    u: Setup,
    at: usize,
    k: u64,
    words: &[u16],
) -> Result<u64, Refusal>
    requires { (ReadyBelow u k res.old scratch.old × Free u at) × Rules u words.now }
    ensures { Levelled u at k (level (room u) (grammar_in u words.now) k (old_sets u res.old)) result res.old scratch.old res.new scratch.new }
{
    if k == 1 {
        return first_level(res, scratch, u, at, k, words);
    }
    blocks::raise(res, u.b, u.rsets, k);
    blocks::raise(scratch, u.b, u.ssets, k);
    first_level(res, scratch, u, at, k, words)
}

// Makes the set of each nonterminal {ε}.
fn start_sets(res: &mut [u64], u: Setup)
    requires { (IsStored 1 u.w u.b u.rsets res.old × (3 ≤ u.b)) × (((1 ≤ u.w) × (u.w ≤ 12)) × (u.n ≤ u.rsets)) }
    ensures { Turned 1 u.w u.b u.rsets (replicate u.n (eps_str ∷ []) ++ drop u.n (result_sets u res.old)) res.old res.new }
{
    for i in 0..u.n {
        blocks::put_single(res, eps(u.w), u.b, u.rsets, i, 1);
    }
}

// The number of the level behind i others.
fn level_after(i: usize) -> u64
    requires { i < 10 }
    ensures { result ≡ suc i }
{
    i as u64 + 1
}

// Levels 1 to k, from the sets as they stand. Tells the rounds of each level, and 0 for each unused one.
fn run_levels(
    res: &mut [u64],
    scratch: &mut [u64],
    u: Setup,
    at: usize,
    k: usize,
    words: &[u16],
) -> Result<[u64; 10], Refusal>
    requires { (Ready u 1 res.old scratch.old × Free u at) × (((1 ≤ k) × (k ≤ 10)) × Rules u words.now) }
    ensures { LevelsRun u at k (levels (room u) (grammar_in u words.now) k 0 (old_sets u res.old)) result res.old scratch.old res.new scratch.new }
{
    let mut rounds = [0; 10];
    for i in 0..k {
        rounds[i] = next_level(res, scratch, u, at, level_after(i), words)?;
    }
    Ok(rounds)
}

// FIRST of the nonterminals: the rounds of each level, and 0 for each unused one. Set at of the result is for the product in hand.
pub fn first_levels(
    res: &mut [u64],
    scratch: &mut [u64],
    u: Setup,
    at: usize,
    k: usize,
    words: &[u16],
) -> Result<[u64; 10], Refusal>
    requires { (Ready u 1 res.old scratch.old × Free u at) × (((1 ≤ k) × (k ≤ 10)) × Rules u words.now) }
    ensures { LevelsRun u at k (first (room u) (grammar_in u words.now) k) result res.old scratch.old res.new scratch.new }
{
    start_sets(res, u);
    run_levels(res, scratch, u, at, k, words)
}
