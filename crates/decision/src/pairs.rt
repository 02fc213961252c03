// Whether the joined sets of a nonterminal are pairwise disjoint, and then its k.
ghost use Rattle.std.specs.Prelude.{◌≡◌, ◌+◌, ◌<◌};
ghost use Rattle.k_tuples.specs.Sets.{disjoint as disjoint_sets};
ghost use Rattle.blocks.specs.Stores.{Sets};
ghost use Rattle.decision.specs.Call.{refusals_in, ks_in};
ghost use Rattle.decision.specs.Steps.{Long, Fit, held, production_set, Says, ApartFrom, Apart, DecidedOne, Deciding};

use crate::{KAnswers, Layout, Links, is_open};
use blocks::block;

// Whether the sets of productions i and j have no string in common.
fn apart_two(res: &[u64], u: Layout, i: usize, j: usize) -> bool
    requires { Sets u.b u.sets res.now × ((u.n + i < u.sets) × (u.n + j < u.sets)) }
    ensures { result ≡ disjoint_sets (production_set u (held u res.now) i) (production_set u (held u res.now) j) }
{
    k_tuples::set::disjoint(block(res, u.b, u.n + i), block(res, u.b, u.n + j))
}

// Whether production i's set has no string in common with that of a later one of the same left side. These are linked, and no other is looked at.
fn apart_behind(res: &[u64], u: Layout, links: &Links, i: usize) -> bool
    requires { (Sets u.b u.sets res.now × Fit u links.now) × (i < u.p) }
    ensures { Says result (ApartFrom u links.now (held u res.now) i (i + 1) u.p) }
{
    let p = u.p;
    let mut j = links.next[i];
    while j < p {
        if !apart_two(res, u, i, j) {
            return false;
        }
        j = links.next[j];
    }
    true
}

// Whether the sets of a's productions are pairwise disjoint.
fn apart_own(res: &[u64], u: Layout, links: &Links, a: usize) -> bool
    requires { (Sets u.b u.sets res.now × Fit u links.now) × (a < u.n) }
    ensures { Says result (Apart u links.now (held u res.now) a) }
{
    let p = u.p;
    let mut i = links.first[a];
    while i < p {
        if !apart_behind(res, u, links, i) {
            return false;
        }
        i = links.next[i];
    }
    true
}

// Gives a its k where it is open and k serves.
fn decide_one(res: &[u64], u: Layout, links: &Links, k: u64, a: usize, answers: &mut KAnswers)
    requires { (Sets u.b u.sets res.now × Fit u links.now) × ((a < u.n) × Long answers.old) }
    ensures { DecidedOne u links.now k a (held u res.now) (refusals_in answers.old) (ks_in answers.old) (refusals_in answers.new) (ks_in answers.new) }
{
    if is_open(answers[a]) {
        if apart_own(res, u, links, a) {
            answers[a] = Ok(k);
        }
    }
}

// Gives each nonterminal its k that is open and that k serves.
pub fn decide(res: &[u64], u: Layout, links: &Links, k: u64, answers: &mut KAnswers)
    requires { (Sets u.b u.sets res.now × Fit u links.now) × Long answers.old }
    ensures { Deciding u links.now k u.n (held u res.now) (refusals_in answers.old) (ks_in answers.old) (refusals_in answers.new) (ks_in answers.new) }
{
    for a in 0..u.n {
        decide_one(res, u, links, k, a, answers);
    }
}
