// The productions of each nonterminal, linked in their order, and how the nonterminals stand before any k is tried.
ghost use Rattle.std.specs.Prelude.{◌≡◌, ◌+◌, ◌≤◌, ◌<◌, replicate};
ghost use Rattle.cfg.specs.Words.{Sound};
ghost use Rattle.cfg.specs.Written.{productions_of};
ghost use Rattle.decision.specs.Call.{refusal_in, k_in, refusals_in, ks_in};
ghost use Rattle.decision.specs.Own.{Linked, LinkedFrom, Sided, AllLinked, LinkedOne, Begun, AllBegun};

use crate::{KAnswers, Links};
use cfg::table::span_at;
use refusals::Refusal;

// The left side of each production, and no links.
fn left_sides(words: &[u16], p: usize) -> Links
    requires { Sound 128 p words.now × (p ≤ 512) }
    ensures { Sided (productions_of p words.now) p result }
{
    let mut links = Links {
        left: [0; 512],
        next: [p; 512],
        first: [p; 128],
    };
    let mut at = 0;
    for i in 0..p {
        let span = span_at(words, at);
        links.left[i] = usize::from(span.left);
        at = span.to;
    }
    links
}

// Links production i, where those behind it are linked: it becomes the first of its left side, before the one that was.
fn link_one(links: &mut Links, p: usize, i: usize)
    requires { LinkedFrom links.old p (i + 1) × (i < p) }
    ensures { LinkedOne links.old p i links.new }
{
    let a = links.left[i];
    links.next[i] = links.first[a];
    links.first[a] = i;
}

// The productions of a table's words, linked, from the last to the first.
pub fn link_all(words: &[u16], p: usize) -> Links
    requires { Sound 128 p words.now × (p ≤ 512) }
    ensures { AllLinked (productions_of p words.now) p result }
{
    let mut links = left_sides(words, p);
    for i in (0..p).rev() {
        link_one(&mut links, p, i);
    }
    links
}

// What a begins with: k = 0 where it has one production, else it is open.
fn begin_one(links: &Links, p: usize, a: usize) -> Result<u64, Refusal>
    requires { Linked links.now p × (a < 128) }
    ensures begun { Begun links.now p a (refusal_in result) }
    ensures k { k_in result ≡ 0 }
{
    let i = links.first[a];
    if p <= i {
        return Err(Refusal::NoneServes);
    }
    let j = links.next[i];
    if j < p {
        return Err(Refusal::NoneServes);
    }
    Ok(0)
}

// What each of n nonterminals begins with.
pub fn begin(links: &Links, p: usize, n: usize) -> KAnswers
    requires { Linked links.now p × (n ≤ 128) }
    ensures begun { AllBegun links.now p n (refusals_in result) }
    ensures ks { ks_in result ≡ replicate 128 0 }
{
    let mut answers = [Ok(0u64); 128];
    for a in 0..n {
        answers[a] = begin_one(links, p, a);
    }
    answers
}
