// Which k each nonterminal of a grammar needs.
#![tactic(auto)]

ghost use Rattle.std.specs.Prelude.{◌≡◌, ◌+◌, ◌*◌, ◌≤◌, length, take};
ghost use Rattle.analysis.specs.Analysis.{result_needs, scratch_needs};
ghost use Rattle.engine.specs.Call.{wiped};
ghost use Rattle.engine.specs.Steps.{grammar_in, Ready as EngineReady};
ghost use Rattle.decision.specs.Call.{refusal_in, refusals_in, ks_in, recorded, Promised};
ghost use Rattle.decision.specs.Steps.{Long, Says, Fit, Passing, Sought, held, Ready, SetsDone, Given, KDone, StandAt, AllDone, AnsweredAll, Sized, OnTable, grammar_of};

use crate::joins::join_all;
use crate::own::{begin, link_all};
use crate::pairs::decide;
use cfg::accept::read_grammar;
use cfg::table::{Shape, count_occurrences};
use engine::{lookahead_sets, wipe};
use k_tuples::set::index;
use refusals::Refusal;

pub mod joined;
mod joins;
mod own;
mod pairs;

// The productions of each nonterminal, linked in their order. Where there is none, the number of all productions stands.
#[derive(Clone, Copy)]
pub struct Links {
    // of each production its left side
    pub left: [usize; 512],
    // and the next production of the same left side
    pub next: [usize; 512],
    // of each nonterminal its first production
    pub first: [usize; 128],
}

// For each nonterminal its k, or why it has none, and k = 0 behind them. While k after k is tried, one that is open stands as if none served.
pub type KAnswers = [Result<u64, Refusal>; 128];

// What the call answers: how many nonterminals there are, and the answer for each.
#[derive(Clone, Copy)]
pub struct Needed {
    pub n: u64,
    pub answers: KAnswers,
}

// The grammar's nonterminals and productions; the result in blocks of b words, so many sets.
#[derive(Clone, Copy)]
pub struct Layout {
    pub n: usize,
    pub p: usize,
    pub b: usize,
    pub sets: usize,
}

// Whether no k has served yet and none was too large.
fn is_open(answer: Result<u64, Refusal>) -> bool
    ensures { Says result (refusal_in answer ≡ 22) }
{
    answer == Err(Refusal::NoneServes)
}

// Passes the engine's refusal on to the nonterminals that are open.
fn pass_on(answers: &mut KAnswers, n: usize)
    requires { (n ≤ 128) × Long answers.old }
    ensures passed { Passing n (refusals_in answers.old) (refusals_in answers.new) }
    ensures ks { ks_in answers.new ≡ ks_in answers.old }
{
    for a in 0..n {
        if is_open(answers[a]) {
            answers[a] = Err(Refusal::SetTooLarge);
        }
    }
}

// Whether some nonterminal is open.
fn some_open(answers: &KAnswers, n: usize) -> bool
    requires { n ≤ 128 }
    ensures { Sought n (refusals_in answers.now) result }
{
    for a in 0..n {
        if is_open(answers[a]) {
            return true;
        }
    }
    false
}

// Tries k by the sets that the engine left in the result: joins in place, and then the test of pairs.
fn try_sets(
    k: u64,
    u: Layout,
    links: &Links,
    res: &mut [u64],
    scratch: &mut [u64],
    answers: &mut KAnswers,
)
    requires { (Ready u k res.old (take u.b scratch.old) × Fit u links.now) × ((u.b ≤ length scratch.old) × Long answers.old) }
    ensures { SetsDone u links.now k (refusals_in answers.old) (ks_in answers.old) (refusals_in answers.new) (ks_in answers.new) res.old scratch.old res.new scratch.new }
{
    let b = u.b;
    join_all(res, &mut scratch[..b], u, links, k, answers);
    decide(res, u, links, k, answers);
}

// Tries k: one call of the engine, for all nonterminals.
fn try_k(
    k: u64,
    limit: u64,
    c: u64,
    table: &[u8],
    u: Layout,
    links: &Links,
    res: &mut [u64],
    scratch: &mut [u64],
    answers: &mut KAnswers,
)
    requires { (Given limit c table.now u links.now (length res.old) (length scratch.old) × ((1 ≤ k) × (k ≤ 10))) × Long answers.old }
    ensures { KDone c (grammar_of table.now) k (refusals_in answers.old) (ks_in answers.old) (refusals_in answers.new) (ks_in answers.new) res.old scratch.old res.new scratch.new }
{
    if lookahead_sets(k, c, table, res, scratch).is_err() {
        pass_on(answers, u.n);
        return;
    }
    try_sets(k, u, links, res, scratch, answers);
}

// Tries k = 1 up to the limit, while a nonterminal is open.
fn try_all(
    limit: u64,
    c: u64,
    table: &[u8],
    u: Layout,
    links: &Links,
    res: &mut [u64],
    scratch: &mut [u64],
    answers: &mut KAnswers,
)
    requires { Given limit c table.now u links.now (length res.old) (length scratch.old) × StandAt c (grammar_of table.now) 0 (refusals_in answers.old) (ks_in answers.old) }
    ensures { AllDone c (grammar_of table.now) limit (refusals_in answers.new) (ks_in answers.new) res.old scratch.old res.new scratch.new }
{
    for k in 1..=limit {
        if !some_open(answers, u.n) {
            return;
        }
        try_k(k, limit, c, table, u, links, res, scratch, answers);
    }
}

// Answers every nonterminal, in buffers that are wiped at the end.
fn answer_all(
    limit: u64,
    c: u64,
    table: &[u8],
    u: Layout,
    links: &Links,
    res: &mut [u64],
    scratch: &mut [u64],
) -> Needed
    requires { Given limit c table.now u links.now (length res.old) (length scratch.old) }
    ensures { AnsweredAll limit c (grammar_of table.now) res.old scratch.old (recorded (Ok result)) res.new scratch.new }
{
    let mut answers = begin(links, u.p, u.n);
    try_all(limit, c, table, u, links, res, scratch, &mut answers);
    wipe(res, u.sets * u.b);
    wipe(scratch, (2 * u.n + 4) * u.b);
    Needed {
        n: u.n as u64,
        answers,
    }
}

// The layout of a grammar's sets.
fn layout_of(limit: u64, c: u64, s: Shape, words: &[u16]) -> Layout
    requires { EngineReady limit c s words.now }
    ensures { Sized c (grammar_in s words.now) result }
{
    let n = usize::from(s.n);
    let p = usize::from(s.p);
    let q = count_occurrences(words, s.p);
    let b = 2 * index(c) + 1;
    let sets = 2 * n + p + q;
    Layout { n, p, b, sets }
}

// The answers for a grammar that was accepted.
fn on_grammar(
    limit: u64,
    c: u64,
    table: &[u8],
    s: Shape,
    words: &[u16],
    res: &mut [u64],
    scratch: &mut [u64],
) -> Result<Needed, Refusal>
    requires { (EngineReady limit c s words.now × OnTable limit c table.now) × (grammar_of table.now ≡ grammar_in s words.now) }
    ensures { Promised limit c table.now res.old scratch.old (recorded result) res.new scratch.new }
{
    let u = layout_of(limit, c, s, words);
    if res.len() < u.sets * u.b {
        return Err(Refusal::LentTooFew);
    }
    if scratch.len() < (2 * u.n + 4) * u.b {
        return Err(Refusal::LentTooFew);
    }
    let links = link_all(words, u.p);
    Ok(answer_all(limit, c, table, u, &links, res, scratch))
}

// The answers for a table, for a limit and c in range.
fn on_table(
    limit: u64,
    c: u64,
    table: &[u8],
    res: &mut [u64],
    scratch: &mut [u64],
) -> Result<Needed, Refusal>
    requires { ((1 ≤ limit) × (limit ≤ 10)) × ((1 ≤ c) × (c ≤ 1024)) }
    ensures { Promised limit c table.now res.old scratch.old (recorded result) res.new scratch.new }
{
    let mut words = [0u16; 5120];
    let read = read_grammar(table, &mut words)?;
    let end = usize::from(read.used);
    on_grammar(limit, c, table, read.shape, &words[..end], res, scratch)
}

// For each nonterminal of a table the smallest k up to the limit that it needs, with room for c members in each set. Both buffers are worked in.
pub fn needed_k(
    limit: u64,
    c: u64,
    table: &[u8],
    res: &mut [u64],
    scratch: &mut [u64],
) -> Result<Needed, Refusal>
    ensures { Promised limit c table.now res.old scratch.old (recorded result) res.new scratch.new }
{
    if limit < 1 {
        return Err(Refusal::KOutside);
    }
    if 10 < limit {
        return Err(Refusal::KOutside);
    }
    if c < 1 {
        return Err(Refusal::RoomOutside);
    }
    if 1024 < c {
        return Err(Refusal::RoomOutside);
    }
    on_table(limit, c, table, res, scratch)
}
