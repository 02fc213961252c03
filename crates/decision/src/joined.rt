// For calls that go on from what `needed_k` answered: every k or the first refusal, the table's layout and links, the joined sets of the nonterminals that need one k,
// which `needed_k` worked out and did not keep, and the wiping at the end.
ghost use Rattle.std.specs.Prelude.{◌≡◌, ◌≤◌, length};
ghost use Rattle.cfg.specs.Written.{productions_of};
ghost use Rattle.engine.specs.Steps.{grammar_in, Ready as EngineReady};
ghost use Rattle.decision.specs.Call.{refusals_in};
ghost use Rattle.decision.specs.Own.{AllLinked};
ghost use Rattle.decision.specs.Steps.{Long, Given, Sized, OnTable, grammar_of};
ghost use Rattle.decision.specs.Onward.{AllKs, Known, Prepared, Marked, KJoined, Wiped};

use crate::joins::join_all;
use crate::own::link_all;
use crate::{KAnswers, Layout, Links, layout_of, some_open};
use cfg::accept::read_grammar;
use cfg::table::Shape;
use engine::{lookahead_sets, wipe};
use refusals::Refusal;

// How a table's sets lie in the result, and its productions linked by their left sides.
#[derive(Clone, Copy)]
pub struct Plan {
    pub layout: Layout,
    pub links: Links,
}

// Each nonterminal's k, where all have one; else why the lowest of those that have none has none.
pub fn all_ks(answers: &KAnswers) -> Result<[u64; 128], Refusal>
    requires { Long answers.now }
    ensures { AllKs answers.now result }
{
    let mut ks = [0u64; 128];
    for a in 0..128 {
        ks[a] = answers[a]?;
    }
    Ok(ks)
}

// The plan of a grammar in words.
fn plan_in(limit: u64, c: u64, s: Shape, words: &[u16]) -> Plan
    requires { EngineReady limit c s words.now }
    ensures { Sized c (grammar_in s words.now) result.layout × AllLinked (productions_of result.layout.p words.now) result.layout.p result.links }
{
    let layout = layout_of(limit, c, s, words);
    let links = link_all(words, layout.p);
    Plan { layout, links }
}

// A plan of no productions.
fn no_plan() -> Plan {
    let layout = Layout {
        n: 0,
        p: 0,
        b: 0,
        sets: 0,
    };
    let links = Links {
        left: [0; 512],
        next: [0; 512],
        first: [0; 128],
    };
    Plan { layout, links }
}

// The plan of a table that was accepted; no other comes here.
pub fn plan_of(limit: u64, c: u64, table: &[u8]) -> Plan
    requires { OnTable limit c table.now }
    ensures { Prepared limit c table.now result.layout result.links }
{
    let mut words = [0u16; 5120];
    let Ok(read) = read_grammar(table, &mut words) else {
        return no_plan();
    };
    let end = usize::from(read.used);
    plan_in(limit, c, read.shape, &words[..end])
}

// Marks those of n nonterminals whose k this is as open.
fn marks_of(ks: &[u64; 128], n: usize, k: u64) -> KAnswers
    requires { n ≤ 128 }
    ensures { Marked n k ks.now (refusals_in result) }
{
    let mut marks = [Ok(0u64); 128];
    for a in 0..n {
        if ks[a] == k {
            marks[a] = Err(Refusal::NoneServes);
        }
    }
    marks
}

// Makes the joined sets of the nonterminals whose k this is, where their productions' sets stand in the result. Where there are none, nothing is done.
pub fn join_k(
    k: u64,
    limit: u64,
    c: u64,
    table: &[u8],
    u: Layout,
    links: &Links,
    ks: &[u64; 128],
    res: &mut [u64],
    scratch: &mut [u64],
)
    requires { (Given limit c table.now u links.now (length res.old) (length scratch.old) × ((1 ≤ k) × (k ≤ 10))) × Known limit c (grammar_of table.now) ks.now }
    ensures { KJoined limit c k (grammar_of table.now) u ks.now res.old scratch.old res.new scratch.new }
{
    let mut marks = marks_of(ks, u.n, k);
    if !some_open(&marks, u.n) {
        return;
    }
    // a k that serves was not refused
    let _ = lookahead_sets(k, c, table, res, scratch);
    let b = u.b;
    join_all(res, &mut scratch[..b], u, links, k, &mut marks);
}

// Both buffers become zero where they were worked in.
pub fn wipe_both(
    limit: u64,
    c: u64,
    table: &[u8],
    u: Layout,
    links: &Links,
    res: &mut [u64],
    scratch: &mut [u64],
)
    requires { Given limit c table.now u links.now (length res.old) (length scratch.old) }
    ensures { Wiped c (grammar_of table.now) res.old scratch.old res.new scratch.new }
{
    wipe(res, u.sets * u.b);
    wipe(scratch, (2 * u.n + 4) * u.b);
}
