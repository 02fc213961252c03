// The engine's call, and asking for one set of its result.
#![tactic(auto)]

ghost use Rattle.std.specs.Prelude.{◌≡◌, ◌+◌, ◌*◌, ◌≤◌, ◌<◌, length};
ghost use Rattle.cfg.specs.Write.{Bytes};
ghost use Rattle.analysis.specs.Analysis.{result_needs};
ghost use Rattle.engine.specs.Call.{record_of, wiped, Promised};
ghost use Rattle.engine.specs.Steps.{grammar_in, Ready, Enough, Clean, Ran, Worked, Asked};
ghost use Rattle.engine.specs.Runs.{setup_of, Begun, RestRan};

use cfg::accept::read_grammar;
use cfg::table::{Shape, count_occurrences};
use first::Setup;
use first::level::first_levels;
use first::production::first_productions;
use follow::follow_all;
use k_tuple::parts::width_for;
use k_tuples::set::index;
use refusals::Refusal;

pub mod ask;

// What the call answers: the grammar's sizes; the width of its strings; the rounds of each level, 0 for a level that was not run; the rounds
// of FOLLOW.
#[derive(Clone, Copy, Debug, PartialEq, Eq)]
pub struct Lookahead {
    pub n: u64,
    pub p: u64,
    pub q: u64,
    pub width: u64,
    pub rounds: [u64; 10],
    pub follow: u64,
}

// The first words become zero.
pub fn wipe(words: &mut [u64], needed: usize)
    requires { needed ≤ length words.old }
    ensures { words.new ≡ wiped needed words.old }
{
    k_tuples::set::clear(&mut words[..needed]);
}

// The words that so many sets take.
fn needs(sets: usize, c: usize) -> usize
    requires { (sets ≤ 4864) × (c ≤ 1024) }
    ensures { result ≡ sets * (2 * c + 1) }
{
    sets * (2 * c + 1)
}

// The words that the result needs.
fn result_needs(k: u64, c: usize, s: Shape, words: &[u16]) -> usize
    requires { Ready k c s words.now }
    ensures { result ≡ result_needs c (grammar_in s words.now) }
{
    let q = count_occurrences(words, s.p);
    needs(2 * usize::from(s.n) + usize::from(s.p) + q, c)
}

// The words that the scratch needs.
fn scratch_needs(c: usize, s: Shape) -> usize
    requires { (s.n ≤ 128) × (c ≤ 1024) }
    ensures { result ≡ (2 * s.n + 4) * (2 * c + 1) }
{
    needs(2 * usize::from(s.n) + 4, c)
}

// The numbers and sizes by which FIRST and FOLLOW are worked out.
fn setup(c: usize, s: Shape, q: usize) -> Setup
    requires { (s.n ≤ 128) × ((s.t ≤ 4089) × ((s.p ≤ 512) × ((q ≤ 4096) × (c ≤ 1024)))) }
    ensures { result ≡ setup_of c s q }
{
    let n = usize::from(s.n);
    let t = usize::from(s.t);
    let start = usize::from(s.start);
    let p = usize::from(s.p);
    let b = 2 * c + 1;
    let rsets = 2 * n + p + q;
    let ssets = 2 * n + 4;
    let w = width_for(t as u64 + 5);
    Setup {
        n,
        t,
        start,
        p,
        b,
        rsets,
        ssets,
        w,
    }
}

// The work behind FIRST of the nonterminals: the productions' sets, FOLLOW, and the positions.
fn run_rest(
    k: u64,
    u: Setup,
    q: usize,
    rounds: [u64; 10],
    words: &[u16],
    res: &mut [u64],
    scratch: &mut [u64],
) -> Result<Lookahead, Refusal>
    requires { Begun u k words.now res.old scratch.old }
    ensures { RestRan u k q rounds words.now res.old scratch.old (record_of result) res.new scratch.new }
{
    first_productions(res, scratch, u, k, words)?;
    let follow = follow_all(res, scratch, u, k, words)?;
    Ok(Lookahead {
        n: u.n as u64,
        p: u.p as u64,
        q: q as u64,
        width: u.w,
        rounds,
        follow,
    })
}

// The work, in buffers whose needed words are zero.
fn run(
    k: u64,
    c: usize,
    s: Shape,
    words: &[u16],
    res: &mut [u64],
    scratch: &mut [u64],
) -> Result<Lookahead, Refusal>
    requires { Ready k c s words.now × Clean c (grammar_in s words.now) res.old scratch.old }
    ensures { Ran k c (grammar_in s words.now) res.old scratch.old (record_of result) res.new scratch.new }
{
    let q = count_occurrences(words, s.p);
    let u = setup(c, s, q);
    let at = u.n + u.p;
    let rounds = first_levels(res, scratch, u, at, index(k), words)?;
    run_rest(k, u, q, rounds, words, res, scratch)
}

// The work, in buffers that are wiped first. So many words are needed.
fn run_clean(
    k: u64,
    c: usize,
    s: Shape,
    needed: usize,
    spare: usize,
    words: &[u16],
    res: &mut [u64],
    scratch: &mut [u64],
) -> Result<Lookahead, Refusal>
    requires { Ready k c s words.now × Enough c (grammar_in s words.now) needed spare res.old scratch.old }
    ensures { Ran k c (grammar_in s words.now) (wiped needed res.old) (wiped spare scratch.old) (record_of result) res.new scratch.new }
{
    wipe(res, needed);
    wipe(scratch, spare);
    run(k, c, s, words, res, scratch)
}

// The work, after which the scratch is wiped, and the result too where there is a refusal.
fn analysed(
    k: u64,
    c: usize,
    s: Shape,
    needed: usize,
    spare: usize,
    words: &[u16],
    res: &mut [u64],
    scratch: &mut [u64],
) -> Result<Lookahead, Refusal>
    requires { Ready k c s words.now × Enough c (grammar_in s words.now) needed spare res.old scratch.old }
    ensures { Worked k c (grammar_in s words.now) res.old scratch.old (record_of result) res.new scratch.new }
{
    let answer = run_clean(k, c, s, needed, spare, words, res, scratch);
    wipe(scratch, spare);
    if answer.is_err() {
        wipe(res, needed);
    }
    answer
}

// The analysis of a grammar that was accepted.
fn on_grammar(
    k: u64,
    c: usize,
    s: Shape,
    words: &[u16],
    res: &mut [u64],
    scratch: &mut [u64],
) -> Result<Lookahead, Refusal>
    requires { Ready k c s words.now }
    ensures { Asked k c (grammar_in s words.now) res.old scratch.old (record_of result) res.new scratch.new }
{
    let needed = result_needs(k, c, s, words);
    if res.len() < needed {
        return Err(Refusal::LentTooFew);
    }
    let spare = scratch_needs(c, s);
    if scratch.len() < spare {
        return Err(Refusal::LentTooFew);
    }
    analysed(k, c, s, needed, spare, words, res, scratch)
}

// The analysis of a table, for k and c in range.
fn on_table(
    k: u64,
    c: usize,
    table: &[u8],
    res: &mut [u64],
    scratch: &mut [u64],
) -> Result<Lookahead, Refusal>
    requires { ((1 ≤ k) × (k ≤ 10)) × ((1 ≤ c) × (c ≤ 1024)) }
    ensures { Promised k c table.now res.old scratch.old (record_of result) res.new scratch.new }
{
    let mut words = [0u16; 5120];
    let read = read_grammar(table, &mut words)?;
    let used = &words[..usize::from(read.used)];
    on_grammar(k, c, read.shape, used, res, scratch)
}

// FIRST and FOLLOW of a table at k, with room for c members in each set: the sets go to `res`, `scratch` is worked in.
pub fn lookahead_sets(
    k: u64,
    c: u64,
    table: &[u8],
    res: &mut [u64],
    scratch: &mut [u64],
) -> Result<Lookahead, Refusal>
    ensures promised { Promised k c table.now res.old scratch.old (record_of result) res.new scratch.new }
    ensures bytes { Bytes table.now }
{
    if k < 1 || 10 < k {
        return Err(Refusal::KOutside);
    }
    if c < 1 || 1024 < c {
        return Err(Refusal::RoomOutside);
    }
    on_table(k, index(c), table, res, scratch)
}
