// Marking a hand-written prediction table: level by level, a level being the nonterminals that need one k, its rows are looked up in the joined sets of that k,
// and then the strings sought that have no row.
#![tactic(auto)]

ghost use Rattle.std.specs.Prelude.{◌≡◌, ◌*◌, ◌≤◌, length};
ghost use Rattle.marking.specs.Lines.{Stand, end_of};
ghost use Rattle.decision.specs.Steps.{Given, grammar_of};
ghost use Rattle.decision.specs.Onward.{Known};
ghost use Rattle.marking.specs.Call.{recorded, Promised, PassedOn};
ghost use Rattle.marking.specs.Levels.{AtLevel, Before, MadeStand, Turn, AllFound, told_of, RowsMarked};

pub use crate::answer::MarkError;
use crate::lack::{Missed, lack_all};
use crate::look::check_rows;
use decision::joined::{all_ks, join_k, plan_of, wipe_both};
use decision::{Layout, Links, needed_k};

pub mod answer;
mod bits;
mod lack;
mod look;

// What was found so far: the first bad row, or how many rows are whole; and the first string without a row.
// Kept: `bad` is a number. Rows are looked through up to it, found or not, and a row that is cut off is told by it too.
#[derive(Clone, Copy)]
pub struct Found {
    pub bad: usize,
    pub missed: Option<Missed>,
}

// Looks through level k, by the sets that stand in the result: the rows, and then the strings without a row.
fn mark_level(
    k: u64,
    u: Layout,
    links: &Links,
    ks: &[u64; 128],
    res: &[u64],
    rows: &[u64],
    f: Found,
) -> Found
    requires { Stand u links.now ks.now res.now × ((4 * f.bad ≤ length rows.now) × (end_of u.n f.missed ≤ u.n)) }
    ensures { AtLevel k u links.now ks.now res.now rows.now f result }
{
    let mut marks = [0u64; 8192];
    let bad = check_rows(k, u, links, ks, res, &mut marks, rows, f.bad);
    let missed = lack_all(k, u, links, ks, res, &marks, f.missed);
    Found { bad, missed }
}

// Makes the sets of level k stand in the result; there are none at level 0.
fn stand_at(
    k: u64,
    limit: u64,
    c: u64,
    table: &[u8],
    u: Layout,
    links: &Links,
    ks: &[u64; 128],
    res: &mut [u64],
    scratch: &mut [u64],
)
    requires { ((Given limit c table.now u links.now (length res.old) (length scratch.old) × (k ≤ 10)) × Known limit c (grammar_of table.now) ks.now) × Before (grammar_of table.now) u k res.old }
    ensures { MadeStand c (grammar_of table.now) u k links.now ks.now res.old scratch.old res.new scratch.new }
{
    if k == 0 {
        return;
    }
    join_k(k, limit, c, table, u, links, ks, res, scratch);
}

// Looks through level k.
fn turn(
    k: u64,
    limit: u64,
    c: u64,
    table: &[u8],
    u: Layout,
    links: &Links,
    ks: &[u64; 128],
    rows: &[u64],
    res: &mut [u64],
    scratch: &mut [u64],
    f: Found,
) -> Found
    requires { (((Given limit c table.now u links.now (length res.old) (length scratch.old) × (k ≤ 10)) × Known limit c (grammar_of table.now) ks.now) × Before (grammar_of table.now) u k res.old) × ((4 * f.bad ≤ length rows.now) × (end_of u.n f.missed ≤ u.n)) }
    ensures { Turn c (grammar_of table.now) u k ks.now rows.now f result res.old scratch.old res.new scratch.new }
{
    stand_at(k, limit, c, table, u, links, ks, res, scratch);
    mark_level(k, u, links, ks, res, rows, f)
}

// Looks through all levels.
fn find_all(
    limit: u64,
    c: u64,
    table: &[u8],
    u: Layout,
    links: &Links,
    ks: &[u64; 128],
    rows: &[u64],
    res: &mut [u64],
    scratch: &mut [u64],
) -> Found
    requires { (Given limit c table.now u links.now (length res.old) (length scratch.old) × Known limit c (grammar_of table.now) ks.now) × Before (grammar_of table.now) u 0 res.old }
    ensures { AllFound c (grammar_of table.now) u ks.now rows.now result res.old scratch.old res.new scratch.new }
{
    let mut f = Found {
        bad: rows.len() / 4,
        missed: None,
    };
    for k in 0..11 {
        f = turn(k, limit, c, table, u, links, ks, rows, res, scratch, f);
    }
    f
}

// What was found in so many words of rows, as the answer.
fn told(f: Found, words: usize) -> Result<(), MarkError>
    requires { 4 * f.bad ≤ words }
    ensures told { recorded result ≡ told_of words f }
    ensures passed { PassedOn result }
{
    if 4 * f.bad < words {
        return Err(MarkError::BadRow(f.bad as u64));
    }
    if let Some(m) = f.missed {
        return Err(MarkError::Missing {
            nonterminal: m.nonterminal as u64,
            string: m.string,
        });
    }
    Ok(())
}

// Marks the rows for a table all of whose nonterminals are decided.
fn on_rows(
    limit: u64,
    c: u64,
    table: &[u8],
    u: Layout,
    links: &Links,
    ks: &[u64; 128],
    rows: &[u64],
    res: &mut [u64],
    scratch: &mut [u64],
) -> Result<(), MarkError>
    requires { (Given limit c table.now u links.now (length res.old) (length scratch.old) × Known limit c (grammar_of table.now) ks.now) × Before (grammar_of table.now) u 0 res.old }
    ensures marked { RowsMarked c (grammar_of table.now) rows.now res.old scratch.old (recorded result) res.new scratch.new }
    ensures passed { PassedOn result }
{
    let f = find_all(limit, c, table, u, links, ks, rows, res, scratch);
    wipe_both(limit, c, table, u, links, res, scratch);
    told(f, rows.len())
}

// Marks a prediction table, four words a row: a nonterminal, a string's two words, low word first, and a production. For each nonterminal k up to the limit
// and sets of c members are tried. Both buffers are worked in.
pub fn mark(
    limit: u64,
    c: u64,
    table: &[u8],
    rows: &[u64],
    res: &mut [u64],
    scratch: &mut [u64],
) -> Result<(), MarkError>
    ensures promised { Promised limit c table.now rows.now res.old scratch.old (recorded result) res.new scratch.new }
    ensures passed { PassedOn result }
{
    let needed = needed_k(limit, c, table, res, scratch)?;
    let ks = all_ks(&needed.answers)?;
    let plan = plan_of(limit, c, table);
    let links = plan.links;
    on_rows(
        limit,
        c,
        table,
        plan.layout,
        &links,
        &ks,
        rows,
        res,
        scratch,
    )
}
