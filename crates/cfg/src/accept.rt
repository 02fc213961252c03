// Which grammars are accepted: the tests behind the table's reader.
ghost use Rattle.std.specs.Prelude.{◌≡◌, ◌≤◌, ◌<◌, false, not, ◌&&◌, map, length, get_or};
ghost use Rattle.cfg.specs.Written.{symbol_of};
ghost use Rattle.cfg.specs.Words.{Below};
ghost use Rattle.cfg.specs.Corners.{leading, visit, walk, left_recursive};
ghost use Rattle.cfg.specs.Table.{table_says, TableSound};
ghost use Rattle.cfg.specs.Productions.{productions_in};
ghost use Rattle.cfg.specs.Accept.{unproductive, test_refusal, tests_say, accept_table};
ghost use Rattle.cfg.specs.Closure.{all_marked, close_round, closure};

use crate::grammar::Productions;
use crate::table::{Table, read_table};
use refusals::Refusal;

// Marks all that chains of left corners reach from `a`, at most `depth` deep; what is marked already is passed over.
#[cycle(visit_corners_walk_from)]
fn walk_from(ps: &Productions, nullable: &[bool; 128], a: u16, depth: u16, marks: &mut [bool; 128])
    ensures { marks.new ≡ walk nullable.now (productions_in ps.now) depth a marks.old }
{
    if depth == 0 {
        return;
    }
    for q in *ps {
        if q.left == a {
            visit_corners(ps, nullable, q.right, depth - 1, marks);
        }
    }
}

// Goes through a right side as far as it is nullable, and walks from each nonterminal there. Out of line, it leaves the search for a's productions short.
#[cycle(visit_corners_walk_from)]
#[inline(never)]
fn visit_corners(
    ps: &Productions,
    nullable: &[bool; 128],
    right: &[u16],
    depth: u16,
    marks: &mut [bool; 128],
)
    requires { Below 128 (map symbol_of right.now) }
    ensures { marks.new ≡ visit (walk nullable.now (productions_in ps.now) depth) (leading nullable.now (map symbol_of right.now)) marks.old }
{
    for code in right {
        if *code % 2 == 1 {
            return;
        }
        let number = *code / 2;
        let b = usize::from(number);
        if !marks[b] {
            marks[b] = true;
            walk_from(ps, nullable, number, depth, marks);
        }
        let passed = nullable[b];
        if !passed {
            return;
        }
    }
}

// Whether a chain of left corners returns to its beginning: a walk from each nonterminal.
pub fn left_recursive(ps: &Productions, n: u16, nullable: &[bool; 128]) -> bool
    requires { n ≤ 128 }
    ensures { result ≡ left_recursive nullable.now (productions_in ps.now) n }
{
    for a in 0..n {
        let mut reached = [false; 128];
        walk_from(ps, nullable, a, n, &mut reached);
        if reached[usize::from(a)] {
            return true;
        }
    }
    false
}

// Whether all symbols of a right side are marked, where terminals count as marked if `free`.
pub fn all_marked(right: &[u16], free: bool, marks: &[bool; 128]) -> bool
    requires { Below 128 (map symbol_of right.now) }
    ensures { result ≡ all_marked free marks.now (map symbol_of right.now) }
{
    for code in right {
        let marked = if *code % 2 == 1 {
            free
        } else {
            marks[usize::from(*code / 2)]
        };
        if !marked {
            return false;
        }
    }
    true
}

// Whether a left side is not marked, and all symbols of its right side are.
fn is_new(right: &[u16], free: bool, marks: &[bool; 128], left: usize) -> bool
    requires { Below 128 (map symbol_of right.now) × (left < 128) }
    ensures { result ≡ (not (get_or marks.now left false) && all_marked free marks.now (map symbol_of right.now)) }
{
    !marks[left] && all_marked(right, free, marks)
}

// One round over the productions: marks each left side whose symbols are all marked, and answers whether one of them is new.
fn close_round(ps: &Productions, free: bool, marks: &mut [bool; 128]) -> bool
    ensures closes { marks.new ≡ close_round free (productions_in ps.now) marks.old }
    ensures still { result ≡ false → marks.new ≡ marks.old }
{
    let mut grew = false;
    for q in *ps {
        let left = usize::from(q.left);
        if is_new(q.right, free, marks, left) {
            marks[left] = true;
            grew = true;
        }
    }
    grew
}

// The nullable nonterminals, or, where terminals are free, the productive ones: n rounds, of which those behind one that marks nothing change nothing.
pub fn close(ps: &Productions, n: u16, free: bool) -> [bool; 128]
    ensures { result ≡ closure free (productions_in ps.now) n }
{
    let mut closed = [false; 128];
    for _ in 0..n {
        if !close_round(ps, free, &mut closed) {
            return closed;
        }
    }
    closed
}

// Whether some nonterminal is unproductive.
pub fn some_unproductive(ps: &Productions, n: u16) -> bool
    requires { n ≤ 128 }
    ensures { result ≡ unproductive (productions_in ps.now) n }
{
    let productive = close(ps, n, true);
    for a in 0..n {
        if !productive[usize::from(a)] {
            return true;
        }
    }
    false
}

// The tests behind the reader: every nonterminal is productive, and none is left recursive.
pub fn pass_tests(ps: &Productions, n: u16) -> Result<(), Refusal>
    requires { n ≤ 128 }
    ensures { tests_say result ≡ test_refusal (productions_in ps.now) n }
{
    if some_unproductive(ps, n) {
        return Err(Refusal::Unproductive);
    }
    let nullable = close(ps, n, false);
    if left_recursive(ps, n, &nullable) {
        return Err(Refusal::LeftRecursive);
    }
    Ok(())
}

// The table, read and tested: refusals 3 to 9.
pub fn read_grammar(table: &[u8], words: &mut [u16]) -> Result<Table, Refusal>
    requires { 5120 ≤ length words.old }
    ensures reads { table_says result (length table.now) words.new ≡ accept_table table.now }
    ensures sound { TableSound result words.new }
{
    let read = read_table(table, words)?;
    let ps = Productions {
        words: &words[..usize::from(read.used)],
        p: read.shape.p,
    };
    pass_tests(&ps, read.shape.n)?;
    Ok(read)
}
