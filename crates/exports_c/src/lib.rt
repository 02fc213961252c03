// The archive for C, and for any language that calls C: a slice is passed as a pointer and a length. Each function calls the one of that name of the
// library `exports` and promises the same. There are two crates, since one is a library or an archive, and not both.
#![tactic(auto)]

ghost use Rattle.k_tuple.specs.Paper.{gives};
ghost use Rattle.exports.specs.Told.{Told, part_of};
ghost use Rattle.exports.specs.Call.{Called};

mod automata;
mod mark;
mod needed;
mod rules;
mod sets;
mod strings;

// FIRST and FOLLOW of a table at k, with room for c members in each set. The answer takes sixteen words; where they are too few the engine is asked
// with no words at all, which it refuses by 10 or what comes before it, and touches nothing.
#[unsafe(no_mangle)]
pub extern "C" fn jomankitu_lookahead_sets(
    k: u64,
    c: u64,
    table: &[u8],
    res: &mut [u64],
    scratch: &mut [u64],
    answer: &mut [u64],
) -> u64
    ensures { Called k c table.now res.old scratch.old answer.old result res.new scratch.new answer.new }
{
    exports::jomankitu_lookahead_sets(k, c, table, res, scratch, answer)
}

// Where in a result of so many words the part of a set begins, and its length, in two words; 0 and 0 where there is no such set.
#[unsafe(no_mangle)]
pub extern "C" fn jomankitu_set_of(
    len: usize,
    kind: usize,
    number: usize,
    n: usize,
    p: usize,
    q: usize,
    c: usize,
    out: &mut [u64],
) -> u64
    ensures { Told 2 (gives (part_of len kind number n p q c)) out.old result out.new }
{
    exports::jomankitu_set_of(len, kind, number, n, p, q, c, out)
}
