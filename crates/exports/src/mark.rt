// The marking of a prediction table, for C.
ghost use Rattle.std.specs.Prelude.{◌≡◌, length};
ghost use Rattle.marking.specs.Call.{recorded};
ghost use Rattle.exports.specs.Marks.{mark_words, MarkCalled};

use crate::tell;
use lookahead::{MarkError, Refusal, mark};

// The number of the refusal, 0 where the rows are accepted.
fn mark_number(m: Result<(), MarkError>) -> u64
    ensures { result ≡ (recorded m).refusal }
{
    match m {
        Ok(()) => 0,
        Err(e) => u64::from(Refusal::from(e)),
    }
}

// The numbers behind it.
fn mark_words(m: Result<(), MarkError>) -> [u64; 4]
    ensures { result ≡ mark_words (recorded m) }
{
    match m {
        Err(MarkError::BadRow(row)) => [row, 0, 0, 0],
        Err(
            MarkError::Missing {
                nonterminal,
                string,
            },
        ) => [0, nonterminal, string.lo, string.hi],
        _ => [0; 4],
    }
}

// Marks a prediction table, its rows of four words each: a nonterminal, a string's two words, a production. The answer takes four words: the first bad row, and
// the nonterminal and the two words of the first missing string. Where they are not lent, the call is asked with no words to work in, which it refuses by 10
// or what comes before it, and touches nothing.
pub fn jomankitu_mark(
    limit: u64,
    c: u64,
    table: &[u8],
    rows: &[u64],
    res: &mut [u64],
    scratch: &mut [u64],
    answer: &mut [u64],
) -> u64
    ensures { MarkCalled limit c table.now rows.now res.old scratch.old answer.old result res.new scratch.new answer.new }
{
    if answer.len() < 4 {
        return mark_number(mark(limit, c, table, rows, &mut res[..0], &mut scratch[..0]));
    }
    let m = mark(limit, c, table, rows, res, scratch);
    tell(answer, mark_number(m), &mark_words(m))
}
