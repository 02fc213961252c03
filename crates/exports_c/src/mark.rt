// The marking of a table of predictions, for C: the function of that name of `exports::mark`.
ghost use Rattle.exports.specs.Marks.{MarkCalled};

// Marks a prediction table, its rows of four words each: a nonterminal, a string's two words, a production. The answer takes four words: the first bad row, and
// the nonterminal and the two words of the first missing string. Where they are not lent, the call is asked with no words to work in, which it refuses by 10
// or what comes before it, and touches nothing.
#[unsafe(no_mangle)]
pub extern "C" fn jomankitu_mark(
    limit: u64,
    c: u64,
    table: &[u8],
    rows: &[u64],
    res: &mut [u64],
    scratch: &mut [u64],
    answer: &mut [u64],
) -> u64
    ensures { MarkCalled limit c table.now rows.now res.old scratch.old answer.old result res.new scratch.new answer.new }
{
    exports::mark::jomankitu_mark(limit, c, table, rows, res, scratch, answer)
}
