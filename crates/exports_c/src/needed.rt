// Which k each nonterminal needs, for C: the function of that name of `exports::needed`.
ghost use Rattle.exports.specs.Needed.{NeededCalled};

// The k that each nonterminal of a table needs, up to a limit, with room for c members in each set. The answer takes 258 words.
#[unsafe(no_mangle)]
pub extern "C" fn jomankitu_needed_k(
    limit: u64,
    c: u64,
    table: &[u8],
    res: &mut [u64],
    scratch: &mut [u64],
    answer: &mut [u64],
) -> u64
    ensures { NeededCalled limit c table.now res.old scratch.old answer.old result res.new scratch.new answer.new }
{
    exports::needed::jomankitu_needed_k(limit, c, table, res, scratch, answer)
}
