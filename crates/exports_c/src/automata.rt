// The decision automata, for C: the function of that name of `exports::automata`.
ghost use Rattle.exports.specs.Automata.{AutomataCalled};

// The automata of a table's nonterminals in turn, in lent bytes, up to a limit of k and with room for c members in each set. The answer takes one word: how
// many bytes are written. Where there is none, the call is asked with nothing lent, which it refuses by 10 or what comes before it, and touches nothing.
#[unsafe(no_mangle)]
pub extern "C" fn jomankitu_automata(
    limit: u64,
    c: u64,
    table: &[u8],
    out: &mut [u8],
    res: &mut [u64],
    scratch: &mut [u64],
    answer: &mut [u64],
) -> u64
    ensures { AutomataCalled limit c table.now out.old res.old scratch.old answer.old result out.new res.new scratch.new answer.new }
{
    exports::automata::jomankitu_automata(limit, c, table, out, res, scratch, answer)
}
