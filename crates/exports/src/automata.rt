// The reader's automata of a table, for C.
ghost use Rattle.std.specs.Prelude.{length};
ghost use Rattle.exports.specs.Automata.{AutomataCalled};

use crate::{alone, refusal_number, tell};
use lookahead::automata;

// The automata of a table's nonterminals in turn, in lent bytes, up to a limit of k and with room for c members in each set. The answer takes one word: how
// many bytes are written. Where there is none, the call is asked with nothing lent, which it refuses by 10 or what comes before it, and touches nothing.
pub fn jomankitu_automata(
    limit: u64,
    c: u64,
    table: &[u8],
    out: &mut [u8],
    res: &mut [u64],
    scratch: &mut [u64],
    answer: &mut [u64],
) -> u64
    ensures { AutomataCalled limit c table.now out.old res.old scratch.old answer.old result out.new res.new scratch.new answer.new }
{
    if answer.len() < 1 {
        let few = automata(
            limit,
            c,
            table,
            &mut out[..0],
            &mut res[..0],
            &mut scratch[..0],
        );
        return refusal_number(&few);
    }
    let made = automata(limit, c, table, out, res, scratch);
    let words = alone(made.unwrap_or(0) as u64);
    tell(answer, refusal_number(&made), &words)
}
