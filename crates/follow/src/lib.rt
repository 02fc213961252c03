// FOLLOW over two lent buffers that are cut into blocks, a set in each. The result begins with FIRST of the nonterminals and of the
// productions; behind those it gets FOLLOW of the nonterminals, and a set for each position. While FOLLOW runs, a position's set is its
// suffix set, and the scratch begins with a copy of the FOLLOW sets.
#![tactic(auto)]

pub mod begin;
pub mod place;
pub mod round;
pub mod suffix;
pub mod walk;

ghost use Rattle.first.specs.Steps.{Ready};
ghost use Rattle.follow.specs.Steps.{Grammatical};
ghost use Rattle.follow.specs.Whole.{Followed, Positioned};

use crate::begin::start_follow;
use crate::place::make_positions;
use crate::round::follow_rounds;
use crate::suffix::make_suffixes;
use first::Setup;
use refusals::Refusal;

// FOLLOW of the nonterminals, and how many rounds it took. The positions keep their suffix sets.
fn follow_sets(
    res: &mut [u64],
    scratch: &mut [u64],
    u: Setup,
    k: u64,
    words: &[u16],
) -> Result<u64, Refusal>
    requires { Ready u k res.old scratch.old × Grammatical u words.now }
    ensures { Followed u k words.now result res.old scratch.old res.new scratch.new }
{
    make_suffixes(res, scratch, u, k, words)?;
    start_follow(res, scratch, u, k);
    follow_rounds(res, scratch, u, k, words)
}

// FOLLOW of the nonterminals, and then the sets of the positions. Tells the rounds of FOLLOW.
pub fn follow_all(
    res: &mut [u64],
    scratch: &mut [u64],
    u: Setup,
    k: u64,
    words: &[u16],
) -> Result<u64, Refusal>
    requires { Ready u k res.old scratch.old × Grammatical u words.now }
    ensures { Positioned u k words.now result res.old scratch.old res.new scratch.new }
{
    let rounds = follow_sets(res, scratch, u, k, words)?;
    make_positions(res, scratch, u, k, words)?;
    Ok(rounds)
}
