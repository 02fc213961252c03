// One nonterminal's decision automaton: from its joined strings with their productions to the bytes of their prefix tree. Each of the two calls has 40,960 bytes of local arrays.
#![tactic(auto)]

ghost use Rattle.std.specs.Prelude.{◌≤◌, length};
ghost use Rattle.trees.specs.Answer.{Strings, Measured, Written};

use refusals::Refusal;

pub mod collect;
pub mod list;
pub mod order;
pub mod output;
pub mod tree;

// How many bytes the tree of n strings takes, or that it has more than 2,048 states.
pub fn measured(list: &[u64], n: usize) -> Result<usize, Refusal>
    requires { Strings list.now n }
    ensures { Measured list.now n result }
{
    let mut queue = [0u64; 2048];
    let mut kids = [0u64; 2048];
    let mut order = [0u16; 2048];
    let mut places = [0u16; 2048];
    order::arrange(list, n, &mut order, &mut places);
    let m = tree::build(list, n, &order, &mut queue, &mut kids, &mut places)?;
    let size = output::measure(list, n, &queue, &kids, m);
    Ok(size)
}

// Writes the tree of n strings from a place of the bytes on, and tells the place behind it. Where it has more than 2,048 states, or there are too few bytes, nothing
// is written.
pub fn written(list: &[u64], n: usize, bytes: &mut [u8], at: usize) -> Result<usize, Refusal>
    requires { Strings list.now n × (at ≤ length bytes.old) }
    ensures { Written list.now n at bytes.old bytes.new result }
{
    let mut queue = [0u64; 2048];
    let mut kids = [0u64; 2048];
    let mut order = [0u16; 2048];
    let mut places = [0u16; 2048];
    order::arrange(list, n, &mut order, &mut places);
    let m = tree::build(list, n, &order, &mut queue, &mut kids, &mut places)?;
    let size = output::measure(list, n, &queue, &kids, m);
    if bytes.len() - at < size {
        return Err(Refusal::LentTooFew);
    }
    let next = output::write(bytes, at, list, n, &queue, &kids, m);
    Ok(next)
}
