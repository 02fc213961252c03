// FIRST over two lent buffers that are cut into blocks, a set in each. The result begins with the sets of the nonterminals as they stand,
// the scratch with the new ones of a round; behind those, set n of the scratch is where a join is made.
#![tactic(auto)]

pub mod due;
pub mod level;
pub mod production;
pub mod right;
pub mod round;

// The grammar's four numbers; the lent words in blocks of b words, so many in the result and in the scratch; the width of all strings.
#[derive(Clone, Copy)]
pub struct Setup {
    pub n: usize,
    pub t: usize,
    pub start: usize,
    pub p: usize,
    pub b: usize,
    pub rsets: usize,
    pub ssets: usize,
    pub w: u64,
}
