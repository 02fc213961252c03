// What the work on the trees goes by, which is passed on from the call to each function below it.
use decision::{Layout, Links};

// A table all of whose nonterminals are decided: up to which limit and with what room for members, how its sets lie in the result, how its productions are linked,
// and each nonterminal's k.
#[derive(Clone, Copy)]
pub struct Task<'a> {
    pub limit: u64,
    pub c: u64,
    pub table: &'a [u8],
    pub layout: Layout,
    pub links: &'a Links,
    pub ks: &'a [u64; 128],
}
