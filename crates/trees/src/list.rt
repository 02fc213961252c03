// Strings with their productions in lent words, three words each: the string's two, and the production.
ghost use Rattle.std.specs.Prelude.{◌≡◌, ◌+◌, ◌*◌, ◌≤◌, ◌<◌, length};
ghost use Rattle.k_tuples.specs.Words.{member_at};
ghost use Rattle.trees.specs.Listed.{Listed, Addable, word_at, code_of, code_at, Agrees, Appended};

use k_tuple::Terminals;
use k_tuple::parts::{count, same};
use k_tuple::well::{cut, slot};
use k_tuples::set::read;
use refusals::Refusal;

// String j of n.
pub fn string(list: &[u64], n: usize, j: usize) -> Terminals
    requires { Listed list.now n × (j < n) }
    ensures { result ≡ member_at list.now (3 * j) }
{
    read(list, 3 * j)
}

// The terminal at place e of string j, where it has one there.
pub fn letter(list: &[u64], n: usize, j: usize, e: u64) -> Option<u64>
    requires { Listed list.now n × (j < n) }
    ensures { code_of result ≡ code_at (word_at list.now j) e }
{
    let t = string(list, n, j);
    let l = count(t);
    if l <= e {
        return None;
    }
    Some(slot(t, e))
}

// Whether strings i and j have the same first d terminals; i has so many.
pub fn same_start(list: &[u64], n: usize, i: usize, j: usize, d: u64) -> bool
    requires { Listed list.now n × ((i < n) × (j < n)) × (d ≤ length (word_at list.now i)) }
    ensures { Agrees d (word_at list.now i) (word_at list.now j) result }
{
    let x = cut(string(list, n, i), d);
    let y = cut(string(list, n, j), d);
    same(x, y)
}

// Puts a string with its production behind the n that there are; how many there are then. There is room for 2,048, and a tree of more strings has more states.
pub fn add(list: &mut [u64], n: usize, t: Terminals, production: u64) -> Result<usize, Refusal>
    requires { Addable list.old n t production }
    ensures { Appended n t production list.old list.new result }
{
    if 2048 <= n {
        return Err(Refusal::TooManyStates);
    }
    let at = 3 * n;
    list[at] = t.lo;
    list[at + 1] = t.hi;
    list[at + 2] = production;
    Ok(n + 1)
}
