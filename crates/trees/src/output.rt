// The bytes of a tree: the number of states, then for each its production with one added or 0, how many it goes on to, and these by terminal and number.
ghost use Rattle.std.specs.Prelude.{◌≡◌, ◌+◌, ◌-◌, ◌*◌, ◌≤◌, ◌<◌, ◌∷◌, ◌++◌, length};
ghost use Rattle.cfg.specs.Write.{write_number, write_numbers};
ghost use Rattle.trees.specs.Listed.{Listed};
ghost use Rattle.trees.specs.Queue.{State, Deep};
ghost use Rattle.trees.specs.Output.{accept_of, letter_of, edges_in, states_in, Edges, States, Measures, Puts};

use crate::list::{letter, string};
use k_tuple::parts::count;
use k_tuples::set::index;

// A state's production with one added; 0 for none.
fn accepting(list: &[u64], n: usize, state: u64) -> u64
    requires { Listed list.now n × State list.now n state }
    ensures { result ≡ accept_of list.now n state }
{
    if n == 0 {
        return 0;
    }
    let i = index(state / 16);
    let l = count(string(list, n, i));
    if l == state % 16 {
        return list[3 * i + 2] + 1;
    }
    0
}

// The terminal that leads to a state.
fn reached_by(list: &[u64], n: usize, state: u64) -> u64
    requires { Listed list.now n × Deep list.now n state }
    ensures { result ≡ letter_of list.now state }
{
    let i = index(state / 16);
    let d = state % 16;
    letter(list, n, i, d - 1).unwrap()
}

// How many bytes a number takes.
fn size_of(v: u64) -> usize
    ensures { result ≡ length (write_number v) }
{
    if v < 128 {
        return 1;
    }
    2
}

// How many bytes the transitions to some states take.
fn edges_size(list: &[u64], n: usize, queue: &[u64], from: usize, to: usize) -> usize
    requires { Listed list.now n × Edges list.now n queue.now from to }
    ensures { Measures (write_numbers (edges_in list.now queue.now from (to - from))) (4 * (to - from)) result }
{
    let mut total: usize = 0;
    for c in from..to {
        let state = queue[c];
        let by = size_of(reached_by(list, n, state));
        let at = size_of(c as u64);
        total = total + by + at;
    }
    total
}

// How many bytes the states take.
fn states_size(list: &[u64], n: usize, queue: &[u64], kids: &[u64], m: usize) -> usize
    requires { Listed list.now n × States list.now n m queue.now kids.now }
    ensures { Measures (write_numbers (states_in list.now n queue.now kids.now 1 0 m)) 16384 result }
{
    let mut total: usize = 0;
    let mut next: usize = 1;
    for s in 0..m {
        let state = queue[s];
        let more = kids[s];
        let end = next + index(more);
        let head = size_of(accepting(list, n, state)) + size_of(more);
        total = total + head + edges_size(list, n, queue, next, end);
        next = end;
    }
    total
}

// How many bytes a tree of m states takes.
pub fn measure(list: &[u64], n: usize, queue: &[u64], kids: &[u64], m: usize) -> usize
    requires { Listed list.now n × States list.now n m queue.now kids.now }
    ensures { result ≡ length (write_numbers (m ∷ states_in list.now n queue.now kids.now 1 0 m)) }
{
    let first = size_of(m as u64);
    first + states_size(list, n, queue, kids, m)
}

// Writes a number at a place; the next place.
fn put(bytes: &mut [u8], at: usize, v: u64) -> usize
    requires { (v < 16384) × (at + length (write_number v) ≤ length bytes.old) }
    ensures { Puts bytes.old bytes.new at result (write_number v) }
{
    if v < 128 {
        bytes[at] = v as u8;
        return at + 1;
    }
    bytes[at] = (v % 128 + 128) as u8;
    bytes[at + 1] = (v / 128) as u8;
    at + 2
}

// Writes two numbers.
fn put_pair(bytes: &mut [u8], at: usize, x: u64, y: u64) -> usize
    requires { (x < 16384) × ((y < 16384) × (at + length (write_number x ++ write_number y) ≤ length bytes.old)) }
    ensures { Puts bytes.old bytes.new at result (write_number x ++ write_number y) }
{
    let next = put(bytes, at, x);
    put(bytes, next, y)
}

// Writes the transitions to some states.
fn put_edges(
    bytes: &mut [u8],
    at: usize,
    list: &[u64],
    n: usize,
    queue: &[u64],
    from: usize,
    to: usize,
) -> usize
    requires { Listed list.now n × (Edges list.now n queue.now from to × (at + length (write_numbers (edges_in list.now queue.now from (to - from))) ≤ length bytes.old)) }
    ensures { Puts bytes.old bytes.new at result (write_numbers (edges_in list.now queue.now from (to - from))) }
{
    let mut place = at;
    for c in from..to {
        let state = queue[c];
        let by = reached_by(list, n, state);
        place = put_pair(bytes, place, by, c as u64);
    }
    place
}

// Writes the states.
fn put_states(
    bytes: &mut [u8],
    at: usize,
    list: &[u64],
    n: usize,
    queue: &[u64],
    kids: &[u64],
    m: usize,
) -> usize
    requires { Listed list.now n × (States list.now n m queue.now kids.now × (at + length (write_numbers (states_in list.now n queue.now kids.now 1 0 m)) ≤ length bytes.old)) }
    ensures { Puts bytes.old bytes.new at result (write_numbers (states_in list.now n queue.now kids.now 1 0 m)) }
{
    let mut place = at;
    let mut next: usize = 1;
    for s in 0..m {
        let state = queue[s];
        let more = kids[s];
        let end = next + index(more);
        let production = accepting(list, n, state);
        place = put_pair(bytes, place, production, more);
        place = put_edges(bytes, place, list, n, queue, next, end);
        next = end;
    }
    place
}

// Writes a tree of m states.
pub fn write(
    bytes: &mut [u8],
    at: usize,
    list: &[u64],
    n: usize,
    queue: &[u64],
    kids: &[u64],
    m: usize,
) -> usize
    requires { Listed list.now n × (States list.now n m queue.now kids.now × (at + length (write_numbers (m ∷ states_in list.now n queue.now kids.now 1 0 m)) ≤ length bytes.old)) }
    ensures { Puts bytes.old bytes.new at result (write_numbers (m ∷ states_in list.now n queue.now kids.now 1 0 m)) }
{
    let next = put(bytes, at, m as u64);
    put_states(bytes, next, list, n, queue, kids, m)
}
