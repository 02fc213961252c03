// The states of the prefix tree, breadth first, as a queue of prefixes. A state is one number: 16 times a string that begins so, and the length.
ghost use Rattle.std.specs.Prelude.{◌≡◌, ◌<◌};
ghost use Rattle.trees.specs.Listed.{Listed, word_at, code_of};
ghost use Rattle.trees.specs.Queue.{State, prefix_of, GoesOnBy, Grow, Spread, Build, Built};

use crate::list::{letter, same_start};
use k_tuples::set::index;
use refusals::Refusal;

// The terminal by which string j goes on behind a state, where it does.
fn goes_on(list: &[u64], n: usize, state: u64, j: usize) -> Option<u64>
    requires { Listed list.now n × (State list.now n state × (j < n)) }
    ensures { GoesOnBy (prefix_of list.now state) (word_at list.now j) (code_of result) }
{
    let i = index(state / 16);
    let d = state % 16;
    if same_start(list, n, i, j, d) {
        return letter(list, n, j, d);
    }
    None
}

// Puts the states behind a state at the end of the queue, which holds m. The strings that begin so stand together in order, from a place on.
fn grow(
    list: &[u64],
    n: usize,
    order: &[u16],
    queue: &mut [u64],
    places: &mut [u16],
    state: u64,
    from: usize,
    m: usize,
) -> Result<usize, Refusal>
    requires { Grow list.now n order.now state from m queue.old places.old }
    ensures { Spread list.now n order.now state m queue.old queue.new places.old places.new result }
{
    // the least terminal that is still to come
    let mut f: u64 = 0;
    let mut end = m;
    for c in from..n {
        let j = usize::from(order[c]);
        let Some(t) = goes_on(list, n, state, j) else {
            return Ok(end);
        };
        if t < f {
            continue;
        }
        if 2048 <= end {
            return Err(Refusal::TooManyStates);
        }
        let string = j as u64;
        queue[end] = 16 * string + state % 16 + 1;
        places[end] = c as u16;
        end += 1;
        f = t + 1;
    }
    Ok(end)
}

// All states, and how many each goes on to. With each goes the first place whose string begins so.
pub fn build(
    list: &[u64],
    n: usize,
    order: &[u16],
    queue: &mut [u64],
    kids: &mut [u64],
    places: &mut [u16],
) -> Result<usize, Refusal>
    requires { Build list.now n order.now queue.old kids.old places.old }
    ensures { Built list.now n queue.old kids.old queue.new kids.new result }
{
    queue[0] = 0;
    places[0] = 0;
    let mut s: usize = 0;
    let mut m: usize = 1;
    // Kept: m grows as the queue is walked, and a `for` takes its end once.
    while s < m {
        let state = queue[s];
        let from = usize::from(places[s]);
        let end = grow(list, n, order, queue, places, state, from, m)?;
        kids[s] = (end - m) as u64;
        m = end;
        s += 1;
    }
    Ok(m)
}
