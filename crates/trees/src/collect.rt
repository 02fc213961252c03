// The strings of a set, for one production, put behind those that there are.
ghost use Rattle.trees.specs.Collected.{Collect, Collected};

use crate::list::add;
use k_tuples::set::{count, read};
use refusals::Refusal;

// Puts the members of a set behind the n strings that there are; how many there are then, or that they come to more than 2,048.
pub fn add_set(list: &mut [u64], n: usize, set: &[u64], production: u64) -> Result<usize, Refusal>
    requires { Collect list.old n set.now production }
    ensures { Collected n production set.now list.old list.new result }
{
    let mut m = n;
    for i in 0..count(set) {
        let t = read(set, 2 * i + 1);
        m = add(list, m, t, production)?;
    }
    Ok(m)
}
