// The strings of one nonterminal, listed from its joined sets in the result; and its tree, measured or written from that list.
// A list of 2,048 strings with their productions is a local array of 49,152 bytes; what `measured` and `written` have of their own is said in `trees`.
ghost use Rattle.std.specs.Prelude.{◌≡◌, ◌+◌, ◌*◌, ◌≤◌, ◌<◌, length};
ghost use Rattle.k_tuples.specs.Blocks.{part_at};
ghost use Rattle.trees.specs.Collected.{Collect, Collected};
ghost use Rattle.trees.specs.Answer.{SizeTold};
ghost use Rattle.automaton.specs.Steps.{Planned, Stands, strings_of, trees_of, Gathered, Writes};

use crate::task::Task;
use decision::Layout;
use k_tuple::Terminals;
use refusals::Refusal;
use trees::collect::add_set;
use trees::list::add;
use trees::{measured, written};

// Lists the strings of production i, behind m that there are.
fn list_set(list: &mut [u64], m: usize, u: Layout, res: &[u64], i: usize) -> Result<usize, Refusal>
    requires { Collect list.old m (part_at u.b (u.n + i) res.now) i × (((u.n + i) * u.b + u.b ≤ length res.now) × (u.n + i ≤ 640)) }
    ensures { Collected m i (part_at u.b (u.n + i) res.now) list.old list.new result }
{
    let b = u.b;
    let x = (u.n + i) * b;
    let x_end = x + b;
    add_set(list, m, &res[x..x_end], i as u64)
}

// Lists the strings of a's productions, which are linked, where its joined sets stand in the result.
fn list_own(list: &mut [u64], t: &Task, res: &[u64], k: u64, a: usize) -> Result<usize, Refusal>
    requires { (Planned t.now × Stands t.now k a res.now) × (((1 ≤ k) × (a < t.now.layout.n)) × (6144 ≤ length list.old)) }
    ensures { Gathered (strings_of t.now a) list.new result }
{
    let p = t.layout.p;
    let mut i = t.links.first[a];
    let mut m: usize = 0;
    while i < p {
        m = list_set(list, m, t.layout, res, i)?;
        i = t.links.next[i];
    }
    Ok(m)
}

// Lists the empty string, for a's one production: nothing ahead is looked at.
fn list_one(list: &mut [u64], t: &Task, res: &[u64], a: usize) -> Result<usize, Refusal>
    requires { (Planned t.now × Stands t.now 0 a res.now) × ((a < t.now.layout.n) × (6144 ≤ length list.old)) }
    ensures { Gathered (strings_of t.now a) list.new result }
{
    let i = t.links.first[a] as u64;
    let empty = Terminals {
        lo: 0,
        hi: 0x1000_0000_0000_0000,
    };
    add(list, 0, empty, i)
}

// Lists a's strings.
fn list_for(list: &mut [u64], t: &Task, res: &[u64], k: u64, a: usize) -> Result<usize, Refusal>
    requires { (Planned t.now × Stands t.now k a res.now) × ((a < t.now.layout.n) × (6144 ≤ length list.old)) }
    ensures { Gathered (strings_of t.now a) list.new result }
{
    if k == 0 {
        return list_one(list, t, res, a);
    }
    list_own(list, t, res, k, a)
}

// How many bytes a's tree takes, or that it has more than 2,048 states.
pub fn size_of_tree(t: &Task, res: &[u64], k: u64, a: usize) -> Result<usize, Refusal>
    requires { (Planned t.now × Stands t.now k a res.now) × (a < t.now.layout.n) }
    ensures { SizeTold (trees_of t.now a) result }
{
    let mut list = [0u64; 6144];
    let m = list_for(&mut list, t, res, k, a)?;
    measured(&list, m)
}

// Writes a's tree at a place; nothing where it has too many states or too little room, which `size_of_tree` told before.
pub fn write_tree(t: &Task, res: &[u64], k: u64, a: usize, out: &mut [u8], at: usize)
    requires { (Planned t.now × Stands t.now k a res.now) × ((a < t.now.layout.n) × (at ≤ length out.old)) }
    ensures { Writes (trees_of t.now a) at out.old out.new }
{
    let mut list = [0u64; 6144];
    let Ok(m) = list_for(&mut list, t, res, k, a) else {
        return;
    };
    let _told = written(&list, m, out, at);
}
