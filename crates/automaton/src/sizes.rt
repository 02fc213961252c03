// What the sizes of the trees tell: whether the bytes have room, and where each tree's begin.
ghost use Rattle.std.specs.Prelude.{◌≡◌, ◌≤◌};
ghost use Rattle.automaton.specs.Steps.{sum_to, Totals};

use refusals::Refusal;

// The sum of n sizes, or that it is over the room.
pub fn total(sizes: &[usize; 128], n: usize, room: usize) -> Result<usize, Refusal>
    requires { n ≤ 128 }
    ensures { Totals n sizes.now room result }
{
    let mut at: usize = 0;
    for a in 0..n {
        let size = sizes[a];
        if room - at < size {
            return Err(Refusal::LentTooFew);
        }
        at += size;
    }
    Ok(at)
}

// Where the bytes of tree a begin: behind those of the trees before it, for which there is room.
pub fn place_of(sizes: &[usize; 128], a: usize, room: usize) -> usize
    requires { (a ≤ 128) × (sum_to sizes.now a ≤ room) }
    ensures { result ≡ sum_to sizes.now a }
{
    sizes[..a].iter().sum()
}
