// How FOLLOW begins: the end marker for the start symbol, no string for the others, in both buffers.
ghost use Rattle.follow.specs.Steps.{Laid, Begins, CopiedFollow, Started};

use first::Setup;
use k_tuple::well::end;

// Copies the first n sets of the scratch to the FOLLOW sets of the result.
fn copy_follow(res: &mut [u64], scratch: &[u64], u: Setup)
    requires { Laid u res.old scratch.now }
    ensures { CopiedFollow u res.old scratch.now res.new }
{
    let n = u.n;
    let at = n + u.p;
    for i in 0..n {
        blocks::copy_block(res, scratch, u.b, u.rsets, u.ssets, i, at + i);
    }
}

// Makes the FOLLOW sets those at the start.
pub fn start_follow(res: &mut [u64], scratch: &mut [u64], u: Setup, k: u64)
    requires { Begins u k res.old scratch.old }
    ensures { Started u k res.old scratch.old res.new scratch.new }
{
    blocks::clear_first(scratch, u.b, u.ssets, u.n);
    blocks::put_single(scratch, end(u.w), u.b, u.ssets, u.start, k);
    copy_follow(res, scratch, u);
}
