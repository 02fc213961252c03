// The numbers of strings in dictionary order, first terminal first, by merging: at most n · log n comparisons, each at most ten terminals long.
ghost use Rattle.std.specs.Prelude.{◌≡◌, ◌+◌, ◌≤◌, ◌<◌, length, take, drop};
ghost use Rattle.trees.specs.Listed.{Listed, word_at};
ghost use Rattle.trees.specs.Order.{not_after, Inside, left_next, merged, Arranged, Numbers, InOrder};

use crate::list::letter;

// Whether string i comes before string j or is the same.
fn not_after(list: &[u64], n: usize, i: usize, j: usize) -> bool
    requires { Listed list.now n × ((i < n) × (j < n)) }
    ensures { result ≡ not_after (word_at list.now i) (word_at list.now j) }
{
    for e in 0..10 {
        let a = letter(list, n, i, e);
        let b = letter(list, n, j, e);
        if a != b {
            return a < b;
        }
    }
    true
}

// Whether the next is taken from the left, of which i were taken, as j of the right.
fn left_next(list: &[u64], n: usize, left: &[u16], i: usize, right: &[u16], j: usize) -> bool
    requires { Listed list.now n × ((Inside n left.now × Inside n right.now) × ((i ≤ length left.now) × (j ≤ length right.now))) }
    ensures { result ≡ left_next list.now (drop i left.now) (drop j right.now) }
{
    if left.len() <= i {
        return false;
    }
    if right.len() <= j {
        return true;
    }
    let x = usize::from(left[i]);
    let y = usize::from(right[j]);
    not_after(list, n, x, y)
}

// Two lists as one.
fn merge(list: &[u64], n: usize, left: &[u16], right: &[u16], both: &mut [u16])
    requires { Listed list.now n × ((Inside n left.now × Inside n right.now) × (length both.old ≡ length left.now + length right.now)) }
    ensures { both.new ≡ merged list.now left.now right.now }
{
    let mut i: usize = 0;
    let mut j: usize = 0;
    for at in 0..both.len() {
        if left_next(list, n, left, i, right, j) {
            both[at] = left[i];
            i += 1;
        } else {
            both[at] = right[j];
            j += 1;
        }
    }
}

// A copy of a list, at the front.
// Kept: no `copy_from_slice`, for which the archive for C would need `memmove` from outside.
fn copy(from: &[u16], to: &mut [u16])
    requires { length from.now ≤ length to.old }
    ensures { take (length from.now) to.new ≡ from.now }
{
    for i in 0..from.len() {
        to[i] = from[i];
    }
}

// Two parts of a list as one.
fn merge_parts(list: &[u64], n: usize, parts: &[u16], mid: usize, both: &mut [u16])
    requires { Listed list.now n × (Inside n parts.now × ((mid ≤ length parts.now) × (length both.old ≡ length parts.now))) }
    ensures { both.new ≡ merged list.now (take mid parts.now) (drop mid parts.now) }
{
    merge(list, n, &parts[..mid], &parts[mid..], both);
}

// The same where they stand, by a copy in `spare`.
fn merge_in_place(list: &[u64], n: usize, order: &mut [u16], spare: &mut [u16], mid: usize)
    requires { Listed list.now n × (Inside n order.old × ((mid ≤ length order.old) × (length order.old ≤ length spare.old))) }
    ensures { order.new ≡ merged list.now (take mid order.old) (drop mid order.old) }
{
    let size = order.len();
    copy(order, spare);
    merge_parts(list, n, &spare[..size], mid, order);
}

// Brings numbers into order; `spare` has room for as many.
fn sort(list: &[u64], n: usize, order: &mut [u16], spare: &mut [u16])
    requires { Listed list.now n × (Inside n order.old × (length order.old ≤ length spare.old)) }
    ensures { Arranged list.now order.old order.new }
{
    let size = order.len();
    if size < 2 {
        return;
    }
    let mid = size / 2;
    sort(list, n, &mut order[..mid], spare);
    sort(list, n, &mut order[mid..], spare);
    merge_in_place(list, n, order, spare, mid);
}

// Numbers from 0 on.
fn count_up(order: &mut [u16])
    requires { length order.old ≤ 2048 }
    ensures { Numbers (length order.old) order.new }
{
    for (i, place) in order.iter_mut().enumerate() {
        *place = i as u16;
    }
}

// The numbers of n strings in order; `spare` has room for as many.
pub fn arrange(list: &[u64], n: usize, order: &mut [u16], spare: &mut [u16])
    requires { Listed list.now n × ((n ≤ 2048) × ((2048 ≤ length order.old) × (2048 ≤ length spare.old))) }
    ensures { InOrder list.now n order.new }
{
    count_up(&mut order[..n]);
    sort(list, n, &mut order[..n], spare);
}
