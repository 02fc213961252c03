// The join of two sets by runs. The members of the first set that have l slots, each followed by the members of the second set, cut to what k leaves
// room for, in order, rise: they are written one after the other, without any search, and united with what there is.
ghost use Rattle.std.specs.Prelude.{◌≡◌, true, ◌+◌, ◌-◌, ◌*◌, ◌≤◌, ◌<◌, [], ◌∷◌, ◌++◌, length, get_or, replicate};
ghost use Rattle.k_tuple.specs.Strings.{count_field};
ghost use Rattle.k_tuple.specs.Packed.{WellFormed, number_of, reads, joined, cut_in};
ghost use Rattle.k_tuples.specs.Members.{rising, add_all, pairs_of};
ghost use Rattle.k_tuples.specs.Words.{member_at, encode, decode, IsSet, Grew, AllJoinable, AllWellFormed};
ghost use Rattle.k_joins.specs.Parts.{between, cuts_of, CutAdded, KeptStep, keeps_of, follows_of, run_of, meets_of, lefts_of, has_eps, stay_of, second_of, Joining, InClass, ClassTold, ClassEnd, Follows, AllFollow, AllPairs, Coded, Blank, AllBlank, RunPart, Gathered, ChunkEnd, PartStep, SizesTold};

use crate::pairs::join_plain;
use k_tuple::Terminals;
use k_tuple::parts::{count as slot_count, sealed, slots, width};
use k_tuple::well::{eps, is_complete, is_eps};
use k_tuple::wide::{low_part, stacked};
use k_tuples::set::{
    Grown, clear_set, count, growth, has, insert_at, member, place_near, put_in, start_count,
    union_into,
};
use refusals::Refusal;

// How many members of the second set are cut at a time, and how many members a run has at most.
const PART: usize = 127;

// How many words have room for so many.
const PART_WORDS: usize = 2 * PART + 1;

// Members of the first set that have so many slots, and are neither complete nor ε: from one index to another.
#[derive(Clone, Copy)]
pub struct Class {
    pub from: usize,
    pub to: usize,
    pub slots: u64,
}

// What is lent to a join, without members: for what is cut of the second set, and for a run.
#[derive(Drop)]
pub struct Lent {
    pub cut: [u64; PART_WORDS],
    pub run: [u64; PART_WORDS],
}

// x, which has l slots, followed by the whole of y.
fn followed(x: Terminals, y: Terminals, l: u64, k: u64) -> Terminals
    requires { Follows k l x y }
    ensures { result ≡ joined k (reads x) (reads y) }
{
    let w = width(y);
    let m = slot_count(y);
    let above = slots(y);
    let low = slots(x);
    sealed(w, l + m, stacked(above, l * w, low))
}

// Writes x behind the n members in r.
fn push(r: &mut [u64], n: usize, x: Terminals)
    requires { Coded r.old × ((n ≡ length (decode r.old)) × ((2 * n + 3 ≤ length r.old) × (n < 4294967295))) }
    ensures { r.new ≡ encode 0 (length r.old) (decode r.old ++ x ∷ []) }
{
    put_in(r, 2 * n + 1, 2 * n + 1, x);
    start_count(r, n + 1);
}

// Writes the members of a class behind the n members in r, each followed by y.
fn put_row(r: &mut [u64], n: usize, xs: &[u64], class: Class, y: Terminals, k: u64)
    requires follow { IsSet xs.now × AllFollow k class.slots xs.now class.from class.to y }
    requires within { (class.from ≤ class.to) × (class.to ≤ length (decode xs.now)) }
    requires behind { Coded r.old × (n ≡ length (decode r.old)) }
    requires room { (2 * (n + (class.to - class.from)) + 1 ≤ length r.old) × (n + (class.to - class.from) < 4294967296) }
    ensures { r.new ≡ encode 0 (length r.old) (decode r.old ++ follows_of k y (between class.from class.to xs.now)) }
{
    for t in class.from..class.to {
        let x = followed(member(xs, t), y, class.slots, k);
        push(r, n + (t - class.from), x);
    }
}

// Writes the members of a class followed by each member of ds from j on, as long as r has room for the row. Tells where it stopped.
fn put_run(r: &mut [u64], xs: &[u64], class: Class, ds: &[u64], j: usize, k: u64) -> usize
    requires sets { IsSet xs.now × (IsSet ds.now × Blank r.old) }
    requires pairs { AllPairs k class.slots xs.now class.from class.to ds.now }
    requires class { ClassEnd k class.slots xs.now class.from class.to }
    requires more { j < length (decode ds.now) }
    ensures { RunPart k xs.now class.from class.to ds.now j result r.new }
{
    let size = class.to - class.from;
    let nd = count(ds);
    let mut n = 0;
    for f in j..nd {
        if PART - n < size {
            return f;
        }
        let y = member(ds, f);
        put_row(r, n, xs, class, y, k);
        n += size;
    }
    nd
}

// Unites out with the set in r, and clears r.
fn unite(out: &mut [u64], r: &mut [u64]) -> Result<Grown, Refusal>
    requires { IsSet out.old × IsSet r.old }
    ensures grew { Grew out.old out.new (add_all (decode r.old) (decode out.old)) result }
    ensures cleared { r.new ≡ replicate (length r.old) 0 }
{
    let g = union_into(out, r);
    clear_set(r);
    g
}

// Unites out with the run of a class with ds; r is lent for the run.
fn run_into(
    out: &mut [u64],
    r: &mut [u64],
    xs: &[u64],
    class: Class,
    ds: &[u64],
    k: u64,
) -> Result<Grown, Refusal>
    requires sets { IsSet out.old × (Blank r.old × (IsSet xs.now × IsSet ds.now)) }
    requires pairs { AllPairs k class.slots xs.now class.from class.to ds.now }
    requires class { ClassEnd k class.slots xs.now class.from class.to }
    requires rises { rising (run_of k (between class.from class.to xs.now) (decode ds.now)) ≡ true }
    ensures grew { Grew out.old out.new (add_all (run_of k (between class.from class.to xs.now) (decode ds.now)) (decode out.old)) result }
    ensures cleared { Blank r.new }
{
    let old = count(out);
    let n = count(ds);
    let mut j = 0;
    while j < n {
        let f = put_run(r, xs, class, ds, j, k);
        unite(out, r)?;
        j = f;
    }
    Ok(growth(old, out))
}

// Where the part from j on ends, of n members.
fn chunk_end(j: usize, n: usize) -> usize
    requires { j < n }
    ensures { ChunkEnd n j result }
{
    j + (n - j).min(PART)
}

// The first m slots of y, cut off by whole words.
fn shortened(y: Terminals, m: u64) -> Terminals
    requires { WellFormed y × (m ≤ 10) }
    ensures { result ≡ cut_in m (reads y) }
{
    if slot_count(y) <= m {
        return y;
    }
    let w = width(y);
    sealed(w, m, low_part(slots(y), m * w))
}

// Adds member i of ys to d, cut to r slots, unless it is ε. It is looked for behind member f first; tells where it stands.
fn add_cut(d: &mut [u64], ys: &[u64], i: usize, r: u64, f: usize) -> usize
    requires { IsSet d.old × (IsSet ys.now × ((i < length (decode ys.now)) × (AllWellFormed ys.now × (r ≤ 10)))) }
    ensures { CutAdded r (member_at ys.now (2 * i + 1)) d.old d.new }
{
    let y = member(ys, i);
    if is_eps(y) {
        return f;
    }
    let x = shortened(y, r);
    let p = place_near(d, x, f);
    // There is room: d holds as many members as a part has.
    let _ = insert_at(d, p, x);
    p
}

// Makes d the set of the members j to e of ys but ε, each cut to r slots. Cuts of members that share their last slots rise, so each is looked for behind the one before it.
fn cut_into(d: &mut [u64], ys: &[u64], j: usize, e: usize, r: u64)
    requires { (Blank d.old × IsSet ys.now) × (ChunkEnd (length (decode ys.now)) j e × (AllWellFormed ys.now × (r ≤ 10))) }
    ensures { Gathered (cuts_of r (between j e ys.now)) d.new }
{
    let mut f = 0;
    for t in j..e {
        f = add_cut(d, ys, t, r, f);
    }
}

// Unites out with the join of a class with the members j to f of ys but ε.
fn join_chunk(
    out: &mut [u64],
    lent: &mut Lent,
    xs: &[u64],
    class: Class,
    ys: &[u64],
    j: usize,
    f: usize,
    k: u64,
) -> Result<Grown, Refusal>
    requires sets { (IsSet out.old × AllBlank lent.old) × (IsSet xs.now × IsSet ys.now) }
    requires joining { Joining k xs.now ys.now }
    requires class { ClassEnd k class.slots xs.now class.from class.to }
    requires chunk { ChunkEnd (length (decode ys.now)) j f }
    ensures grew { Grew out.old out.new (add_all (meets_of k (between class.from class.to xs.now) (between j f ys.now)) (decode out.old)) result }
    ensures cleared { AllBlank lent.new }
{
    cut_into(&mut lent.cut, ys, j, f, k - class.slots);
    let g = run_into(out, &mut lent.run, xs, class, &lent.cut, k);
    clear_set(&mut lent.cut);
    g
}

// The same with all members of ys but ε, a part at a time.
fn join_class(
    out: &mut [u64],
    lent: &mut Lent,
    xs: &[u64],
    class: Class,
    ys: &[u64],
    k: u64,
) -> Result<Grown, Refusal>
    requires sets { (IsSet out.old × AllBlank lent.old) × (IsSet xs.now × IsSet ys.now) }
    requires joining { Joining k xs.now ys.now }
    requires class { ClassEnd k class.slots xs.now class.from class.to }
    ensures grew { Grew out.old out.new (add_all (meets_of k (between class.from class.to xs.now) (decode ys.now)) (decode out.old)) result }
    ensures cleared { AllBlank lent.new }
{
    let old = count(out);
    let n = count(ys);
    let mut j = 0;
    while j < n {
        let f = chunk_end(j, n);
        join_chunk(out, lent, xs, class, ys, j, f, k)?;
        j = f;
    }
    Ok(growth(old, out))
}

// Whether x has l slots and is neither complete nor ε.
fn in_class(x: Terminals, l: u64, k: u64) -> bool
    requires { WellFormed x }
    ensures { ClassTold k l x result }
{
    if slot_count(x) != l {
        return false;
    }
    !is_complete(x, k) && !is_eps(x)
}

// The end of the class of l slots that member i is in, or of what a run has room for.
fn class_end(xs: &[u64], i: usize, l: u64, k: u64) -> usize
    requires { (IsSet xs.now × AllWellFormed xs.now) × ((i < length (decode xs.now)) × InClass k l (member_at xs.now (2 * i + 1))) }
    ensures { ClassEnd k l xs.now i result }
{
    let end = count(xs).min(i + PART);
    for e in i + 1..end {
        if !in_class(member(xs, e), l, k) {
            return e;
        }
    }
    end
}

// Goes on with the class of member i, which is x, neither complete nor ε.
fn next_class(
    out: &mut [u64],
    lent: &mut Lent,
    xs: &[u64],
    i: usize,
    x: Terminals,
    ys: &[u64],
    k: u64,
) -> Result<usize, Refusal>
    requires sets { (IsSet out.old × AllBlank lent.old) × (IsSet xs.now × IsSet ys.now) }
    requires joining { Joining k xs.now ys.now }
    requires here { (i < length (decode xs.now)) × (x ≡ member_at xs.now (2 * i + 1)) × InClass k (count_field (number_of x)) x }
    ensures step { PartStep k xs.now ys.now i result out.old out.new }
    ensures cleared { AllBlank lent.new }
{
    let slots = slot_count(x);
    let to = class_end(xs, i, slots, k);
    let class = Class { from: i, to, slots };
    join_class(out, lent, xs, class, ys, k)?;
    Ok(to)
}

// Goes on with member i: what is complete and ε have been seen to, and any other begins a class. Behind a member of k slots there are only such.
fn join_part(
    out: &mut [u64],
    lent: &mut Lent,
    xs: &[u64],
    i: usize,
    ys: &[u64],
    k: u64,
) -> Result<usize, Refusal>
    requires sets { (IsSet out.old × AllBlank lent.old) × (IsSet xs.now × IsSet ys.now) }
    requires joining { Joining k xs.now ys.now }
    requires more { i < length (decode xs.now) }
    ensures step { PartStep k xs.now ys.now i result out.old out.new }
    ensures cleared { AllBlank lent.new }
{
    let x = member(xs, i);
    if k <= slot_count(x) {
        return Ok(count(xs));
    }
    if is_complete(x, k) || is_eps(x) {
        return Ok(i + 1);
    }
    next_class(out, lent, xs, i, x, ys, k)
}

// Goes on with a join, class by class.
fn join_classes(
    out: &mut [u64],
    lent: &mut Lent,
    xs: &[u64],
    ys: &[u64],
    k: u64,
) -> Result<Grown, Refusal>
    requires sets { (IsSet out.old × AllBlank lent.old) × (IsSet xs.now × IsSet ys.now) }
    requires joining { Joining k xs.now ys.now }
    ensures { Grew out.old out.new (add_all (lefts_of k (decode xs.now) (decode ys.now)) (decode out.old)) result }
{
    let old = count(out);
    let n = count(xs);
    let mut i = 0;
    while i < n {
        i = join_part(out, lent, xs, i, ys, k)?;
    }
    Ok(growth(old, out))
}

// Whether a set that has members has ε.
fn has_eps(ys: &[u64]) -> bool
    requires { IsSet ys.now × (AllWellFormed ys.now × (0 < length (decode ys.now))) }
    ensures { result ≡ has_eps (decode ys.now) }
{
    let first = member(ys, 0);
    let e = eps(width(first));
    has(ys, e)
}

// Adds member i of xs to out if it is complete. It is looked for behind member f first; tells where it stands.
fn add_kept(out: &mut [u64], xs: &[u64], i: usize, k: u64, f: usize) -> Result<usize, Refusal>
    requires { IsSet out.old × (IsSet xs.now × ((i < length (decode xs.now)) × AllWellFormed xs.now)) }
    ensures { KeptStep k (member_at xs.now (2 * i + 1)) result out.old out.new }
{
    let x = member(xs, i);
    if !is_complete(x, k) {
        return Ok(f);
    }
    let p = place_near(out, x, f);
    insert_at(out, p, x)?;
    Ok(p)
}

// Adds the members of xs that are complete to out.
fn keep_into(out: &mut [u64], xs: &[u64], k: u64) -> Result<Grown, Refusal>
    requires { IsSet out.old × (IsSet xs.now × AllWellFormed xs.now) }
    ensures { Grew out.old out.new (add_all (keeps_of k (decode xs.now)) (decode out.old)) result }
{
    let old = count(out);
    let n = count(xs);
    let mut f = 0;
    for i in 0..n {
        f = add_kept(out, xs, i, k, f)?;
    }
    Ok(growth(old, out))
}

// Adds what stays as it is in a join to out: everything where the second set has ε, otherwise what is complete.
fn join_stay(out: &mut [u64], xs: &[u64], ys: &[u64], k: u64) -> Result<Grown, Refusal>
    requires { (IsSet out.old × (IsSet xs.now × IsSet ys.now)) × Joining k xs.now ys.now }
    ensures { Grew out.old out.new (add_all (stay_of k (decode xs.now) (decode ys.now)) (decode out.old)) result }
{
    if has_eps(ys) {
        return union_into(out, xs);
    }
    keep_into(out, xs, k)
}

// Adds the second set to out, if the first has ε.
fn join_second(out: &mut [u64], xs: &[u64], ys: &[u64], k: u64) -> Result<Grown, Refusal>
    requires { (IsSet out.old × (IsSet xs.now × IsSet ys.now)) × Joining k xs.now ys.now }
    ensures { Grew out.old out.new (add_all (second_of (decode xs.now) (decode ys.now)) (decode out.old)) result }
{
    if has_eps(xs) {
        return union_into(out, ys);
    }
    Ok(Grown::Same)
}

// Makes the join of two sets class by class in local arrays.
fn join_left(out: &mut [u64], xs: &[u64], ys: &[u64], k: u64) -> Result<Grown, Refusal>
    requires { (IsSet out.old × (IsSet xs.now × IsSet ys.now)) × Joining k xs.now ys.now }
    ensures { Grew out.old out.new (add_all (lefts_of k (decode xs.now) (decode ys.now)) (decode out.old)) result }
{
    let mut lent = Lent {
        cut: [0; PART_WORDS],
        run: [0; PART_WORDS],
    };
    join_classes(out, &mut lent, xs, ys, k)
}

// Adds the join of two sets at k to out, by runs.
fn join_runs(out: &mut [u64], xs: &[u64], ys: &[u64], k: u64) -> Result<Grown, Refusal>
    requires { (IsSet out.old × (IsSet xs.now × IsSet ys.now)) × Joining k xs.now ys.now }
    ensures { Grew out.old out.new (add_all (pairs_of k (decode xs.now) (decode ys.now)) (decode out.old)) result }
{
    let old = count(out);
    join_stay(out, xs, ys, k)?;
    join_second(out, xs, ys, k)?;
    join_left(out, xs, ys, k)?;
    Ok(growth(old, out))
}

// Whether the strings of a set that has members have 1 to k slots: the first has the fewest, and the last the most.
fn has_sizes(ys: &[u64], k: u64) -> bool
    requires { IsSet ys.now × (0 < length (decode ys.now)) }
    ensures { SizesTold k ys.now result }
{
    if slot_count(member(ys, 0)) == 0 {
        return false;
    }
    let n = count(ys);
    slot_count(member(ys, n - 1)) <= k
}

// Adds the join of two sets that have members to out: by runs where the strings of the second set have 1 to k slots.
pub fn join_large(out: &mut [u64], xs: &[u64], ys: &[u64], k: u64) -> Result<Grown, Refusal>
    requires { (IsSet out.old × (IsSet xs.now × IsSet ys.now)) × (AllJoinable k xs.now ys.now × ((0 < length (decode xs.now)) × (0 < length (decode ys.now)))) }
    ensures { Grew out.old out.new (add_all (pairs_of k (decode xs.now) (decode ys.now)) (decode out.old)) result }
{
    if has_sizes(ys, k) {
        return join_runs(out, xs, ys, k);
    }
    join_plain(out, xs, ys, k)
}
