// Packed strings, for C: each function is the one of that name of `exports::strings`.
ghost use Rattle.k_tuple.specs.Packed.{reads};
ghost use Rattle.k_tuple.specs.Answers.{width_answer, eps_answer, end_answer, make_answer, unpack_answer, cut_answer, push_answer, join_answer, complete_answer, order_answer};
ghost use Rattle.exports.specs.Pairs.{pair};
ghost use Rattle.exports.specs.Told.{Told, UnpackedTo};

// The width for the greatest terminal m, in one word.
#[unsafe(no_mangle)]
pub extern "C" fn jomankitu_width(m: u64, out: &mut [u64]) -> u64
    ensures { Told 1 (width_answer m) out.old result out.new }
{
    exports::strings::jomankitu_width(m, out)
}

// ε, for the greatest terminal m, in two words.
#[unsafe(no_mangle)]
pub extern "C" fn jomankitu_eps(m: u64, out: &mut [u64]) -> u64
    ensures { Told 2 (eps_answer m) out.old result out.new }
{
    exports::strings::jomankitu_eps(m, out)
}

// The end marker alone, for the greatest terminal m, in two words.
#[unsafe(no_mangle)]
pub extern "C" fn jomankitu_end(m: u64, out: &mut [u64]) -> u64
    ensures { Told 2 (end_answer m) out.old result out.new }
{
    exports::strings::jomankitu_end(m, out)
}

// The first k of a list, for the greatest terminal m, in two words. An end marker may only be the last of them.
#[unsafe(no_mangle)]
pub extern "C" fn jomankitu_make(ts: &[u16], k: u64, m: u64, out: &mut [u64]) -> u64
    ensures { Told 2 (make_answer k m ts.now) out.old result out.new }
{
    exports::strings::jomankitu_make(ts, k, m, out)
}

// A string with one slot more, in two words. Nothing goes behind an end marker.
#[unsafe(no_mangle)]
pub extern "C" fn jomankitu_push(lo: u64, hi: u64, x: u64, out: &mut [u64]) -> u64
    ensures { Told 2 (push_answer x (reads (pair lo hi))) out.old result out.new }
{
    exports::strings::jomankitu_push(lo, hi, x, out)
}

// The first k slots of a string, in two words.
#[unsafe(no_mangle)]
pub extern "C" fn jomankitu_cut(lo: u64, hi: u64, k: u64, out: &mut [u64]) -> u64
    ensures { Told 2 (cut_answer k (reads (pair lo hi))) out.old result out.new }
{
    exports::strings::jomankitu_cut(lo, hi, k, out)
}

// The join of x with y at k, in two words.
#[unsafe(no_mangle)]
pub extern "C" fn jomankitu_join(
    xlo: u64,
    xhi: u64,
    ylo: u64,
    yhi: u64,
    k: u64,
    out: &mut [u64],
) -> u64
    ensures { Told 2 (join_answer k (reads (pair xlo xhi)) (reads (pair ylo yhi))) out.old result out.new }
{
    exports::strings::jomankitu_join(xlo, xhi, ylo, yhi, k, out)
}

// Whether a string is complete at k, in one word: 1 or 0.
#[unsafe(no_mangle)]
pub extern "C" fn jomankitu_complete(lo: u64, hi: u64, k: u64, out: &mut [u64]) -> u64
    ensures { Told 1 (complete_answer k (reads (pair lo hi))) out.old result out.new }
{
    exports::strings::jomankitu_complete(lo, hi, k, out)
}

// The order of x and y, in one word: 0 less, 1 equal, 2 greater.
#[unsafe(no_mangle)]
pub extern "C" fn jomankitu_order(xlo: u64, xhi: u64, ylo: u64, yhi: u64, out: &mut [u64]) -> u64
    ensures { Told 1 (order_answer (reads (pair xlo xhi)) (reads (pair ylo yhi))) out.old result out.new }
{
    exports::strings::jomankitu_order(xlo, xhi, ylo, yhi, out)
}

// The length of a string and ten slots, ε as 65,535 and unused places 0, in eleven words.
#[unsafe(no_mangle)]
pub extern "C" fn jomankitu_unpack(lo: u64, hi: u64, out: &mut [u64]) -> u64
    ensures { UnpackedTo (unpack_answer (reads (pair lo hi))) out.old result out.new }
{
    exports::strings::jomankitu_unpack(lo, hi, out)
}
