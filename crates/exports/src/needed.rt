// Which k a table needs, for C.
ghost use Rattle.std.specs.Prelude.{◌≡◌, ◌+◌, ◌≤◌, length};
ghost use Rattle.decision.specs.Call.{refusal_in, refusals_in, ks_in, recorded};
ghost use Rattle.exports.specs.Needed.{PutAt, PutRecord, NeededCalled};

use crate::refusal_number;
use k_tuples::set::copy_front;
use lookahead::{Needed, Refusal, needed_k};

// Copies words to a place of others.
fn put_at(answer: &mut [u64], at: usize, words: &[u64])
    requires { at + length words.now ≤ length answer.old }
    ensures { PutAt at words.now answer.old answer.new }
{
    let n = words.len();
    copy_front(&mut answer[at..], words, n);
}

// Four groups of numbers at the front of lent words.
fn put_numbers(answer: &mut [u64], refusal: u64, n: u64, refusals: &[u64; 128], ks: &[u64; 128])
    requires { 258 ≤ length answer.old }
    ensures { PutRecord (record { refusal = refusal; n = n; refusals = refusals.now; ks = ks.now }) answer.old answer.new }
{
    put_at(answer, 130, ks);
    put_at(answer, 2, refusals);
    copy_front(answer, &[refusal, n], 2);
}

// The number of a nonterminal's refusal, 0 where it has a k.
fn refusal_in(answer: Result<u64, Refusal>) -> u64
    ensures { result ≡ refusal_in answer }
{
    match answer {
        Ok(_) => 0,
        Err(e) => u64::from(e),
    }
}

// The numbers of all refusals.
fn refusals_in(answers: &[Result<u64, Refusal>; 128]) -> [u64; 128]
    ensures { result ≡ refusals_in answers.now }
{
    let mut numbers = [0u64; 128];
    for i in 0..128 {
        numbers[i] = refusal_in(answers[i]);
    }
    numbers
}

// Every k, 0 where there is none.
fn ks_in(answers: &[Result<u64, Refusal>; 128]) -> [u64; 128]
    ensures { result ≡ ks_in answers.now }
{
    let mut ks = [0u64; 128];
    for i in 0..128 {
        ks[i] = answers[i].unwrap_or(0);
    }
    ks
}

// The answer as numbers at the front of lent words.
fn put_record(answer: &mut [u64], a: Result<Needed, Refusal>)
    requires { 258 ≤ length answer.old }
    ensures { PutRecord (recorded a) answer.old answer.new }
{
    match a {
        Ok(a) => {
            let answers = a.answers;
            put_numbers(answer, 0, a.n, &refusals_in(&answers), &ks_in(&answers));
        }
        Err(e) => put_numbers(answer, u64::from(e), 0, &[0; 128], &[0; 128]),
    }
}

// The k that each nonterminal of a table needs, up to a limit, with room for c members in each set. The answer takes 258 words.
pub fn jomankitu_needed_k(
    limit: u64,
    c: u64,
    table: &[u8],
    res: &mut [u64],
    scratch: &mut [u64],
    answer: &mut [u64],
) -> u64
    ensures { NeededCalled limit c table.now res.old scratch.old answer.old result res.new scratch.new answer.new }
{
    if answer.len() < 258 {
        let a = needed_k(limit, c, table, &mut res[..0], &mut scratch[..0]);
        return refusal_number(&a);
    }
    let a = needed_k(limit, c, table, res, scratch);
    put_record(answer, a);
    refusal_number(&a)
}
