// A register's rules for C: a text in ABNF becomes a table, and the table's numbers lead back to the text.
ghost use Rattle.std.specs.Prelude.{◌≡◌, List, ◌≤◌};
ghost use Rattle.k_tuple.specs.Paper.{gives};
ghost use Rattle.abnf.specs.Abnf.{table_of, answer_says};
ghost use Rattle.abnf_names.specs.Parts.{nonterminal_part, terminal_part};
ghost use Rattle.abnf_names.specs.Noted.{part_says};
ghost use Rattle.exports.specs.Told.{Told};
ghost use Rattle.exports.specs.Rules.{answer_number, answer_words, part_words, refusal_of, ReadFor};

use crate::tell;
use lookahead::{Refused, TextPart, nonterminal_part, read_abnf, terminal_part};

// The number of a refusal, 0 where a table is written.
fn answer_number(a: Result<usize, Refused>) -> u64
    ensures { result ≡ answer_number (answer_says a) }
{
    match a {
        Ok(_) => 0,
        Err(e) => u64::from(e.refusal),
    }
}

// The bytes that are written, and the place of the refusal.
fn answer_words(a: Result<usize, Refused>) -> [u64; 2]
    ensures { result ≡ answer_words (answer_says a) }
{
    match a {
        Ok(n) => [n as u64, 0],
        Err(e) => [0, u64::from(e.place)],
    }
}

// The refusal of a text where no bytes are lent for its table.
fn unlent(text: &[u8]) -> u64
    ensures { result ≡ refusal_of (table_of text.now 0) }
{
    let mut none = [0u8; 0];
    answer_number(read_abnf(text, &mut none))
}

// The table of a text's rules, in lent bytes. The answer takes two words: how many bytes are written, and the place of a refusal.
pub fn jomankitu_read_abnf(text: &[u8], table: &mut [u8], answer: &mut [u64]) -> u64
    ensures { ReadFor text.now table.old answer.old result table.new
        answer.new }
{
    if answer.len() < 2 {
        return unlent(text);
    }
    let a = read_abnf(text, table);
    let words = answer_words(a);
    tell(answer, answer_number(a), &words)
}

// Where a part begins, and its length; 0 and 0 for none.
fn part_words(part: Option<TextPart>) -> [u64; 2]
    requires { (part_says part).start ≤ (part_says part).end }
    ensures { result ≡ part_words (part_says part) }
{
    match part {
        Some(p) => [p.start as u64, (p.end - p.start) as u64],
        None => [0, 0],
    }
}

// Where in a text the name of a nonterminal is, or "[" of its group, and its length, in two words; 0 and 0 where there is none.
pub fn jomankitu_nonterminal_part(text: &[u8], number: u64, out: &mut [u64]) -> u64
    ensures { Told 2 (gives (part_words (nonterminal_part text.now number))) out.old result
        out.new }
{
    if 65535 < number {
        return tell(out, 0, &[0, 0]);
    }
    let words = part_words(nonterminal_part(text, number as u16));
    tell(out, 0, &words)
}

// Kept: beside the one for a nonterminal, as in `abnf_names`; C calls both by their names.
// Where in a text the literal of a terminal is, without its quotes, and its length, in two words; 0 and 0 where there is none.
pub fn jomankitu_terminal_part(text: &[u8], number: u64, out: &mut [u64]) -> u64
    ensures { Told 2 (gives (part_words (terminal_part text.now number))) out.old result
        out.new }
{
    if 65535 < number {
        return tell(out, 0, &[0, 0]);
    }
    let words = part_words(terminal_part(text, number as u16));
    tell(out, 0, &words)
}
