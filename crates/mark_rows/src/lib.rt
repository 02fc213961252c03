// A text of predictions becomes rows of words. Its first line is the limit, c and the table as hexadecimal pairs; every other line is a row: the
// nonterminal, the terminals of its string and the production, parted by colons, as `1: 5 6: 2`. Lines of blanks are passed over.
#![tactic(auto)]

ghost use Rattle.std.specs.Prelude.{◌≡◌, length, IfSome, IfOk};
ghost use Rattle.io.specs.Counts.{IsPrefixLen};

use crate::tokens::{Token, digit, is_blank, token_at};
use k_tuple::Terminals;
use refusals::Refusal;
use replay::find;

mod tokens;

// ---- the first line

// The byte that the pair at a place writes, if there is one.
fn pair_at(line: &[u8], i: usize) -> Option<u8> {
    let high = digit(*line.get(i)?)?;
    let low = digit(*line.get(i + 1)?)?;
    Some(high * 16 + low)
}

// Reads pairs, with blanks between them, into lent bytes, and tells how many; nothing where there is anything else, or more than have room.
pub fn read_pairs(line: &[u8], into: &mut [u8]) -> Option<usize>
    ensures { IfSome result (λ n. IsPrefixLen n into.new) }
{
    let mut count = 0;
    let mut i = 0;
    while i < line.len() {
        if is_blank(line[i]) {
            i += 1;
            continue;
        }
        let b = pair_at(line, i)?;
        if count == into.len() {
            return None;
        }
        into[count] = b;
        count += 1;
        i += 2;
    }
    Some(count)
}

// ---- the other lines

// A prediction: a nonterminal, a string and a production.
#[derive(Clone, Copy, Debug, PartialEq, Eq)]
struct Row {
    nonterminal: u64,
    string: Terminals,
    production: u64,
}

// What stands in a line: a row, nothing, or something that is none.
#[derive(Clone, Copy, Debug, PartialEq, Eq)]
enum Line {
    Row(Row),
    Blanks,
    Unreadable,
}

// A string, or words that are none.
fn told(answer: Result<Terminals, Refusal>) -> Terminals {
    answer.unwrap_or(Terminals { lo: 0, hi: 0 })
}

// The string without terminals, where m is the greatest: the first 0 of a list.
fn empty(m: u64) -> Terminals {
    told(Terminals::make(&[0u16; 1], 0, m))
}

// Reads the terminals of a string up to a colon, at most 63, where m is the greatest; tells the string and the place behind the colon. Words that are no
// string come of terminals that make none.
fn read_string(line: &[u8], at: usize, m: u64) -> Option<(Terminals, usize)> {
    let mut string = empty(m);
    let mut i = at;
    for _ in 0..64 {
        match token_at(line, i) {
            Token::Number { value, next } => {
                string = told(string.push(value));
                i = next;
            }
            Token::Colon { next } => {
                return Some((string, next));
            }
            _ => {
                return None;
            }
        }
    }
    None
}

// The number at a place, and the place behind it.
fn read_number(line: &[u8], at: usize) -> Option<(u64, usize)> {
    match token_at(line, at) {
        Token::Number { value, next } => Some((value, next)),
        _ => None,
    }
}

// What stands behind the nonterminal of a row: a colon, a string with its colon, and a production, the last of its line.
fn row_behind(line: &[u8], at: usize, nonterminal: u64, m: u64) -> Option<Row> {
    let Token::Colon { next } = token_at(line, at) else {
        return None;
    };
    let (string, next) = read_string(line, next, m)?;
    let (production, next) = read_number(line, next)?;
    if token_at(line, next) != Token::End {
        return None;
    }
    Some(Row {
        nonterminal,
        string,
        production,
    })
}

fn read_line(line: &[u8], m: u64) -> Line {
    match token_at(line, 0) {
        Token::Number { value, next } => match row_behind(line, next, value, m) {
            Some(row) => Line::Row(row),
            None => Line::Unreadable,
        },
        Token::End => Line::Blanks,
        _ => Line::Unreadable,
    }
}

// Puts the four words of a row behind others, and tells how many there are then, if all have room.
fn put_row(rows: &mut [u64], count: usize, row: Row) -> Option<usize>
    requires { IsPrefixLen count rows.old }
    ensures { IfSome result (λ n. IsPrefixLen n rows.new) × (length rows.new ≡ length rows.old) }
{
    if rows.len() - count < 4 {
        return None;
    }
    rows[count] = row.nonterminal;
    rows[count + 1] = row.string.lo;
    rows[count + 2] = row.string.hi;
    rows[count + 3] = row.production;
    Some(count + 4)
}

// The number of a line that is no row, or has no room.
#[derive(Clone, Copy, Debug, PartialEq, Eq)]
pub struct BadLine(pub u64);

// Reads rows from a place on, where the second line of a text begins, and m is the greatest terminal; tells how many words they are.
pub fn read_rows(text: &[u8], from: usize, m: u64, rows: &mut [u64]) -> Result<usize, BadLine>
    ensures { IfOk result (λ n. IsPrefixLen n rows.new) }
{
    let mut count = 0;
    let mut line: u64 = 1;
    let mut at = from;
    while at < text.len() {
        let end = find(text, at, b'\n');
        line += 1;
        match read_line(&text[at..end], m) {
            Line::Row(row) => match put_row(rows, count, row) {
                Some(more) => count = more,
                None => return Err(BadLine(line)),
            },
            Line::Blanks => {}
            Line::Unreadable => return Err(BadLine(line)),
        }
        at = end + 1;
    }
    Ok(count)
}
