// Stored cases as text, one to a line: a word, then columns of hexadecimal numbers. Columns are parted by `|`, numbers by spaces.
#![tactic(auto)]

ghost use Rattle.std.specs.Prelude.{◌≤◌, length, IfSome};
ghost use Rattle.io.specs.Counts.{IsPrefixLen};

use std::io;

mod print;

pub use print::{decimal, readable, refused, slots, told, truth, words};

// What stands at a place of a line, and the place behind it.
#[derive(Clone, Copy, Debug, PartialEq, Eq)]
enum Token {
    Number { value: u64, next: usize },
    Bar { next: usize },
    End,
    Unreadable,
}

// What was read of a column: how many numbers, and where the next column starts if it is not the line's last.
#[derive(Clone, Copy, Debug, PartialEq, Eq)]
pub struct Column {
    pub count: usize,
    pub next: Option<usize>,
}

// The digit that a byte writes, if it writes one.
fn digit(b: u8) -> Option<u64>
    ensures { IfSome result (λ d. d ≤ 15) }
{
    match b {
        b'0'..=b'9' => Some(u64::from(b) - 48),
        b'a'..=b'f' => Some(u64::from(b) - 87),
        _ => None,
    }
}

// The number of at most 64 bits that starts at a place.
fn number_at(line: &[u8], at: usize) -> Token {
    let mut value = 0;
    let mut end = at;
    for i in at..line.len() {
        let Some(d) = digit(line[i]) else {
            break;
        };
        if 0xfff_ffff_ffff_ffff < value {
            return Token::Unreadable;
        }
        value = value * 16 + d;
        end = i + 1;
    }
    if end == at {
        return Token::Unreadable;
    }
    Token::Number { value, next: end }
}

fn token_at(line: &[u8], at: usize) -> Token {
    for i in at..line.len() {
        if line[i] == b'|' {
            return Token::Bar { next: i + 1 };
        }
        if line[i] != b' ' {
            return number_at(line, i);
        }
    }
    Token::End
}

// Reads the column that starts at a place. One that has as many numbers as are lent, or more, is unreadable, as is one with anything but numbers.
pub fn read_column(line: &[u8], at: usize, into: &mut [u64]) -> Option<Column>
    ensures { IfSome result (λ c. IsPrefixLen c.count into.new) }
{
    let mut i = at;
    for count in 0..into.len() {
        match token_at(line, i) {
            Token::Number { value, next } => {
                into[count] = value;
                i = next;
            }
            Token::Bar { next } => {
                return Some(Column {
                    count,
                    next: Some(next),
                });
            }
            Token::End => {
                return Some(Column { count, next: None });
            }
            Token::Unreadable => {
                return None;
            }
        }
    }
    None
}

// Reads the column that starts at a place and is the line's last, and tells how many numbers it has.
pub fn read_last(line: &[u8], at: usize, into: &mut [u64]) -> Option<usize>
    ensures { IfSome result (λ n. IsPrefixLen n into.new) }
{
    let column = read_column(line, at, into)?;
    if column.next.is_some() {
        return None;
    }
    Some(column.count)
}

// The first place from `at` on where a byte stands, or the end of the text.
pub fn find(text: &[u8], at: usize, b: u8) -> usize
    requires { at ≤ length text.now }
    ensures { (at ≤ result) × (result ≤ length text.now) }
{
    for i in at..text.len() {
        if text[i] == b {
            return i;
        }
    }
    text.len()
}

// Runs each line of a text, and says where one is no case.
pub fn each<F: FnMut(&[u8]) -> io::Result<bool>>(
    rt: &impl Print,
    text: &[u8],
    mut run: F,
) -> io::Result<()>
    requires { F.IsAlwaysCallable run }
{
    let mut at = 0;
    while at < text.len() {
        let end = find(text, at, b'\n');
        readable(rt, run(&text[at..end])?)?;
        at = end + 1;
    }
    Ok(())
}
