// The way back from a grammar's numbers: the part of the text that names a nonterminal or a terminal.
#![tactic(auto)]

ghost use Rattle.std.specs.Prelude.{◌≡◌, ◌+◌, ◌≤◌, length};
ghost use Rattle.abnf_tables.specs.Words.{word_at};
ghost use Rattle.abnf_names.specs.Parts.{word_part, name_numbered, state_after, opens, group_part, nonterminal_part, terminal_part, Inside};
ghost use Rattle.abnf_names.specs.Noted.{part_says, NonterminalIn, TerminalIn, Given, state_number};

use abnf_rules::machine::scan;
use abnf_tables::tables::{Counts, Notes};
use abnf_tables::words::{head_of, rank_of};

// The bytes of a text from `start` up to `end`.
#[derive(Clone, Copy)]
pub struct TextPart {
    pub start: usize,
    pub end: usize,
}

// Where the word that begins at a place ends.
fn word_end(text: &[u8], quoted: bool, from: usize) -> usize
    ensures { result ≡ from + length (word_at quoted text.now from) }
{
    for at in from..text.len() {
        if head_of(text, quoted, at) == 0 {
            return at;
        }
    }
    text.len().max(from)
}

// The word that begins at a place of the text.
fn word_part(text: &[u8], quoted: bool, from: usize) -> Option<TextPart>
    ensures { part_says result ≡ word_part quoted text.now from }
{
    let end = word_end(text, quoted, from);
    if text.len() < end {
        return None;
    }
    Some(TextPart { start: from, end })
}

// The name whose number is `number`.
fn name_numbered(text: &[u8], names: &[u16], number: u16) -> Option<TextPart>
    ensures { part_says result ≡ name_numbered text.now names.now number names.now }
{
    for &place in names {
        let from = usize::from(place);
        if rank_of(text, from, names) == usize::from(number) {
            return word_part(text, false, from);
        }
    }
    None
}

// What a byte of the rules stands in.
#[derive(Clone, Copy)]
enum Within {
    Rule,
    Literal,
    Comment,
}

// What the next byte stands in.
#[tactic(auto, unfolding(crate::specs::Parts::state_after))]
fn state_after(state: Within, b: u8) -> Within
    ensures { state_number result ≡ state_after (state_number state) b }
{
    match state {
        Within::Rule => match b {
            b'"' => Within::Literal,
            b';' => Within::Comment,
            _ => Within::Rule,
        },
        Within::Literal => {
            if b == b'"' {
                Within::Rule
            } else {
                Within::Literal
            }
        }
        Within::Comment => {
            if b == b'\r' {
                Within::Rule
            } else {
                Within::Comment
            }
        }
    }
}

// Whether a group begins with a byte.
fn opens(state: Within, b: u8) -> bool
    ensures { result ≡ opens (state_number state) b }
{
    match state {
        Within::Rule => b == b'[',
        _ => false,
    }
}

// "[" of the group g.
fn group_part(text: &[u8], g: u16) -> Option<TextPart>
    ensures { part_says result ≡ group_part 0 g 0 text.now }
{
    let mut state = Within::Rule;
    let mut left = g;
    for (at, &b) in text.iter().enumerate() {
        if opens(state, b) {
            if left == 0 {
                return Some(TextPart {
                    start: at,
                    end: at + 1,
                });
            }
            left -= 1;
        }
        state = state_after(state, b);
    }
    None
}

// The part that names a nonterminal, by the names that were noted of the rules.
pub fn nonterminal_in(text: &[u8], c: Counts, names: &[u16], number: u16) -> Option<TextPart>
    requires { (c.names + c.groups ≤ 128) × (c.names ≤ length names.now) }
    ensures { NonterminalIn text.now c number result names.now }
{
    if number < c.names {
        let end = usize::from(c.names);
        return name_numbered(text, &names[..end], number);
    }
    if number < c.names + c.groups {
        return group_part(text, number - c.names);
    }
    None
}

// The part that names a terminal, by the literals that were noted.
pub fn terminal_in(text: &[u8], c: Counts, literals: &[u16], number: u16) -> Option<TextPart>
    requires { c.literals ≤ length literals.now }
    ensures { TerminalIn text.now c number result literals.now }
{
    if number < 5 {
        return None;
    }
    let x = number - 5;
    if x < c.literals {
        let from = usize::from(literals[usize::from(x)]);
        return word_part(text, true, from);
    }
    None
}

// No part where the bytes are none and stand at the text's beginning.
fn given(p: Option<TextPart>) -> Option<TextPart>
    ensures says { part_says result ≡ part_says p }
    ensures given { Given result }
{
    match p {
        Some(TextPart { start: 0, end: 0 }) => None,
        Some(part) => Some(part),
        None => None,
    }
}

// The part of the text that names a nonterminal: the name of its rule where that first appears, or "[" of its group.
pub fn nonterminal_part(text: &[u8], number: u16) -> Option<TextPart>
    ensures says { part_says result ≡ nonterminal_part text.now number }
    ensures inside { Inside text.now (part_says result) }
    ensures given { Given result }
{
    let mut notes = Notes::new();
    if scan(text, &mut notes).is_err() {
        return None;
    }
    given(nonterminal_in(text, notes.counts, &notes.names, number))
}

// Kept: beside `nonterminal_part`. A terminal has one form and no group, and the definitions of the two have nothing in common but the reading.
// The part of the text that names a terminal: the literal where it first appears, without its quotes.
pub fn terminal_part(text: &[u8], number: u16) -> Option<TextPart>
    ensures says { part_says result ≡ terminal_part text.now number }
    ensures inside { Inside text.now (part_says result) }
    ensures given { Given result }
{
    let mut notes = Notes::new();
    if scan(text, &mut notes).is_err() {
        return None;
    }
    given(terminal_in(text, notes.counts, &notes.literals, number))
}
