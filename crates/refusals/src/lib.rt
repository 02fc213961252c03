// The refusals of the rules: one for each number of their table. A call that refuses returns one of these as its error, and so `?` passes it on;
// for C, and in print, a refusal is its number.
#![tactic(auto)]

ghost use Rattle.std.specs.Prelude.{◌≡◌};
ghost use Rattle.refusals.specs.Numbers.{number};

use std::error::Error;
use std::fmt;

// In the order of their numbers, which begin at 1.
#[derive(Clone, Copy, Debug, PartialEq, Eq)]
pub enum Refusal {
    // 1: k, or a limit of k, outside its range
    KOutside = 1,
    // 2: the room for members outside its range
    RoomOutside = 2,
    // 3: a table that ends early
    TableEnds = 3,
    // 4: a number over two groups, or not in its shortest form
    BadNumber = 4,
    // 5: a count outside its limits
    CountOutside = 5,
    // 6: a start, left side or symbol outside its range
    SymbolOutside = 6,
    // 7: bytes left over
    BytesLeft = 7,
    // 8: a nonterminal that derives nothing
    Unproductive = 8,
    // 9: left recursion
    LeftRecursive = 9,
    // 10: too few lent words or bytes
    LentTooFew = 10,
    // 11: a set with more members than its room
    SetTooLarge = 11,
    // 12: a level of FIRST that does not settle in n + 1 rounds
    NotSettled = 12,
    // 13: not a well-formed string or set
    Malformed = 13,
    // 14: a terminal over the greatest, or the greatest over 4,094
    TerminalOutside = 14,
    // 15: two widths that differ
    WidthsDiffer = 15,
    // 16: a push onto ten slots
    StringFull = 16,
    // 17: a push onto ε
    PushOntoEps = 17,
    // 18: text that no rule of the registers' ABNF begins with, an empty literal, a name defined again
    BadSyntax = 18,
    // 19: a name that no rule defines
    Undefined = 19,
    // 20: a limit of the text passed
    LimitPassed = 20,
    // 21: a terminal behind an end marker
    BehindEnd = 21,
    // 22: no k up to the limit serves
    NoneServes = 22,
    // 23: an automaton of more than 2,048 states
    TooManyStates = 23,
    // 24: a bad row
    BadRow = 24,
    // 25: a missing string
    StringMissing = 25,
}

impl From<Refusal> for u64 {
    ghost from_gives = { λ r n. n ≡ number r };

    fn from(r: Refusal) -> u64 {
        r as u64
    }
}

impl fmt::Display for Refusal {
    fn fmt<W: fmt::Write>(&self, f: &mut fmt::Formatter<W>) -> fmt::Result {
        write!(f, "refused {}", u64::from(*self))
    }
}

impl Error for Refusal {}
