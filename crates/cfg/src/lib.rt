// Numbered grammars: the table that a register's clerk writes is read into lent words, and tested.
// Refusals 3 to 7 are the reader's (table), 8 and 9 the tests' behind it (accept), which go through the productions (grammar).
#![tactic(auto)]

pub mod accept;
pub mod grammar;
pub mod table;
