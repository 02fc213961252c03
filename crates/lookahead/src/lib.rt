// The public surface: everything that a user may call, and nothing else. No function here asks anything of its caller: what cannot be answered is
// refused, and its contract says what then stands in every lent word.
#![tactic(auto)]

// ---- why a call refuses, in the order of the rules' numbers; u64::from is the number
pub use refusals::Refusal;

// ---- packed strings: `Terminals`, two words by value, with its methods
//   Terminals::eps(m)              ε, for the greatest terminal m
//   Terminals::end(m)              the end marker alone
//   Terminals::make(list, k, m)    the first k of a list; 0 may only be the last of them
//   t.push(x)                      one slot more; refused 21 once the string has ended
//   t.cut(k)                       the first k slots
//   t.k_concat(u, k)               t and then as much of u as k leaves room for
//   t.is_k_complete(k)             whether k terminals are there, or the end marker
//   t.cmp(u)                       by length, then by value
//   t.unpack()                     the length and ten slots, ε as 65,535
pub use k_tuple::{Terminals, Unpacked};
// How many bits a slot takes, for the greatest terminal m.
pub use k_tuple::width;

// ---- sets in lent words: a count, the members in order, two words each, then zeros
// Whether a union added to its first set.
pub use k_tuples::set::Grown;
// The members that two sets have in common.
pub use k_tuples::intersection;
// Whether two sets have no member in common.
pub use k_tuples::is_disjoint;
// Whether a set has a member and every member is complete at k.
pub use k_tuples::is_k_complete;
// The complete members of the first set, and each other member joined with each of the second.
pub use k_joins::k_concat;
// The members of both sets, and whether that is more than the first has.
pub use k_tuples::union;

// ---- a register's rules: a text in ABNF becomes a table, and the table's numbers lead back to the text
// The table of a text's rules, in lent bytes: how many it takes, or a refusal and its place.
pub use abnf::grammar::read_abnf;
// A refusal and its place in the text.
pub use abnf_tables::refused::Refused;
// The bytes of a text from a start up to an end.
pub use abnf_names::TextPart;
// The part of a text that names a nonterminal: its name, or "[" of its group.
pub use abnf_names::nonterminal_part;
// The part of a text that names a terminal: its literal without quotes.
pub use abnf_names::terminal_part;

// ---- FIRST and FOLLOW of a table
// What the call answers where it does not refuse: the sizes, the width, and the rounds.
pub use engine::Lookahead;
// The part of a result that holds one set, by kind and number.
pub use engine::ask::set_of;
// FIRST and FOLLOW of a table at k, with room for c members a set, in two lent slices of words.
pub use engine::lookahead_sets;

// ---- which k a table needs
// What the call answers: how many nonterminals, and for each its k or its refusal.
pub use decision::Needed;
// The smallest k up to a limit at which the productions of each nonterminal can be told apart, in the same two slices of words.
pub use decision::needed_k;

// ---- the automata by which a reader picks its production
// The prefix tree of each nonterminal's joined strings at the k that it needs, in lent bytes: how many of them it takes, or a refusal.
pub use automaton::automata;

// ---- marking a prediction table written by hand
// Why the rows are not accepted: a refusal of the call, the first bad row, or the first missing string with its nonterminal.
pub use marking::MarkError;
// Whether rows of four words, a nonterminal, a string's two words and a production, give each joined string its production and hold nothing else.
pub use marking::mark;
