// What the byte automaton reads, held against the rules of RFC 5234. No program code.
#![tactic(auto)]
