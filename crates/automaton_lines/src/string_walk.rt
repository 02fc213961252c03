// A string walked through a nonterminal's automaton, as its bytes have it: how far it comes, and to which production. Bytes that are no automata lead
// somewhere, and nowhere outside them.
use lines::{Slots, number};

// The place behind so many arrows.
fn behind_arrows(bytes: &[u8], place: usize, count: u16) -> usize {
    let mut at = place;
    for _ in 0..count {
        let terminal = number(bytes, at);
        let target = number(bytes, terminal.next);
        at = target.next;
    }
    at
}

// The place behind so many states.
fn behind_states(bytes: &[u8], place: usize, count: u16) -> usize {
    let mut at = place;
    for _ in 0..count {
        let production = number(bytes, at);
        let arrows = number(bytes, production.next);
        at = behind_arrows(bytes, arrows.next, arrows.value);
    }
    at
}

// Where the automaton of a nonterminal stands.
fn automaton_at(bytes: &[u8], nonterminal: u64) -> usize {
    let mut at = 0;
    for _ in 0..nonterminal {
        let count = number(bytes, at);
        at = behind_states(bytes, count.next, count.value);
    }
    at
}

// The target of an arrow by a terminal, among so many, if there is one. No arrow leads to the first state, whose number is 0.
fn target_of(bytes: &[u8], place: usize, count: u16, x: u16) -> Option<u16> {
    let mut at = place;
    for _ in 0..count {
        let terminal = number(bytes, at);
        let target = number(bytes, terminal.next);
        if terminal.value == x {
            return if target.value == 0 {
                None
            } else {
                Some(target.value)
            };
        }
        at = target.next;
    }
    None
}

// A state: the production that it accepts, if it does; how many arrows leave it, and where they stand.
#[derive(Clone, Copy, Debug, PartialEq, Eq)]
pub struct Stop {
    pub production: Option<u16>,
    pub arrows: u16,
    pub place: usize,
}

// The state with a number, where the states begin at a place.
fn stop_at(bytes: &[u8], first: usize, state: u16) -> Stop {
    let production = number(bytes, behind_states(bytes, first, state));
    let arrows = number(bytes, production.next);
    Stop {
        production: production.value.checked_sub(1),
        arrows: arrows.value,
        place: arrows.next,
    }
}

// How far a string comes: how many states there are, how many of its terminals were taken, and where it stops.
#[derive(Clone, Copy, Debug, PartialEq, Eq)]
pub struct Reached {
    pub states: u16,
    pub taken: usize,
    pub stop: Stop,
}

// Walks the slots of a string.
pub fn follow_string(bytes: &[u8], nonterminal: u64, string: &Slots) -> Reached {
    let count = number(bytes, automaton_at(bytes, nonterminal));
    let mut stop = stop_at(bytes, count.next, 0);
    let mut taken = 0;
    for (i, slot) in string.slots.iter().take(string.used).enumerate() {
        let Some(target) = target_of(bytes, stop.place, stop.arrows, *slot) else {
            break;
        };
        stop = stop_at(bytes, count.next, target);
        taken = i + 1;
    }
    Reached {
        states: count.value,
        taken,
        stop,
    }
}
