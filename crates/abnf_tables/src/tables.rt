// What is noted of the rules while they are read: four lists, and how much of each is in use.
ghost use Rattle.std.specs.Prelude.{◌≡◌, ℕ, ◌+◌, ◌*◌, ◌≤◌, ◌<◌, length, get_or, take};
ghost use Rattle.abnf_tables.specs.Tables.{first_element, element, noted, used, ruled, defined, listed, literal, group_of, opened, closed, among, holder, in_hand, in_group};
ghost use Rattle.abnf_tables.specs.Says.{tables_of, tables_say, with_counts, no_counts, Sane, SaneBuilt, PutItem, Builds, BeginsLeft, counted_of, produced_of, grouped_of};

use crate::refused::{Refused, refuse};
use crate::words::find_in;
use refusals::Refusal;

// How much of each list is in use; the groups, the productions and the symbols so far; the left side in hand, and the symbols of its alternative in hand.
#[derive(Clone, Copy, Default)]
pub struct Counts {
    pub names: u16,
    pub literals: u16,
    pub lefts: u16,
    pub items: u16,
    pub groups: u16,
    pub productions: u16,
    pub symbols: u16,
    pub left: u16,
    pub size: u16,
}

// The places of the names and of the literals, the left sides, and the items of their right sides.
#[derive(Drop)]
pub struct Notes {
    pub names: [u16; 128],
    pub literals: [u16; 4089],
    pub lefts: [u16; 128],
    pub items: [u32; 4608],
    pub counts: Counts,
}

impl Notes {
    // Nothing is noted.
    pub fn new() -> Notes
        ensures { result.counts ≡ no_counts }
    {
        Notes {
            names: [0; 128],
            literals: [0; 4089],
            lefts: [0; 128],
            items: [0; 4608],
            counts: Counts::default(),
        }
    }

    // An item of the left side in hand.
    fn put_item(&mut self, code: u16)
        requires { self.old.counts.items < 4608 }
        ensures { PutItem code self.old self.new }
    {
        self.items[usize::from(self.counts.items)] = 65536 * u32::from(self.counts.left)
            + u32::from(code);
        self.counts.items += 1;
    }

    // One symbol more, of the alternative in hand.
    fn count_symbol(&mut self)
        requires { (self.old.counts.symbols < 4096) × (self.old.counts.size < 64) }
        ensures { self.new ≡ with_counts self.old (counted_of self.old.counts) }
    {
        self.counts.symbols += 1;
        self.counts.size += 1;
    }

    // One production more.
    fn count_production(&mut self)
        requires { self.old.counts.productions < 512 }
        ensures { self.new ≡ with_counts self.old (produced_of self.old.counts) }
    {
        self.counts.productions += 1;
    }

    // An element begins at a place, the first of its alternative.
    fn begin_alternative(&mut self, at: u16) -> Result<(), Refused>
        requires { Sane 0 self.old.counts × (self.old.counts.size < 1) × (self.old.counts.symbols < 4096) }
        ensures { Builds (first_element at) 1 self.old result self.new }
    {
        if 512 <= self.counts.productions {
            return refuse(Refusal::LimitPassed, at);
        }
        self.put_item(1);
        self.count_production();
        self.count_symbol();
        Ok(())
    }

    // An element begins at a place: it is counted, and where it is the first of its alternative, so is a production.
    pub fn begin_element(&mut self, at: u16) -> Result<(), Refused>
        requires { Sane 0 self.old.counts }
        ensures { Builds (element at) 1 self.old result self.new }
    {
        if 64 <= self.counts.size {
            return refuse(Refusal::LimitPassed, at);
        }
        if 4096 <= self.counts.symbols {
            return refuse(Refusal::LimitPassed, at);
        }
        if 1 <= self.counts.size {
            self.count_symbol();
            return Ok(());
        }
        self.begin_alternative(at)
    }

    // Name k, which begins at `from`, is noted where it is new.
    fn note_name(&mut self, k: u16, from: u16) -> Result<(), Refused>
        requires { self.old.counts.names + self.old.counts.groups ≤ 128 }
        ensures says { tables_say result self.new ≡ noted k from (tables_of self.old) }
        ensures sane { (s : ℕ) → Sane s self.old.counts → SaneBuilt s result self.new }
    {
        if k < self.counts.names {
            return Ok(());
        }
        if 128 <= self.counts.names + self.counts.groups {
            return refuse(Refusal::LimitPassed, from);
        }
        self.names[usize::from(self.counts.names)] = from;
        self.counts.names += 1;
        Ok(())
    }

    // A name that is used ends.
    pub fn use_name(&mut self, text: &[u8], from: u16) -> Result<(), Refused>
        requires { Sane 1 self.old.counts }
        ensures { Builds (used text.now from) 0 self.old result self.new }
    {
        let k = find_in(text, false, from, &self.names, self.counts.names);
        self.note_name(k, from)?;
        self.put_item(2 * k);
        Ok(())
    }

    // A left side begins.
    fn begin_left(&mut self, l: u16)
        requires { self.old.counts.lefts < 128 }
        ensures { BeginsLeft l self.old self.new }
    {
        self.lefts[usize::from(self.counts.lefts)] = l;
        self.counts.left = self.counts.lefts;
        self.counts.size = 0;
        self.counts.lefts += 1;
    }

    // The rule of name k begins, unless it was defined before.
    fn begin_rule(&mut self, k: u16, from: u16) -> Result<(), Refused>
        requires { Sane 0 self.old.counts }
        ensures { Builds (ruled k from) 0 self.old result self.new }
    {
        if is_among(k, &self.lefts, self.counts.lefts) {
            return refuse(Refusal::BadSyntax, from);
        }
        if 128 <= self.counts.lefts {
            return refuse(Refusal::LimitPassed, from);
        }
        self.begin_left(k);
        Ok(())
    }

    // A name that is defined ends: a left side begins.
    pub fn define_name(&mut self, text: &[u8], from: u16) -> Result<(), Refused>
        requires { Sane 0 self.old.counts }
        ensures { Builds (defined text.now from) 0 self.old result self.new }
    {
        let k = find_in(text, false, from, &self.names, self.counts.names);
        self.note_name(k, from)?;
        self.begin_rule(k, from)
    }

    // Literal x, whose first byte is at `from` and its quote before that, is noted where it is new.
    fn note_literal(&mut self, x: u16, from: u16) -> Result<(), Refused>
        requires { (1 ≤ from) × (self.old.counts.literals ≤ 4089) }
        ensures says { tables_say result self.new ≡ listed x from (tables_of self.old) }
        ensures sane { (s : ℕ) → Sane s self.old.counts → SaneBuilt s result self.new }
    {
        if x < self.counts.literals {
            return Ok(());
        }
        if 4089 <= self.counts.literals {
            return refuse(Refusal::LimitPassed, from - 1);
        }
        self.literals[usize::from(self.counts.literals)] = from;
        self.counts.literals += 1;
        Ok(())
    }

    // A literal ends, whose first byte is at `from`.
    pub fn end_literal(&mut self, text: &[u8], from: u16) -> Result<(), Refused>
        requires { Sane 1 self.old.counts × (1 ≤ from) }
        ensures { Builds (literal text.now from) 0 self.old result self.new }
    {
        let x = find_in(text, true, from, &self.literals, self.counts.literals);
        self.note_literal(x, from)?;
        self.put_item(2 * (x + 5) + 1);
        Ok(())
    }

    // One group more, and its empty production.
    fn count_group(&mut self)
        requires { (self.old.counts.groups < 128) × (self.old.counts.productions < 512) }
        ensures { self.new ≡ with_counts self.old (grouped_of self.old.counts) }
    {
        self.counts.groups += 1;
        self.counts.productions += 1;
    }

    // "[": a group begins, as a symbol and as a left side.
    fn begin_group(&mut self)
        requires { Sane 1 self.old.counts × (self.old.counts.names + self.old.counts.groups < 128)
            × (self.old.counts.lefts < 128) × (self.old.counts.productions < 512) }
        ensures says { tables_of self.new ≡ group_of (tables_of self.old) }
        ensures sane { Sane 0 self.new.counts }
    {
        let g = 128 + self.counts.groups;
        self.put_item(2 * g);
        self.count_group();
        self.begin_left(g);
    }

    // "[" at a place, where the limits leave room for a group.
    pub fn open_group(&mut self, at: u16) -> Result<(), Refused>
        requires { Sane 1 self.old.counts }
        ensures { Builds (opened at) 0 self.old result self.new }
    {
        if 128 <= self.counts.names + self.counts.groups {
            return refuse(Refusal::LimitPassed, at);
        }
        if 128 <= self.counts.lefts {
            return refuse(Refusal::LimitPassed, at);
        }
        if 512 <= self.counts.productions {
            return refuse(Refusal::LimitPassed, at);
        }
        self.begin_group();
        Ok(())
    }

    // "]": back to the left side in which the group stands.
    pub fn close_group(&mut self)
        requires { Sane 0 self.old.counts }
        ensures says { tables_of self.new ≡ closed (tables_of self.old) }
        ensures sane { Sane 0 self.new.counts }
    {
        let group = left_in_hand(&self.lefts, self.counts.lefts, self.counts.left);
        let left = holder_of(2 * u32::from(group), &self.items, self.counts.items);
        self.counts.size = count_in_hand(left, &self.items, self.counts.items);
        self.counts.left = left;
    }

    // Whether the left side in hand is a group.
    pub fn in_group(&self) -> bool
        requires { self.now.counts.lefts ≤ 128 }
        ensures { result ≡ in_group (tables_of self.now) }
    {
        128 <= left_in_hand(&self.lefts, self.counts.lefts, self.counts.left)
    }
}

// Whether a number is among the first `count` of some.
pub fn is_among(k: u16, list: &[u16], count: u16) -> bool
    requires { count ≤ length list.now }
    ensures { result ≡ among k (take count list.now) }
{
    list[..usize::from(count)].contains(&k)
}

// The left side in hand: k for the rule of name k, 128 + g for the group g.
pub fn left_in_hand(lefts: &[u16], count: u16, left: u16) -> u16
    requires { count ≤ length lefts.now }
    ensures { result ≡ get_or (take count lefts.now) left 0 }
{
    if left < count {
        return lefts[usize::from(left)];
    }
    0
}

// The left side in whose right side a code stands.
fn holder_of(code: u32, items: &[u32], count: u16) -> u16
    requires { count ≤ length items.now }
    ensures { result ≡ holder code (take count items.now) }
{
    for &word in &items[..usize::from(count)] {
        if word % 65536 == code {
            return (word / 65536) as u16;
        }
    }
    0
}

// The symbols of a left side's last alternative.
fn count_in_hand(left: u16, items: &[u32], count: u16) -> u16
    requires { count ≤ length items.now }
    ensures { result ≡ in_hand left 0 (take count items.now) }
{
    let side = u32::from(left);
    let mut n: u16 = 0;
    for &word in &items[..usize::from(count)] {
        if word / 65536 == side {
            n = if word % 65536 == 1 { 0 } else { n + 1 };
        }
    }
    n
}
