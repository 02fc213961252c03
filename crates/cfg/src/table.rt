// The grammar table's reader.
ghost use Rattle.std.specs.Prelude.{◌≡◌, ◌+◌, ◌-◌, ◌*◌, ◌≤◌, ◌<◌, ◌&&◌, leb, ltb, [], map, length, take, drop};
ghost use Rattle.refusals.specs.Numbers.{number as number_of};
ghost use Rattle.cfg.specs.Number.{number, says, says_number};
ghost use Rattle.cfg.specs.Table.{field, symbol, symbols, production, productions, header, read_table, says_words, header_says, table_says, HeaderInside, TableSound, UsesBetween};
ghost use Rattle.cfg.specs.Words.{Sound, SoundHead, SpanAt};
ghost use Rattle.cfg.specs.Written.{symbol_of, productions_of, nonterminals, occurrences};

use crate::grammar::Productions;
use refusals::Refusal;

// A value and the place behind it.
#[derive(Clone, Copy, Debug, PartialEq, Eq)]
pub struct Read<T> {
    pub value: T,
    pub next: usize,
}

// The four numbers before the productions: n nonterminals, t terminals, the start, p productions.
#[derive(Clone, Copy, Debug, PartialEq, Eq)]
pub struct Shape {
    pub n: u16,
    pub t: u16,
    pub start: u16,
    pub p: u16,
}

// A grammar whose productions stand in the first `used` of the lent words.
#[derive(Clone, Copy, Debug, PartialEq, Eq)]
pub struct Table {
    pub shape: Shape,
    pub used: u16,
}

// One production in the words: its left side, and the part that its symbols are.
#[derive(Clone, Copy, Debug, PartialEq, Eq)]
pub struct Span {
    pub left: u16,
    pub from: usize,
    pub to: usize,
}

// Whether a byte may be the last group of two: no third follows it, and it is not 0.
fn is_last(group: u16) -> bool
    ensures { result ≡ (leb 1 group && ltb group 128) }
{
    1 <= group && group < 128
}

// A number of one or two groups of seven bits, in its shortest form.
pub fn read_number(table: &[u8], at: usize) -> Result<Read<u16>, Refusal>
    ensures { says result ≡ number table.now at }
{
    if table.len() <= at {
        return Err(Refusal::TableEnds);
    }
    let low = u16::from(table[at]);
    let after = at + 1;
    if low < 128 {
        return Ok(Read {
            value: low,
            next: after,
        });
    }
    if table.len() <= after {
        return Err(Refusal::TableEnds);
    }
    let high = u16::from(table[after]);
    if !is_last(high) {
        return Err(Refusal::BadNumber);
    }
    Ok(Read {
        value: low - 128 + high * 128,
        next: after + 1,
    })
}

// Whether a number lies from `least` to `most`.
fn is_within(v: u16, least: u16, most: u16) -> bool
    ensures { result ≡ (leb least v && leb v most) }
{
    least <= v && v <= most
}

// A number from `least` to `most`; one outside them is refused by the number `refusal`, whatever that is. The table's own reader says which `Refusal`.
pub fn read_field(
    table: &[u8],
    refusal: u64,
    least: u16,
    most: u16,
    at: usize,
) -> Result<Read<u16>, u64>
    ensures { says_number result ≡ field table.now refusal least most at }
{
    match read_number(table, at) {
        Ok(read) => {
            if is_within(read.value, least, most) {
                Ok(read)
            } else {
                Err(refusal)
            }
        }
        Err(e) => Err(u64::from(e)),
    }
}

// A number from `least` to `most`; one outside them is refused by `refusal`.
fn read_within(
    table: &[u8],
    refusal: Refusal,
    least: u16,
    most: u16,
    at: usize,
) -> Result<Read<u16>, Refusal>
    ensures { says result ≡ field table.now (number_of refusal) least most at }
{
    let read = read_number(table, at)?;
    if !is_within(read.value, least, most) {
        return Err(refusal);
    }
    Ok(read)
}

// A symbol's number: 2i with i below n, or 2x + 1 with x from 5 to t + 4.
pub fn read_symbol(table: &[u8], shape: Shape, at: usize) -> Result<Read<u16>, Refusal>
    requires { shape.t ≤ 4089 }
    ensures { says result ≡ symbol table.now shape.n shape.t at }
{
    let read = read_number(table, at)?;
    let number = read.value / 2;
    let inside = if read.value % 2 == 0 {
        number < shape.n
    } else {
        5 <= number && number <= shape.t + 4
    };
    if !inside {
        return Err(Refusal::SymbolOutside);
    }
    Ok(read)
}

// `count` symbols go to `words` from `used` on. The value is the number of words then in use.
// Kept: no heap. The words in use are the front of the lent ones, where a Vec would stand.
pub fn read_symbols(
    table: &[u8],
    shape: Shape,
    count: u16,
    words: &mut [u16],
    used: u16,
    at: usize,
) -> Result<Read<u16>, Refusal>
    requires { (shape.t ≤ 4089) × (used + count ≤ length words.old) × (used + count < 65536) }
    ensures reads { says_words result words.new ≡ symbols table.now shape.n shape.t count (take used words.old) at }
    ensures uses { UsesBetween result (used + count) (used + count) }
{
    let end = used + count;
    let mut next = at;
    for i in used..end {
        let read = read_symbol(table, shape, next)?;
        words[usize::from(i)] = read.value;
        next = read.next;
    }
    Ok(Read { value: end, next })
}

// One production goes to `words` from `used` on: its left side, its length and its symbols. `total` symbols were read before it.
pub fn read_production(
    table: &[u8],
    shape: Shape,
    total: u16,
    words: &mut [u16],
    used: u16,
    at: usize,
) -> Result<Read<u16>, Refusal>
    requires { (1 ≤ shape.n) × (shape.t ≤ 4089) × (total ≤ 4096) × (used + 2 + (4096 - total) ≤ length words.old) × (used + 2 + (4096 - total) < 65536) }
    ensures reads { says_words result words.new ≡ production table.now shape.n shape.t total (take used words.old) at }
    ensures uses { UsesBetween result (used + 2) (used + 2 + (4096 - total)) }
{
    let left = read_within(table, Refusal::SymbolOutside, 0, shape.n - 1, at)?;
    let most = u16::min(64, 4096 - total);
    let size = read_within(table, Refusal::CountOutside, 0, most, left.next)?;
    let place = usize::from(used);
    words[place] = left.value;
    words[place + 1] = size.value;
    read_symbols(table, shape, size.value, words, used + 2, size.next)
}

// The productions go to `words`. The value is the number of words then in use.
pub fn read_productions(
    table: &[u8],
    shape: Shape,
    words: &mut [u16],
    at: usize,
) -> Result<Read<u16>, Refusal>
    requires { (1 ≤ shape.n) × (shape.t ≤ 4089) × (shape.p ≤ 512) × (5120 ≤ length words.old) }
    ensures reads { says_words result words.new ≡ productions table.now shape.n shape.t 0 shape.p [] at }
    ensures uses { UsesBetween result (2 * shape.p) (2 * shape.p + 4096) }
{
    let mut done = Read { value: 0, next: at };
    for i in 0..shape.p {
        done = read_production(
            table,
            shape,
            done.value - 2 * i,
            words,
            done.value,
            done.next,
        )?;
    }
    Ok(done)
}

// The four numbers before the productions.
pub fn read_header(table: &[u8]) -> Result<Read<Shape>, Refusal>
    ensures reads { header_says result ≡ header table.now }
    ensures inside { HeaderInside result }
{
    let n = read_within(table, Refusal::CountOutside, 1, 128, 0)?;
    let t = read_within(table, Refusal::CountOutside, 0, 4089, n.next)?;
    let start = read_within(table, Refusal::SymbolOutside, 0, n.value - 1, t.next)?;
    let p = read_within(table, Refusal::CountOutside, 0, 512, start.next)?;
    let shape = Shape {
        n: n.value,
        t: t.value,
        start: start.value,
        p: p.value,
    };
    Ok(Read {
        value: shape,
        next: p.next,
    })
}

// The whole table. Its productions go to `words`.
pub fn read_table(table: &[u8], words: &mut [u16]) -> Result<Table, Refusal>
    requires { 5120 ≤ length words.old }
    ensures reads { table_says result (length table.now) words.new ≡ read_table table.now }
    ensures sound { TableSound result words.new }
{
    let header = read_header(table)?;
    let rest = read_productions(table, header.value, words, header.next)?;
    if rest.next != table.len() {
        return Err(Refusal::BytesLeft);
    }
    Ok(Table {
        shape: header.value,
        used: rest.value,
    })
}

// The production whose words begin at a place: how every later pass goes from one production to the next.
pub fn span_at(words: &[u16], at: usize) -> Span
    requires { (at ≤ length words.now) × SoundHead 128 (drop at words.now) }
    ensures { SpanAt words.now at result }
{
    let from = at + 2;
    Span {
        left: words[at],
        from,
        to: from + usize::from(words[at + 1]),
    }
}

// How many symbols of a right side are nonterminals.
fn count_nonterminals(right: &[u16]) -> usize
    ensures { (result ≡ nonterminals (map symbol_of right.now)) × (result ≤ length right.now) }
{
    right.iter().filter(|code| **code % 2 == 0).count()
}

// q, the nonterminals in all right sides.
pub fn count_occurrences(words: &[u16], p: u16) -> usize
    requires { Sound 128 p words.now }
    ensures { result ≡ occurrences (productions_of p words.now) }
{
    let ps = Productions { words, p };
    let mut count = 0;
    for q in ps {
        count += count_nonterminals(q.right);
    }
    count
}
