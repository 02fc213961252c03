// From what was noted of a text's rules to the bytes of its table: numbers first, each production's in a local list, and then their bytes. `read_abnf` is
// the public function; those above it are its steps.
ghost use Rattle.std.specs.Prelude.{◌≡◌, ◌++◌, map, ◌+◌, ◌*◌, ◌≤◌, ◌<◌, length, get_or, take, drop, set};
ghost use Rattle.cfg.specs.Write.{write_numbers, all_numbers, production_numbers, code_of};
ghost use Rattle.abnf.specs.Numbering.{number_of, symbol_of, right, alternatives, empty_of, productions_of, productions_from, production_of};
ghost use Rattle.abnf.specs.Abnf.{table_of, ReadsAbnf};
ghost use Rattle.abnf.specs.Writes.{table_says, Kept, FirstMissing, Puts, PutsAll, AllBelow, Pastes, WritesTable, Numbered, Scanned, table_bytes};

use abnf_rules::machine::scan;
use abnf_tables::refused::{Refused, refuse};
use abnf_tables::tables::{Counts, Notes, is_among};
use abnf_tables::words::rank_of;
use refusals::Refusal;

// How many numbers are in use, and how many productions they hold.
#[derive(Clone, Copy)]
struct Put {
    used: u16,
    count: u16,
}

// The first name that no rule defines.
fn first_missing(lefts: &[u16], count: u16, names: u16) -> Option<u16>
    requires { count ≤ length lefts.now }
    ensures { FirstMissing (take count lefts.now) names result }
{
    for k in 0..names {
        if !is_among(k, lefts, count) {
            return Some(k);
        }
    }
    None
}

// The number at a place of a list, and 0 behind it.
fn word_at(list: &[u16], at: u16) -> u16
    ensures { result ≡ get_or list.now at 0 }
{
    list.get(usize::from(at)).copied().unwrap_or(0)
}

// The number of a left side.
fn number_of(text: &[u8], names: &[u16], left: u16) -> u16
    requires { (length names.now ≤ 128) × (left < 32768) }
    ensures { (result ≡ number_of text.now names.now left) × (result < 32768) }
{
    if left < 128 {
        let from = usize::from(word_at(names, left));
        return rank_of(text, from, names) as u16;
    }
    (names.len() as u16) + (left - 128)
}

// The number that a table has for a symbol.
fn code_of(text: &[u8], names: &[u16], code: u16) -> u16
    requires { length names.now ≤ 128 }
    ensures { result ≡ code_of (symbol_of text.now names.now code) }
{
    if code % 2 == 0 {
        return 2 * number_of(text, names, code / 2);
    }
    code
}

// The symbols of the l-th left side from an item on, up to its next mark, go to `numbers` from `used` on.
fn put_right(
    text: &[u8],
    names: &[u16],
    l: u32,
    items: &[u32],
    from: usize,
    numbers: &mut [u16],
    used: u16,
) -> u16
    requires { (length names.now ≤ 128) × (length numbers.old ≤ 9600)
        × (used + length (right text.now names.now l (drop from items.now)) ≤ length numbers.old) }
    ensures { Puts result used numbers.old numbers.new
        (map code_of (right text.now names.now l (drop from items.now))) }
{
    let mut at = used;
    for i in from..items.len() {
        let word = items[i];
        if word / 65536 == l {
            if word % 65536 == 1 {
                return at;
            }
            numbers[usize::from(at)] = code_of(text, names, (word % 65536) as u16);
            at += 1;
        }
    }
    at
}

// A production's left side and its length.
fn put_head(a: u16, size: u16, numbers: &mut [u16], used: u16)
    requires { used + 2 ≤ length numbers.old }
    ensures { numbers.new ≡ set (set numbers.old used a) (used + 1) size }
{
    let place = usize::from(used);
    numbers[place] = a;
    numbers[place + 1] = size;
}

// One production: its left side, its length and its symbols.
fn put_production(
    text: &[u8],
    names: &[u16],
    l: u32,
    a: u16,
    items: &[u32],
    from: usize,
    numbers: &mut [u16],
    used: u16,
) -> u16
    requires { (length names.now ≤ 128) × (length numbers.old ≤ 9600)
        × (used + 2 + length (right text.now names.now l (drop from items.now)) ≤ length numbers.old) }
    ensures { Puts result used numbers.old numbers.new
        (production_numbers (production_of a
        (right text.now names.now l (drop from items.now)))) }
{
    let begin = used + 2;
    let end = put_right(text, names, l, items, from, numbers, begin);
    put_head(a, end - begin, numbers, used);
    end
}

// The alternatives of the l-th left side, whose number is a.
fn put_alternatives(
    text: &[u8],
    names: &[u16],
    l: u32,
    a: u16,
    items: &[u32],
    numbers: &mut [u16],
    used: u16,
) -> Put
    requires { (length names.now ≤ 128) × (length numbers.old ≤ 9600)
        × (used + length (all_numbers (alternatives text.now names.now l a items.now)) ≤ length numbers.old) }
    ensures { PutsAll result used numbers.old numbers.new
        (alternatives text.now names.now l a items.now) }
{
    let mut at = used;
    let mut count: u16 = 0;
    for (i, &word) in items.iter().enumerate() {
        if word / 65536 == l && word % 65536 == 1 {
            at = put_production(text, names, l, a, items, i + 1, numbers, at);
            count += 1;
        }
    }
    Put { used: at, count }
}

// The empty production of a group.
fn put_empty(side: u16, a: u16, numbers: &mut [u16], used: u16) -> Put
    requires { (length numbers.old ≤ 9600)
        × (used + length (all_numbers (empty_of side a)) ≤ length numbers.old) }
    ensures { PutsAll result used numbers.old numbers.new (empty_of side a) }
{
    if side < 128 {
        return Put { used, count: 0 };
    }
    put_head(a, 0, numbers, used);
    Put {
        used: used + 2,
        count: 1,
    }
}

// The productions of the l-th left side.
fn put_left(
    text: &[u8],
    names: &[u16],
    items: &[u32],
    l: u32,
    left: u16,
    numbers: &mut [u16],
    used: u16,
) -> Put
    requires { (length names.now ≤ 128) × (left < 32768) × (length numbers.old ≤ 9600)
        × (used + length (all_numbers (productions_of text.now names.now items.now l left))
        ≤ length numbers.old) }
    ensures { PutsAll result used numbers.old numbers.new
        (productions_of text.now names.now items.now l left) }
{
    let a = number_of(text, names, left);
    let first = put_alternatives(text, names, l, a, items, numbers, used);
    let last = put_empty(left, a, numbers, first.used);
    Put {
        used: last.used,
        count: first.count + last.count,
    }
}

// The productions of all left sides.
fn put_productions(
    text: &[u8],
    names: &[u16],
    items: &[u32],
    lefts: &[u16],
    numbers: &mut [u16],
) -> Put
    requires { (length names.now ≤ 128) × (length lefts.now ≤ 128) × AllBelow 32768 lefts.now
        × (length numbers.old ≤ 9600)
        × (length (all_numbers (productions_from text.now names.now items.now 0 lefts.now))
        ≤ length numbers.old) }
    ensures { PutsAll result 0 numbers.old numbers.new
        (productions_from text.now names.now items.now 0 lefts.now) }
{
    let mut at: u16 = 0;
    let mut count: u16 = 0;
    for (l, &left) in lefts.iter().enumerate() {
        let put = put_left(text, names, items, l as u32, left, numbers, at);
        at = put.used;
        count += put.count;
    }
    Put { used: at, count }
}

// How many bytes some numbers take.
fn size_of(numbers: &[u16]) -> usize
    requires { length numbers.now ≤ 9600 }
    ensures { (result ≡ length (write_numbers numbers.now)) × (result ≤ 19200) }
{
    let mut n: usize = 0;
    for &v in numbers {
        n += if v < 128 { 1 } else { 2 };
    }
    n
}

// The bytes of some numbers go to `out` from `from` on.
fn write_numbers(numbers: &[u16], out: &mut [u8], from: usize) -> usize
    requires { AllBelow 32768 numbers.now × (from + length (write_numbers numbers.now) ≤ length out.old) }
    ensures { Pastes result from out.old out.new (write_numbers numbers.now) }
{
    let mut at = from;
    for &v in numbers {
        if v < 128 {
            out[at] = v as u8;
            at += 1;
        } else {
            out[at] = (v % 128 + 128) as u8;
            out[at + 1] = (v / 128) as u8;
            at += 2;
        }
    }
    at
}

// The table's numbers are written where they fit.
fn write_table(header: &[u16], numbers: &[u16], out: &mut [u8]) -> Result<usize, Refused>
    requires { AllBelow 32768 header.now × AllBelow 32768 numbers.now × (length header.now ≤ 9600)
        × (length numbers.now ≤ 9600) }
    ensures { WritesTable result out.old out.new
        (write_numbers (header.now ++ numbers.now)) }
{
    let first = size_of(header);
    let rest = size_of(numbers);
    if out.len() < first + rest {
        return refuse(Refusal::LentTooFew, 0);
    }
    let at = write_numbers(header, out, 0);
    let end = write_numbers(numbers, out, at);
    Ok(end)
}

// The table of some tables in which every name is defined.
fn number_table(
    text: &[u8],
    c: Counts,
    names: &[u16],
    lefts: &[u16],
    items: &[u32],
    out: &mut [u8],
) -> Result<usize, Refused>
    requires { Numbered text.now c names.now lefts.now items.now }
    ensures { WritesTable result out.old out.new
        (table_bytes text.now c names.now lefts.now items.now) }
{
    let mut numbers = [0u16; 9600];
    let put = put_productions(text, names, items, lefts, &mut numbers);
    let end = usize::from(put.used);
    let start = number_of(text, names, word_at(lefts, 0));
    let header = [c.names + c.groups, c.literals, start, put.count];
    write_table(&header, &numbers[..end], out)
}

// The table of what was noted, unless a name is missing.
fn checked_table(text: &[u8], notes: &Notes, out: &mut [u8]) -> Result<usize, Refused>
    requires { Scanned text.now notes.now }
    ensures says { table_says result out.new ≡ table_of text.now (length out.old) }
    ensures kept { Kept result out.old out.new }
{
    let c = notes.counts;
    if let Some(k) = first_missing(&notes.lefts, c.lefts, c.names) {
        return refuse(Refusal::Undefined, word_at(&notes.names, k));
    }
    let last_name = usize::from(c.names);
    let last_left = usize::from(c.lefts);
    let last_item = usize::from(c.items);
    number_table(
        text,
        c,
        &notes.names[..last_name],
        &notes.lefts[..last_left],
        &notes.items[..last_item],
        out,
    )
}

// The table of a text's rules, in the first bytes of those that are lent, and how many they are; all others, and on a refusal all, stay as they came.
pub fn read_abnf(text: &[u8], table: &mut [u8]) -> Result<usize, Refused>
    ensures { ReadsAbnf text.now table.old result table.new }
{
    let mut notes = Notes::new();
    scan(text, &mut notes)?;
    checked_table(text, &notes, table)
}
