// The text, byte by byte: what was read last decides what may follow, and what is read is noted. Each byte is looked at once, the one
// behind a quote twice; names and literals are compared where they end.
ghost use Rattle.std.specs.Prelude.{◌≡◌, List, ℕ, ◌+◌, ◌≤◌, ◌<◌};
ghost use Rattle.abnf_rules.specs.Machine.{breaks, broken, begins, behind, spaced, wanted, equals, empty, longer, inside, whole, fresh, step, scanned, start};
ghost use Rattle.abnf_tables.specs.Says.{tables_of, tables_say, Sane, SaneBuilt};
ghost use Rattle.abnf_rules.specs.Steps.{SaneIn, ThenTo, Stays, Steps, break_line, Finishes};

use abnf_tables::refused::{Refused, refuse};
use abnf_tables::tables::{Counts, Notes};
use abnf_tables::words::{
    byte_at, is_blank, is_comment_byte, is_letter, is_literal_byte, is_name_byte,
};
use refusals::Refusal;

// What was read last, and so what may follow. A number is the place where a name begins, or a literal's quote.
#[derive(Clone, Copy)]
pub enum Mode {
    Blank,
    Naming(u16),
    Equals,
    Want,
    Name(u16),
    Quote(u16),
    After,
    Spaced,
}

// Where in a line: inside it, in its comment, behind its CR, behind its end.
#[derive(Clone, Copy)]
pub enum Line {
    Inside,
    Comment,
    Return,
    Ended,
}

// The state behind a byte.
#[derive(Clone, Copy)]
pub struct Next {
    pub line: Line,
    pub mode: Mode,
}

// On to a line and a mode.
fn go_to(line: Line, mode: Mode) -> Result<Next, Refused>
    ensures { result ≡ Ok (record { line = line; mode = mode }) }
{
    Ok(Next { line, mode })
}

// On to a mode, unless what was to be noted is refused.
fn then_to(noted: Result<(), Refused>, mode: Mode) -> Result<Next, Refused>
    ensures { ThenTo mode noted result }
{
    noted?;
    go_to(Line::Inside, mode)
}

// The end of a line, or the start of a comment.
fn is_break(b: u8) -> bool
    ensures { result ≡ breaks b }
{
    b == b'\r' || b == b';'
}

// The line ends, or its comment begins.
fn break_at(b: u8, mode: Mode) -> Result<Next, Refused>
    ensures { Stays (broken b mode) (SaneIn mode) result }
{
    if b == b';' {
        return go_to(Line::Comment, mode);
    }
    go_to(Line::Return, mode)
}

// An element begins: a name, a literal that is not empty, or a group.
fn begin(text: &[u8], at: u16, b: u8, notes: &mut Notes) -> Result<Next, Refused>
    requires { Sane 0 notes.old.counts × (at < 32768) }
    ensures { Steps (begins text.now at b) notes.old result notes.new }
{
    if is_letter(b) {
        return then_to(notes.begin_element(at), Mode::Name(at));
    }
    if b == b'"' {
        if byte_at(text, usize::from(at) + 1) == b'"' {
            return refuse(Refusal::BadSyntax, at);
        }
        return then_to(notes.begin_element(at), Mode::Quote(at));
    }
    if b == b'[' {
        notes.begin_element(at)?;
        return then_to(notes.open_group(at), Mode::Want);
    }
    refuse(Refusal::BadSyntax, at)
}

// Behind an element: a blank, "/", or "]" of a group.
fn step_behind(at: u16, b: u8, notes: &mut Notes) -> Result<Next, Refused>
    requires { Sane 0 notes.old.counts }
    ensures { Steps (behind at b) notes.old result notes.new }
{
    if is_break(b) {
        return break_at(b, Mode::Spaced);
    }
    if is_blank(b) {
        return go_to(Line::Inside, Mode::Spaced);
    }
    if b == b'/' {
        notes.counts.size = 0;
        return go_to(Line::Inside, Mode::Want);
    }
    if b == b']' {
        if notes.in_group() {
            notes.close_group();
            return go_to(Line::Inside, Mode::After);
        }
        return refuse(Refusal::BadSyntax, at);
    }
    refuse(Refusal::BadSyntax, at)
}

// Behind an element and a blank: the next one, too.
fn step_spaced(text: &[u8], at: u16, b: u8, notes: &mut Notes) -> Result<Next, Refused>
    requires { Sane 0 notes.old.counts × (at < 32768) }
    ensures { Steps (spaced text.now at b) notes.old result notes.new }
{
    let alpha = is_letter(b);
    let begun = alpha | ((b == b'"') | (b == b'['));
    if begun {
        return begin(text, at, b, notes);
    }
    step_behind(at, b, notes)
}

// Where an element is wanted.
fn step_wanted(text: &[u8], at: u16, b: u8, notes: &mut Notes) -> Result<Next, Refused>
    requires { Sane 0 notes.old.counts × (at < 32768) }
    ensures { Steps (wanted text.now at b) notes.old result notes.new }
{
    if is_break(b) {
        return break_at(b, Mode::Want);
    }
    if is_blank(b) {
        return go_to(Line::Inside, Mode::Want);
    }
    begin(text, at, b, notes)
}

// Where "=" is wanted.
fn step_equals(at: u16, b: u8) -> Result<Next, Refused>
    ensures { Stays (equals at b) (Sane 0) result }
{
    if is_break(b) {
        return break_at(b, Mode::Equals);
    }
    if is_blank(b) {
        return go_to(Line::Inside, Mode::Equals);
    }
    if b == b'=' {
        return go_to(Line::Inside, Mode::Want);
    }
    refuse(Refusal::BadSyntax, at)
}

// In a line without a rule.
fn step_empty(at: u16, b: u8) -> Result<Next, Refused>
    ensures { Stays (empty at b) (Sane 0) result }
{
    if is_break(b) {
        return break_at(b, Mode::Blank);
    }
    if is_blank(b) {
        return go_to(Line::Inside, Mode::Blank);
    }
    refuse(Refusal::BadSyntax, at)
}

// One more byte of a name or a literal, of which those from `from` on may go up to `most` more.
fn step_longer(at: u16, most: u16, from: u16, mode: Mode) -> Result<Next, Refused>
    requires { (from < 32768) × (most ≤ 65) }
    ensures { Stays (longer at (from + most) from mode) (SaneIn mode) result }
{
    if from + most <= at {
        return refuse(Refusal::LimitPassed, from);
    }
    go_to(Line::Inside, mode)
}

// In the name of a rule.
fn step_naming(text: &[u8], at: u16, b: u8, from: u16, notes: &mut Notes) -> Result<Next, Refused>
    requires { Sane 0 notes.old.counts × (from < 32768) }
    ensures { Steps (inside text.now at b (Mode.Naming from)) notes.old result notes.new }
{
    if is_name_byte(b) {
        return step_longer(at, 64, from, Mode::Naming(from));
    }
    notes.define_name(text, from)?;
    step_equals(at, b)
}

// In a name that is used.
fn step_name(text: &[u8], at: u16, b: u8, from: u16, notes: &mut Notes) -> Result<Next, Refused>
    requires { Sane 1 notes.old.counts × (from < 32768) }
    ensures { Steps (inside text.now at b (Mode.Name from)) notes.old result notes.new }
{
    if is_name_byte(b) {
        return step_longer(at, 64, from, Mode::Name(from));
    }
    notes.use_name(text, from)?;
    step_behind(at, b, notes)
}

// In a literal.
fn step_quote(text: &[u8], at: u16, b: u8, from: u16, notes: &mut Notes) -> Result<Next, Refused>
    requires { Sane 1 notes.old.counts × (from < 32768) }
    ensures { Steps (inside text.now at b (Mode.Quote from)) notes.old result notes.new }
{
    if is_literal_byte(b) {
        return step_longer(at, 65, from, Mode::Quote(from));
    }
    if b == b'"' {
        return then_to(notes.end_literal(text, from + 1), Mode::After);
    }
    refuse(Refusal::BadSyntax, at)
}

// The bytes of a line.
fn step_inside(text: &[u8], at: u16, b: u8, mode: Mode, notes: &mut Notes) -> Result<Next, Refused>
    requires { SaneIn mode notes.old.counts × (at < 32768) }
    ensures { Steps (inside text.now at b mode) notes.old result notes.new }
{
    match mode {
        Mode::Blank => step_empty(at, b),
        Mode::Naming(from) => step_naming(text, at, b, from, notes),
        Mode::Equals => step_equals(at, b),
        Mode::Want => step_wanted(text, at, b, notes),
        Mode::Name(from) => step_name(text, at, b, from, notes),
        Mode::Quote(from) => step_quote(text, at, b, from, notes),
        Mode::After => step_behind(at, b, notes),
        Mode::Spaced => step_spaced(text, at, b, notes),
    }
}

// Whether a rule, or a line without one, may end.
fn is_whole(mode: Mode, notes: &Notes) -> bool
    requires { notes.now.counts.lefts ≤ 128 }
    ensures { result ≡ whole mode (tables_of notes.now) }
{
    match mode {
        Mode::Blank => true,
        Mode::Spaced => !notes.in_group(),
        _ => false,
    }
}

// The first byte of a line that continues none.
fn step_fresh(at: u16, b: u8) -> Result<Next, Refused>
    requires { at < 32768 }
    ensures { Stays (fresh at b) (Sane 0) result }
{
    if is_letter(b) {
        return go_to(Line::Inside, Mode::Naming(at));
    }
    if is_break(b) {
        return break_at(b, Mode::Blank);
    }
    refuse(Refusal::BadSyntax, at)
}

// The byte behind a line's end.
fn step_ended(at: u16, b: u8, mode: Mode, notes: &Notes) -> Result<Next, Refused>
    requires { SaneIn mode notes.now.counts × (at < 32768) }
    ensures { (text : List ℕ) → Steps (step text at b Line.Ended mode) notes.now result notes.now }
{
    if is_blank(b) {
        return go_to(Line::Inside, mode);
    }
    if is_whole(mode, notes) {
        return step_fresh(at, b);
    }
    refuse(Refusal::BadSyntax, at)
}

// A byte of a comment, or the one behind a CR.
fn step_break(at: u16, b: u8, comment: bool, mode: Mode) -> Result<Next, Refused>
    ensures { (text : List ℕ) → Stays (step text at b (break_line comment) mode) (SaneIn mode) result }
{
    if comment {
        if is_comment_byte(b) {
            return go_to(Line::Comment, mode);
        }
        if b == b'\r' {
            return go_to(Line::Return, mode);
        }
        return refuse(Refusal::BadSyntax, at);
    }
    if b == b'\n' {
        return go_to(Line::Ended, mode);
    }
    refuse(Refusal::BadSyntax, at)
}

// One byte.
fn step_byte(text: &[u8], at: u16, b: u8, state: Next, notes: &mut Notes) -> Result<Next, Refused>
    requires { SaneIn state.mode notes.old.counts × (at < 32768) }
    ensures { Steps (step text.now at b state.line state.mode) notes.old result notes.new }
{
    match state.line {
        Line::Inside => step_inside(text, at, b, state.mode, notes),
        Line::Comment => step_break(at, b, true, state.mode),
        Line::Return => step_break(at, b, false, state.mode),
        Line::Ended => step_ended(at, b, state.mode, notes),
    }
}

// The text has ended behind a line.
fn finish_line(at: u16, mode: Mode, notes: &Notes) -> Result<(), Refused>
    requires { SaneIn mode notes.now.counts }
    ensures { Finishes at Line.Ended mode notes.now result }
{
    if is_whole(mode, notes) {
        if 1 <= notes.counts.items {
            return Ok(());
        }
        return refuse(Refusal::BadSyntax, at);
    }
    refuse(Refusal::BadSyntax, at)
}

// The text has ended.
fn finish(at: u16, state: Next, notes: &Notes) -> Result<(), Refused>
    requires { SaneIn state.mode notes.now.counts }
    ensures { Finishes at state.line state.mode notes.now result }
{
    match state.line {
        Line::Ended => finish_line(at, state.mode, notes),
        _ => refuse(Refusal::BadSyntax, at),
    }
}

// The whole text. What was noted before is forgotten.
pub fn scan(text: &[u8], notes: &mut Notes) -> Result<(), Refused>
    ensures says { tables_say result notes.new ≡ scanned text.now 0 text.now start }
    ensures sane { SaneBuilt 0 result notes.new }
{
    notes.counts = Counts::default();
    let mut state = Next {
        line: Line::Ended,
        mode: Mode::Blank,
    };
    for (i, &b) in text.iter().enumerate() {
        let at = i as u16;
        if 32768 <= at {
            return refuse(Refusal::LimitPassed, at);
        }
        state = step_byte(text, at, b, state, notes)?;
    }
    finish(text.len() as u16, state, notes)
}
