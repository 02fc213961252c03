// The parts of a line: decimal numbers and colons.
ghost use Rattle.std.specs.Prelude.{◌≤◌, IfSome};

// Blanks, tabs and the CR before a line's end.
pub fn is_blank(b: u8) -> bool {
    matches!(b, b' ' | b'\t' | b'\r')
}

// The hexadecimal digit that a byte writes, if it writes one.
pub fn digit(b: u8) -> Option<u8>
    ensures { IfSome result (λ d. d ≤ 15) }
{
    match b {
        b'0'..=b'9' => Some(b - 48),
        b'a'..=b'f' => Some(b - 87),
        b'A'..=b'F' => Some(b - 55),
        _ => None,
    }
}

// What stands at a place of a line, and the place behind it.
#[derive(Clone, Copy, Debug, PartialEq, Eq)]
pub enum Token {
    Number { value: u64, next: usize },
    Colon { next: usize },
    End,
    Other,
}

// Kept: beside the number of `replay`. The digits, the base, the limit and what is told of one past it all differ.
// The decimal number that starts at a place. One with digits behind 65,535 or more is none.
fn number_at(line: &[u8], at: usize) -> Token {
    let mut value = 0;
    let mut end = at;
    for i in at..line.len() {
        let b'0'..=b'9' = line[i] else {
            break;
        };
        if 65535 < value {
            return Token::Other;
        }
        value = value * 10 + u64::from(line[i] - 48);
        end = i + 1;
    }
    if end == at {
        return Token::Other;
    }
    Token::Number { value, next: end }
}

pub fn token_at(line: &[u8], at: usize) -> Token {
    for i in at..line.len() {
        if line[i] == b':' {
            return Token::Colon { next: i + 1 };
        }
        if !is_blank(line[i]) {
            return number_at(line, i);
        }
    }
    Token::End
}
