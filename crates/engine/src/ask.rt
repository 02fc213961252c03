// Asking for one set of a result by kind and number.
ghost use Rattle.std.specs.Prelude.{◌≡◌, ◌+◌, ◌*◌, ◌≤◌, length};
ghost use Rattle.engine.specs.Ask.{kind_number, Decodes, kind_start, kind_count, in_limits, place_of, set_part};

// What a set is of, in the order in which a result has them; as numbers from 0 on.
#[derive(Clone, Copy, Debug, PartialEq, Eq)]
pub enum Kind {
    // FIRST of a nonterminal
    First,
    // FIRST of a production
    Production,
    // FOLLOW of a nonterminal
    Follow,
    // a position
    Position,
}

// A number that names no kind.
#[derive(Clone, Copy, Debug, PartialEq, Eq)]
pub struct UnknownKind(pub usize);

impl TryFrom<usize> for Kind {
    type Error = UnknownKind;

    ghost try_from_gives = { Decodes };

    fn try_from(number: usize) -> Result<Kind, UnknownKind> {
        match number {
            0 => Ok(Kind::First),
            1 => Ok(Kind::Production),
            2 => Ok(Kind::Follow),
            3 => Ok(Kind::Position),
            _ => Err(UnknownKind(number)),
        }
    }
}

impl Kind {
    // How many sets there are of it.
    #[tactic(auto, unfolding(crate::specs::Ask::kind_count))]
    fn count(self, n: usize, p: usize, q: usize) -> usize
        ensures { result ≡ kind_count (kind_number self) n p q }
    {
        match self {
            Kind::First | Kind::Follow => n,
            Kind::Production => p,
            Kind::Position => q,
        }
    }

    // Which set of a result is the first of it.
    #[tactic(auto, unfolding(crate::specs::Ask::kind_start))]
    fn start(self, n: usize, p: usize) -> usize
        requires { (n ≤ 128) × (p ≤ 512) }
        ensures { result ≡ kind_start (kind_number self) n p }
    {
        match self {
            Kind::First => 0,
            Kind::Production => n,
            Kind::Follow => n + p,
            Kind::Position => 2 * n + p,
        }
    }
}

// Whether a result may have these sizes.
#[tactic(auto, unfolding(crate::specs::Ask::in_limits))]
fn in_limits(n: usize, p: usize, q: usize, c: usize) -> bool
    ensures { result ≡ in_limits n p q c }
{
    1 <= n && n <= 128 && p <= 512 && q <= 4096 && 1 <= c && c <= 1024
}

// Where in a result of so many words a set begins; none where there is no such set, or the words are fewer than the whole result takes.
pub fn place(
    len: usize,
    kind: usize,
    number: usize,
    n: usize,
    p: usize,
    q: usize,
    c: usize,
) -> Option<usize>
    ensures { result ≡ place_of len kind number n p q c }
{
    if !in_limits(n, p, q, c) {
        return None;
    }
    let Ok(kind) = Kind::try_from(kind) else {
        return None;
    };
    let size = 2 * c + 1;
    if kind.count(n, p, q) <= number || len < (2 * n + p + q) * size {
        return None;
    }
    Some((kind.start(n, p) + number) * size)
}

// The part of the words that holds a set, or an empty part.
pub fn set_of(
    words: &[u64],
    kind: usize,
    number: usize,
    n: usize,
    p: usize,
    q: usize,
    c: usize,
) -> &[u64]
    ensures { result.now ≡ set_part kind number n p q c words.now }
{
    match place(words.len(), kind, number, n, p, q, c) {
        Some(at) => &words[at..at + 2 * c + 1],
        None => &words[..0],
    }
}
