// The nonterminals in right sides, one after the other: by production, then by position.
ghost use Rattle.std.specs.Prelude.{◌≤◌, ◌≡◌, length};
ghost use Rattle.follow.specs.Walk.{Goes, Met, to_come, start_of};

use cfg::table::span_at;

// A place on the way. The symbols from at to end are left of a right side, whose left side is source, and so many productions stand behind
// them. The nonterminal that was met last is target.
#[derive(Clone, Copy)]
pub struct Walk {
    pub at: usize,
    pub end: usize,
    pub source: usize,
    pub target: usize,
    pub behind: usize,
}

// Before the first of p productions.
pub fn start(p: usize) -> Walk
    ensures { result ≡ start_of p }
{
    Walk {
        at: 0,
        end: 0,
        source: 0,
        target: 0,
        behind: p,
    }
}

// Goes on to the next nonterminal.
pub fn next(words: &[u16], w: Walk) -> Walk
    requires { Goes words.now w × (1 ≤ length (to_come words.now w)) }
    ensures { Met words.now w result }
{
    let mut at = w.at;
    let mut end = w.end;
    let mut source = w.source;
    let mut behind = w.behind;
    loop {
        if at < end {
            let code = words[at];
            at += 1;
            if code % 2 == 0 {
                return Walk {
                    at: at,
                    end: end,
                    source: source,
                    target: usize::from(code / 2),
                    behind: behind,
                };
            }
        } else {
            let span = span_at(words, end);
            at = span.from;
            end = span.to;
            source = usize::from(span.left);
            behind -= 1;
        }
    }
}
