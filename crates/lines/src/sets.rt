// Sets as lines: the members in their order, each as its slots in brackets.
use k_tuples::set::counted;
use lookahead::{Terminals, set_of};
use std::io::Write;
use std::{fmt, io};

// How many sets a result has, and the member room of each: what asking for one set names.
#[derive(Clone, Copy, Debug, PartialEq, Eq)]
pub struct Sizes {
    pub n: usize,
    pub p: usize,
    pub q: usize,
    pub c: usize,
}

// The first slots of a string, as many as are used, parted by blanks; e is ε.
#[derive(Clone, Copy, Debug, PartialEq, Eq)]
pub struct Slots {
    pub slots: [u16; 10],
    pub used: usize,
}

impl Slots {
    // The slots of a string; of words that are none, no slots.
    pub fn of(t: Terminals) -> Slots {
        let Ok(u) = t.unpack() else {
            return Slots {
                slots: [0; 10],
                used: 0,
            };
        };
        let slots = u.slots;
        Slots {
            slots,
            used: u.length as usize,
        }
    }
}

impl fmt::Display for Slots {
    fn fmt<W: fmt::Write>(&self, f: &mut fmt::Formatter<W>) -> fmt::Result {
        for (i, slot) in self.slots.iter().take(self.used).enumerate() {
            if 0 < i {
                f.write_str(" ")?;
            }
            if *slot == 65535 {
                f.write_str("e")?;
            } else {
                write!(f, "{slot}")?;
            }
        }
        Ok(())
    }
}

// The members of a set; of no words, none.
fn put_members(out: &mut impl Write, set: &[u64]) -> io::Result<()> {
    if set.is_empty() {
        return Ok(());
    }
    for pair in set[1..].chunks_exact(2).take(counted(set)) {
        let t = Terminals {
            lo: pair[0],
            hi: pair[1],
        };
        write!(out, " [{}]", Slots::of(t))?;
    }
    Ok(())
}

// The rest of a set's line, behind its number: a colon, the members, the line's end.
pub fn put_set(
    out: &mut impl Write,
    res: &[u64],
    kind: usize,
    number: usize,
    s: Sizes,
) -> io::Result<()> {
    write!(out, ":")?;
    put_members(out, set_of(res, kind, number, s.n, s.p, s.q, s.c))?;
    writeln!(out)
}
