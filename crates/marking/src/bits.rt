// Marks in words, 64 a word, from the low bit on.
ghost use Rattle.std.specs.Prelude.{◌≡◌, ◌<◌, length};
ghost use Rattle.marking.specs.Bits.{is_marked, MarkedAt};

// Whether mark e is set.
pub fn is_marked(marks: &[u64; 8192], e: usize) -> bool
    requires { e < 524288 }
    ensures { result ≡ is_marked marks.now e }
{
    let word = marks[e / 64];
    let place = (e % 64) as u32;
    (word >> place) % 2 == 1
}

// Sets mark e.
pub fn set_mark(marks: &mut [u64; 8192], e: usize)
    requires { (e < 524288) × (length marks.old ≡ 8192) }
    ensures { MarkedAt marks.old e marks.new }
{
    let at = e / 64;
    let word = marks[at];
    let place = (e % 64) as u32;
    marks[at] = word | (1 << place);
}
