// Reading a stream into lent bytes, and text gathered for another.
#![tactic(auto)]

ghost use Rattle.std.specs.Io.{ReadsAtMost};

mod out;

pub use out::Out;
use std::io;
use std::io::Read;

// Reads until the lent bytes are full or the input ends, and answers how many bytes it put at their start. After an error, some may have been put there.
pub fn read_full(input: &mut impl Read, into: &mut [u8]) -> io::Result<usize>
    ensures { ReadsAtMost result into.new }
{
    let mut done = 0;
    while done < into.len() {
        let n = input.read(&mut into[done..])?;
        if n == 0 {
            break;
        }
        done += n;
    }
    Ok(done)
}
