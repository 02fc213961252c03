// Text for standard output, gathered in a buffer of fixed size and written when that is full. It is an `io::Write`, so `write!` puts words and numbers
// into it. After a write that failed nothing is taken to wait.
ghost use Rattle.std.specs.Prelude.{◌≡◌, ◌<◌, ◌≤◌, None, IfOk, OnOk, OnErr};
ghost use Rattle.std.specs.Io.{WritesAtMost};
ghost use Rattle.std.specs.Io.KnownBytes.{WriteAppends, Keeps, Appends};

use std::io;
use std::io::Write;

// How many bytes are gathered.
const SIZE: usize = 4096;

// The first `at` bytes wait.
#[derive(Drop)]
pub struct Out<'a, P> {
    rt: &'a P,
    bytes: [u8; 4096],
    pub at: usize,
    ghost inside: { at ≤ 4096 },
}

impl<'a, P: Print> Out<'a, P> {
    pub fn new(rt: &'a P) -> Self
        ensures { result.at ≡ 0 }
    {
        Out {
            rt,
            bytes: [0u8; 4096],
            at: 0,
        }
    }

    // Writes what waits.
    fn write_waiting(&mut self) -> io::Result<()>
        ensures { self.new.at ≡ 0 }
    {
        let n = self.at;
        self.at = 0;
        self.rt.write_all(&self.bytes[..n])
    }

    // Makes room for one byte at least. Only a write can fail: where there is room nothing is written.
    pub fn make_room(&mut self) -> io::Result<()>
        ensures room { IfOk result (λ _. self.new.at < 4096) }
        ensures written { OnErr result (self.old.at ≡ 4096) }
        ensures err { OnErr result (self.new.at ≡ 0) }
    {
        if self.at == SIZE {
            self.write_waiting()?;
        }
        Ok(())
    }
}

impl<P: Print> Write for Out<'_, P> {
    // Takes what there is room for. Only a write can fail: where there is room nothing is written, and after an error nothing waits.
    fn write(&mut self, buf: &[u8]) -> io::Result<usize>
        ensures bound { WritesAtMost result buf.now }
        ensures bytes { WriteAppends None None result buf.now }
        ensures written { OnErr result (self.old.at ≡ 4096) }
        ensures err { OnErr result (self.new.at ≡ 0) }
    {
        self.make_room()?;
        let n = buf.len().min(SIZE - self.at);
        let end = self.at + n;
        self.bytes[self.at..end].copy_from_slice(&buf[..n]);
        self.at = end;
        Ok(n)
    }

    // Writes what waits; nothing waits then.
    fn flush(&mut self) -> io::Result<()>
        ensures bytes { Keeps None None }
        ensures none { self.new.at ≡ 0 }
    {
        self.write_waiting()
    }

    // Takes all, byte by byte. The error of a write ends it, whatever its kind: the bytes that did not go out are lost then, and none of them waits.
    fn write_all(&mut self, buf: &[u8]) -> io::Result<()>
        ensures bytes { OnOk result (Appends None None buf.now) }
        ensures err { OnErr result (self.new.at ≡ 0) }
    {
        for &b in buf {
            self.make_room()?;
            self.bytes[self.at] = b;
            self.at += 1;
        }
        Ok(())
    }
}
