// Answers as text, a line each.
use std::io;

// Text and the end of the line.
pub fn told(rt: &impl Print, text: &[u8]) -> io::Result<()> {
    rt.write_all(text)?;
    rt.write_all(b"\n")
}

pub fn decimal(rt: &impl Print, n: u64) -> io::Result<()> {
    rt.print(n)
}

// Says where a line was not read.
pub fn readable(rt: &impl Print, ran: bool) -> io::Result<()> {
    if !ran {
        told(rt, b"unreadable")?;
    }
    Ok(())
}

pub fn refused(rt: &impl Print, n: u64) -> io::Result<()> {
    rt.write_all(b"refused ")?;
    decimal(rt, n)?;
    told(rt, b"")
}

pub fn truth(rt: &impl Print, b: bool) -> io::Result<()> {
    if b {
        told(rt, b"true")
    } else {
        told(rt, b"false")
    }
}

// A comma before every part but the first.
fn parted(rt: &impl Print, i: usize) -> io::Result<()> {
    if 0 < i {
        rt.write_all(b",")?;
    }
    Ok(())
}

// Words of 16 digits.
pub fn words(rt: &impl Print, ws: &[u64]) -> io::Result<()> {
    for (i, w) in ws.iter().enumerate() {
        parted(rt, i)?;
        print!(rt; "{w:016x}")?;
    }
    Ok(())
}

// A space, and the slots in decimal.
pub fn slots(rt: &impl Print, xs: &[u16]) -> io::Result<()> {
    rt.write_all(b" ")?;
    for (i, x) in xs.iter().enumerate() {
        parted(rt, i)?;
        decimal(rt, u64::from(*x))?;
    }
    Ok(())
}
