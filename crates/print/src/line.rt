// Lines, and parts of lines.
use std::io;

// A part of a line, as it is.
pub fn text(rt: &impl Print, t: &[u8]) -> io::Result<()> {
    rt.write_all(t)
}

// A part of a line: a number in decimal behind a label.
pub fn number(rt: &impl Print, label: &[u8], n: u64) -> io::Result<()> {
    text(rt, label)?;
    print!(rt; "{n}")
}

// A line with a heading, and an empty line in front of it.
pub fn heading(rt: &impl Print, t: &[u8]) -> io::Result<()> {
    text(rt, b"\n# ")?;
    text(rt, t)?;
    text(rt, b"\n")
}

// A line with what some bytes are: how many, and each in hexadecimal.
pub fn hex(rt: &impl Print, label: &[u8], b: &[u8]) -> io::Result<()> {
    text(rt, label)?;
    print!(rt; ", {} bytes:", b.len())?;
    for x in b {
        print!(rt; " {x:02x}")?;
    }
    println!(rt)
}

// A line that says whether something is as expected.
pub fn expected(rt: &impl Print, label: &[u8], good: bool) -> io::Result<()> {
    text(rt, label)?;
    let said = if good { "as expected" } else { "DIFFERENT" };
    println!(rt; ": {said}")
}

// A line that holds some bytes against the ones expected.
pub fn compare(rt: &impl Print, label: &[u8], got: &[u8], want: &[u8]) -> io::Result<()> {
    expected(rt, label, got == want)
}
