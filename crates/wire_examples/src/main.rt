// Writes the worked bytes of the wire, and then judges each message of standard input at every port and splits it into
// frames. What it writes is compared with the file stdout.
//
// A line of standard input is one of these, with \xNN for a byte in hexadecimal:
//   # heading
//   = label|bytes of a message
//   + label|frame|frame|..       which are written as a message
//   & label|room|part|part|..    parts that are put into a buffer of so many bytes, one after another
// A part is + if another one follows, . if none does, and then its bytes, or #N for the number N as eight octets, or *N
// for N times x.
#![tactic(auto)]

mod build;
mod judge;

use base::bytes;
use numbers::sequence::Sequence;
use script::input;
use std::io;

fn main(rt: HostRuntime) -> io::Result<()> {
    written(&rt)?;
    judge::judge_lines(&rt, &input::read(rt.alloc(), rt.reader())?)
}

// Output lies in fixed arrays here, since the writers write into lent bytes and give a length.
//
// HUGZ, a KVPUB of 33 bytes, and the answer to a snapshot request: a KVSYNC and a KTHXBAI, each behind the identity.
fn written(rt: &impl Print) -> io::Result<()> {
    let mut out = [0; 128];
    let end = messages::write::write_hugz(&mut out, 0);
    print::hex(rt, b"HUGZ", bytes::front(&out, end))?;
    let end = messages::write::write_kvpub(
        &mut out,
        0,
        Sequence(1),
        b"/clip/7/undo",
        b"",
        b"",
        b"cut",
    );
    print::hex(rt, b"KVPUB", bytes::front(&out, end))?;
    let end = snapshot(&mut out, b"\x00ABCD");
    print::hex(rt, b"snapshot", bytes::front(&out, end))?;
    let end = messages::write::write_icanhaz(&mut out, 0, b"/clip/7/");
    print::hex(rt, b"ICANHAZ", bytes::front(&out, end))?;
    short_output(rt)
}

fn snapshot(out: &mut [u8], identity: &[u8]) -> usize {
    let a = messages::identity::write_identity(out, 0, identity);
    let b = messages::write::write_kvsync(out, a, Sequence(1), b"/clip/7/undo", b"cut");
    let c = messages::identity::write_identity(out, b, identity);
    messages::write::write_kthxbai(out, c, Sequence(2), b"/clip/7/")
}

// Output that is a byte too short stays as it is.
fn short_output(rt: &impl Print) -> io::Result<()> {
    let mut out = [9; 21];
    let end = messages::write::write_hugz(&mut out, 0);
    print::hex(rt, b"HUGZ into 21 bytes", bytes::front(&out, end))?;
    print::hex(rt, b"which stay", &out)
}
