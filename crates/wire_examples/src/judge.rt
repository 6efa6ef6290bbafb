// Messages judged at every port, and split into frames. The client's subtree is /clip/7/.
use crate::build;
use answers::refusal::{self, Refusal};
use base::bytes;
use client_ports::{snapshot, subscriber};
use messages::PROPERTIES;
use parts::walk;
use ports::value;
use properties::read::{self, Lifetime};
use script::{line, message, text};
use server_ports::{icanhaz, kvset};
use std::io;

// A line for each line.
pub(crate) fn judge_lines(rt: &impl Print, s: &[u8]) -> io::Result<()> {
    for line in s.split(|b| *b == b'\n') {
        judge_line(rt, line)?;
    }
    Ok(())
}

// A line is known by its first byte.
fn judge_line(rt: &impl Print, line: &[u8]) -> io::Result<()> {
    let rest = bytes::behind(line, 2);
    match line.first() {
        None => Ok(()),
        Some(b'&') => build::build_line(rt, rest),
        Some(b'=') => judge_message(rt, rest, false),
        Some(b'+') => judge_message(rt, rest, true),
        Some(_) => print::heading(rt, rest),
    }
}

// The message behind a label, told by its frames or by its bytes. It lies in a fixed array, since those that write it
// take lent bytes; the array is made here, so that a line without a message clears none.
fn judge_message(rt: &impl Print, line: &[u8], framed: bool) -> io::Result<()> {
    let told = line::behind_bars(line, 1);
    let mut msg = [0; 2048];
    let n = if framed {
        message::write_frames(told, &mut msg)
    } else {
        text::decode(told, &mut msg)
    };
    judge(rt, line::field(line, 0), bytes::front(&msg, n))
}

// What the value entries and the ports make of a message: the number of the refusal, or 0. Then its frames.
pub(crate) fn judge(rt: &impl Print, label: &[u8], msg: &[u8]) -> io::Result<()> {
    print::text(rt, label)?;
    print!(rt; ": value entries {}", value::value_refusal(msg))?;
    print!(rt; " of {}", value::value_frame(msg).len())?;
    let split = framing::split_message(msg);
    verdict(rt, "kvset", kvset::read_kvset(msg, split))?;
    verdict(rt, "icanhaz", icanhaz::check_icanhaz(msg, split))?;
    verdict(rt, "snapshot", snapshot::read_sent(msg, split, b"/clip/7/"))?;
    verdict(rt, "subscriber", subscriber::read_published(msg, split))?;
    lifetime(rt, framing::body(msg, split.places, PROPERTIES))?;
    print!(rt; "; frames")?;
    list_frames(rt, msg)?;
    println!(rt)
}

// Each frame by the length of its body, with a plus sign if another one follows. A frame is asked for behind the one
// before it, so the place is kept here.
fn list_frames(rt: &impl Print, s: &[u8]) -> io::Result<()> {
    let mut at = 0;
    let mut inside = false;
    while let Some(frame) = walk::next_frame(s, at, inside) {
        print!(rt; " {}{}", frame.len, if frame.more { "+" } else { "" })?;
        at = frame.start + frame.len;
        inside = frame.more;
    }
    Ok(())
}

// The number of what a port refuses a message with, or 0.
fn verdict<T: Drop>(rt: &impl Print, port: &str, v: Result<T, Refusal>) -> io::Result<()> {
    let number = match v {
        Ok(_) => 0,
        Err(r) => refusal::refusal_number(r),
    };
    print!(rt; ", {port} {number}")
}

// The lifetime in a properties frame, where there is one.
fn lifetime(rt: &impl Print, s: &[u8]) -> io::Result<()> {
    if let Some(Lifetime::Seconds(n)) = read::read_properties(s) {
        print!(rt; ", lifetime {n}")?;
    }
    Ok(())
}
