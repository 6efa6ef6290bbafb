// A message built from the parts of a line.
use crate::judge;
use base::{bytes, octets, output};
use parts::build;
use parts::build::Built;
use script::{line, text};
use std::io;

// What is built lies in a fixed buffer, since a line says how much of it may be used.
pub(crate) fn build_line(rt: &impl Print, s: &[u8]) -> io::Result<()> {
    let mut buffer = [9; 1024];
    let room = line::number(line::field(s, 1)) as usize;
    let built = match buffer.get_mut(..room) {
        Some(buffer) => put_parts(buffer, line::behind_bars(s, 2)),
        None => Built::Void,
    };
    stage(rt, built)?;
    let msg = bytes::front(&buffer, build::length_of(built));
    judge::judge(rt, line::field(s, 0), msg)
}

fn stage(rt: &impl Print, built: Built) -> io::Result<()> {
    match built {
        Built::Open(n) => print!(rt; "open, bytes {n}; "),
        Built::Whole(n) => print!(rt; "whole, bytes {n}; "),
        Built::Void => print!(rt; "void; "),
    }
}

// The parts, each of which a bar may end.
fn put_parts(buffer: &mut [u8], s: &[u8]) -> Built {
    let mut built = Built::Open(0);
    for part in s.split_inclusive(|b| *b == b'|') {
        built = put_text(buffer, built, line::field(part, 0));
    }
    built
}

// A part with its flag in front.
fn put_text(buffer: &mut [u8], built: Built, s: &[u8]) -> Built {
    let mut body = [b'x'; 4096];
    let n = part_of(bytes::behind(s, 1), &mut body);
    let more = s.starts_with(b"+");
    build::put_part(buffer, built, more, bytes::front(&body, n))
}

// Puts the bytes of a part into an array that is full of x, and gives their number.
fn part_of(s: &[u8], out: &mut [u8]) -> usize {
    match s {
        [b'*', times @ ..] => line::number(times) as usize,
        [b'#', digits @ ..] => output::put_bytes(out, 0, &octets::octets_of(line::number(digits))),
        _ => text::decode(s, out),
    }
}
