// The lines of a session, each of which is done and told. Messages lie in fixed arrays, since the entries write into
// lent bytes and give a length.
use crate::desk::Desk;
use crate::studio::Studio;
use crate::{desk, studio};
use base::{bytes, output};
use messages::identity;
use script::{line, message, text};
use std::io;

// The session that some lines tell.
pub(crate) fn run(rt: &impl Print, s: &[u8]) -> io::Result<()> {
    let mut all = Studio::begin(rt)?;
    for l in s.split(|b| *b == b'\n') {
        step(rt, &mut all, l)?;
    }
    Ok(())
}

// A word is known by its first letter alone, so the letter is matched and not the word.
fn step(rt: &impl Print, s: &mut Studio, l: &[u8]) -> io::Result<()> {
    match l.first() {
        None => Ok(()),
        Some(b'b') => server(rt, s, l),
        Some(b'd') => start(rt, s, l),
        Some(b'u') => update(rt, s, l),
        Some(b's') => set(rt, s, l),
        Some(b't') => s.tell(rt, number(l, 1)),
        Some(b'j') => join(rt, s, l, line::field(l, 1)),
        Some(b'e') => join(rt, s, l, line::field(l, 3)),
        Some(b'i') => ask_server(rt, s, l),
        Some(b'm') => message(rt, s, l),
        Some(b'p') => published(rt, s, l),
        Some(b'l') => look_up(rt, s, l),
        Some(b'a') => ask(rt, s, l),
        Some(b'r') => {
            s.room = number(l, 1) as usize;
            Ok(())
        }
        Some(_) => print::heading(rt, bytes::behind(l, 2)),
    }
}

// Field k of a line as a number.
fn number(l: &[u8], k: usize) -> u64 {
    line::number(line::field(l, k))
}

// The desk of a name.
fn desk<'n, 's>(s: &'s mut Studio, name: &'n [u8]) -> Desk<'n, 's> {
    let client = s.client(name);
    Desk { name, client }
}

fn server(rt: &impl Print, s: &mut Studio, l: &[u8]) -> io::Result<()> {
    s.server = studio::begin_server(rt, number(l, 1), number(l, 2))?;
    Ok(())
}

fn start(rt: &impl Print, s: &mut Studio, l: &[u8]) -> io::Result<()> {
    let name = line::field(l, 1);
    let started = desk::begin(rt, name, line::field(l, 2), number(l, 3))?;
    *s.client(name) = started;
    Ok(())
}

// A desk writes KVSET, and the server takes it.
fn update(rt: &impl Print, s: &mut Studio, l: &[u8]) -> io::Result<()> {
    let mut out = [0; 521];
    let n = asked(rt, s, l, &mut out)?;
    if n == 0 {
        return Ok(());
    }
    s.set(rt, bytes::front(&out, n), number(l, 6))
}

// The KVSET of a line. It gives its length.
fn asked(rt: &impl Print, s: &mut Studio, l: &[u8], out: &mut [u8]) -> io::Result<usize> {
    let mut properties = [0; 512];
    let n = text::decode(line::field(l, 4), &mut properties);
    let room = s.room;
    desk(s, line::field(l, 1)).update(
        rt,
        line::field(l, 2),
        line::field(l, 3),
        bytes::front(&properties, n),
        line::field(l, 5),
        studio::cut(out, room),
    )
}

// A message at the server's entry for KVSET.
fn set(rt: &impl Print, s: &mut Studio, l: &[u8]) -> io::Result<()> {
    let mut msg = [0; 1024];
    let n = told(rt, l, 2, &mut msg)?;
    s.set(rt, bytes::front(&msg, n), number(l, 1))
}

// The snapshot that the desk of a line asks for is handed to a desk.
fn join(rt: &impl Print, s: &mut Studio, l: &[u8], to: &[u8]) -> io::Result<()> {
    let mut out = [0; 40953];
    let n = snapshot(rt, s, l, &mut out)?;
    desk(s, to).take_all(rt, bytes::front(&out, n))
}

// The answer to the request of a desk, in front of which the router puts the desk's identity. It gives its length.
fn snapshot(rt: &impl Print, s: &mut Studio, l: &[u8], out: &mut [u8]) -> io::Result<usize> {
    let mut request = [0; 108];
    let mut routed = [0; 512];
    let room = s.room;
    let n = desk(s, line::field(l, 1)).request(rt, studio::cut(&mut request, room))?;
    if n == 0 {
        return Ok(0);
    }
    let front = identity::write_identity(&mut routed, 0, line::field(l, 2));
    let end = output::put_bytes(&mut routed, front, bytes::front(&request, n));
    s.answer(rt, bytes::front(&routed, end), out)
}

// A message at the server's entry for ICANHAZ.
fn ask_server(rt: &impl Print, s: &Studio, l: &[u8]) -> io::Result<()> {
    let mut msg = [0; 1024];
    let mut out = [0; 512];
    let n = told(rt, l, 1, &mut msg)?;
    let written = s.answer(rt, bytes::front(&msg, n), studio::cut(&mut out, s.room))?;
    print::hex(rt, b"  it writes", bytes::front(&out, written))
}

// A message at the snapshot entry.
fn message(rt: &impl Print, s: &mut Studio, l: &[u8]) -> io::Result<()> {
    let mut msg = [0; 1024];
    let n = told(rt, l, 2, &mut msg)?;
    desk(s, line::field(l, 1)).take(rt, bytes::front(&msg, n))
}

// A message at the subscriber entry.
fn published(rt: &impl Print, s: &mut Studio, l: &[u8]) -> io::Result<()> {
    let mut msg = [0; 1024];
    let n = told(rt, l, 3, &mut msg)?;
    desk(s, line::field(l, 1)).follow(rt, bytes::front(&msg, n), number(l, 2))
}

// The message whose frames are behind k bars. It gives its length.
fn told(rt: &impl Print, l: &[u8], k: usize, msg: &mut [u8]) -> io::Result<usize> {
    let frames = line::behind_bars(l, k);
    print!(rt; "a message ")?;
    print::text(rt, frames)?;
    println!(rt)?;
    Ok(message::write_frames(frames, msg))
}

fn look_up(rt: &impl Print, s: &mut Studio, l: &[u8]) -> io::Result<()> {
    let mut out = [b'.'; 16];
    let room = s.room;
    desk(s, line::field(l, 1)).look_up(rt, line::field(l, 2), studio::cut(&mut out, room))?;
    print!(rt; "  the output holds ")?;
    print::text(rt, &out)?;
    println!(rt)
}

fn ask(rt: &impl Print, s: &mut Studio, l: &[u8]) -> io::Result<()> {
    desk(s, line::field(l, 1)).ask(rt, number(l, 2))
}
