// The framing of a message, judged in one walk by the reader, and where the bodies of its first frames lie.
#![tactic(auto)]

ghost use Rattle.std.specs.Prelude.{◌≡◌};
ghost use Rattle.frames.specs.Runs.{message_in};
ghost use Rattle.framing.specs.Splits.{noted, body_in, IsSplit};

use base::bytes;
use frames::step::Frame;

// Why the framing of a message is unsound.
#[derive(Clone, Copy)]
pub enum Flaw {
    // A frame is broken.
    Broken,
    // There are bytes behind the last frame.
    Surplus,
}

// Of so many frames the places are kept.
pub const KEPT: usize = 5;

// Where the body of a frame starts, and how long it is.
#[derive(Clone, Copy)]
pub struct Place {
    pub start: usize,
    pub len: usize,
}

// The places of the bodies of the first five frames; 0 and 0 for a frame that is not there.
#[derive(Clone, Copy)]
pub struct Places {
    pub bodies: [Place; KEPT],
}

// A message that is split into its frames: its framing, by how many frames it has or what is wrong; where the walk
// stopped; and the places of the bodies. Where the framing is unsound, no body has a place.
#[derive(Clone, Copy)]
pub struct Split {
    pub framing: Result<usize, Flaw>,
    pub stop: usize,
    pub places: Places,
}

// Notes where the body of frame k lies, if it is one of the first five.
fn note(mut places: Places, k: usize, start: usize, len: usize) -> Places
    ensures { result ≡ noted places k start len }
{
    if k < KEPT {
        places.bodies[k] = Place { start, len };
    }
    places
}

// Splits a message into its frames, of which there may be any number. A loop and no iterator, since the place of each
// frame follows from the one before it.
pub fn split_message(msg: &[u8]) -> Split
    ensures { IsSplit msg.now result }
{
    let nowhere = Places {
        bodies: [Place { start: 0, len: 0 }; KEPT],
    };
    let mut places = nowhere;
    let mut at = 0;
    let mut n = 0;
    while let Some(Frame { start, len, more }) = frame_reader::frame_at(msg, at) {
        places = note(places, n, at + start, len);
        at += start + len;
        n += 1;
        if !more {
            if at < msg.len() {
                return Split {
                    framing: Err(Flaw::Surplus),
                    stop: at,
                    places: nowhere,
                };
            }
            return Split {
                framing: Ok(n),
                stop: at,
                places,
            };
        }
    }
    Split {
        framing: Err(Flaw::Broken),
        stop: at,
        places: nowhere,
    }
}

// The body of frame k, counted from 0, as the part of the message that it fills; the empty part where there is none.
pub fn body(msg: &[u8], places: Places, k: usize) -> &[u8]
    ensures { result.now ≡ body_in msg.now places k }
{
    match places.bodies.get(k) {
        Some(body) => bytes::front(bytes::behind(msg, body.start), body.len),
        None => &msg[..0],
    }
}

// The message that some bytes begin with, up to its last frame. No bytes where they begin with no whole message.
pub fn first_message(s: &[u8]) -> &[u8]
    ensures { result.now ≡ message_in s.now }
{
    let Split { framing, stop, .. } = split_message(s);
    match framing {
        // Two arms: of one for both the proof was not found.
        Ok(_) => bytes::front(s, stop),
        Err(Flaw::Surplus) => bytes::front(s, stop),
        Err(Flaw::Broken) => &s[..0],
    }
}
