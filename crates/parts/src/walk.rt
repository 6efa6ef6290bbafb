// Messages that lie one after another, split into their frames.
ghost use Rattle.std.specs.Prelude.{◌≡◌};
ghost use Rattle.parts.specs.Walk.{taken_at, begins_message, may_begin};

use base::bytes;
use frames::step::Frame;

// Whether a whole message begins at a place.
fn begins_message(s: &[u8], at: usize) -> bool
    ensures { result ≡ begins_message s.now at }
{
    !framing::first_message(bytes::behind(s, at)).is_empty()
}

// Whether a frame may be given: inside a message it may; between two messages, if the whole message is there.
#[tactic(auto, unfolding(crate::specs::Walk::may_begin))]
fn may_begin(s: &[u8], at: usize, inside: bool) -> bool
    ensures { result ≡ may_begin s.now at inside }
{
    inside || begins_message(s, at)
}

// The frame at a place of some bytes, its body counted from the front of the bytes. Inside a message the frames before
// it promised one. Between two messages a frame is given only if its whole message is there.
pub fn next_frame(s: &[u8], at: usize, inside: bool) -> Option<Frame>
    ensures { result ≡ taken_at s.now at inside }
{
    if !may_begin(s, at, inside) {
        return None;
    }
    let frame = frame_reader::frame_at(s, at)?;
    Some(Frame {
        start: at + frame.start,
        ..frame
    })
}
