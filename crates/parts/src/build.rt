// A message built in a lent buffer from parts that arrive one by one.
ghost use Rattle.std.specs.Prelude.{◌≡◌};
ghost use Rattle.parts.specs.Build.{part_of, Put, length_of};

use frame_writer::frame;

// How far a message is built.
#[derive(Clone, Copy)]
pub enum Built {
    // So many bytes of frames, the last of which promises another. A message begins with none.
    Open(usize),
    // So many bytes, with the last part.
    Whole(usize),
    // A part did not fit, or came after the last one. No part changes that.
    Void,
}

// Puts a part as a frame from a place on, if there is room for it.
fn put_at(buffer: &mut [u8], at: usize, more: bool, body: &[u8]) -> Built
    ensures { Put buffer.old (Built.Open at) (part_of more body.now) result
        buffer.new }
{
    let next = frame::put_frame(buffer, at, more, body);
    if next == at {
        return Built::Void;
    }
    if more {
        return Built::Open(next);
    }
    Built::Whole(next)
}

// Puts a part after those that the buffer has, as a frame; more says whether another part follows. Where it cannot be
// put there, the message is void and the buffer stays as it is.
pub fn put_part(buffer: &mut [u8], built: Built, more: bool, body: &[u8]) -> Built
    ensures { Put buffer.old built (part_of more body.now) result buffer.new }
{
    match built {
        Built::Open(at) => put_at(buffer, at, more, body),
        Built::Whole(_) | Built::Void => Built::Void,
    }
}

// How many bytes of the buffer are the message: none where it is void.
pub fn length_of(built: Built) -> usize
    ensures { result ≡ length_of built }
{
    match built {
        Built::Open(n) | Built::Whole(n) => n,
        Built::Void => 0,
    }
}
