// Reading a message frame by frame: a reader holds the lent message and a place in it, so that one value says what is
// read next. Every walk goes by frame_at, which makes a reader and asks it.
#![tactic(auto)]

ghost use Rattle.std.specs.Prelude.{◌≡◌};
ghost use Rattle.frame_reader.specs.Places.{step_at};

use base::bytes;
use frames::step;
use frames::step::Frame;

// A message and a place in it.
#[derive(Clone, Copy)]
pub struct Reader<'a> {
    pub src: &'a [u8],
    pub at: usize,
}

impl<'a> Reader<'a> {
    // A reader at the front of a message.
    pub fn new(src: &'a [u8]) -> Reader<'a>
        ensures { (result.src ≡ src.entry) × (result.at ≡ 0) }
    {
        Reader { src, at: 0 }
    }

    // The reader at another place of its message.
    pub fn moved(self, at: usize) -> Reader<'a>
        ensures { (result.src ≡ self.entry.src) × (result.at ≡ at) }
    {
        Reader { src: self.src, at }
    }

    // The frame at the reader's place; its start counts from that place. None at the end of the message or past it. The
    // next frame stands behind the body.
    pub fn next(self) -> Option<Frame>
        ensures { result ≡ step_at self.entry.src.now self.entry.at }
    {
        step::first_frame(bytes::behind(self.src, self.at))
    }
}

// The frame at a place of a message, by a reader.
pub fn frame_at(msg: &[u8], at: usize) -> Option<Frame>
    ensures { result ≡ step_at msg.now at }
{
    Reader::new(msg).moved(at).next()
}
