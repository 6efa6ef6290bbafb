// The frame that some bytes begin with.
ghost use Rattle.std.specs.Prelude.{◌≡◌};
ghost use Rattle.frames.specs.Steps.{step_of, short_of, long_of, frame_within};

use base::octets;

// A frame at the front of some bytes: its body is the len bytes from start on, and more says whether another frame
// follows.
#[derive(Clone, Copy)]
pub struct Frame {
    pub start: usize,
    pub len: usize,
    pub more: bool,
}

// The frame whose head is the first start bytes and whose body is the next len of the left ones.
fn hold(start: usize, len: usize, left: usize, more: bool) -> Option<Frame>
    ensures { result ≡ frame_within start len left more }
{
    (len <= left).then_some(Frame { start, len, more })
}

// A size of one octet, behind the flag octet.
fn short_size(s: &[u8], more: bool) -> Option<Frame>
    ensures { result ≡ short_of more s.now }
{
    let (len, rest) = s.split_first()?;
    hold(2, usize::from(*len), rest.len(), more)
}

// A size of eight octets, behind the flag octet.
fn long_size(s: &[u8], more: bool) -> Option<Frame>
    ensures { result ≡ long_of more s.now }
{
    let (size, rest) = s.split_at_checked(8)?;
    let len = octets::read_eight(size)?;
    hold(9, len as usize, rest.len(), more)
}

// The frame that some bytes begin with. None where they begin with no whole frame.
pub fn first_frame(s: &[u8]) -> Option<Frame>
    ensures { result ≡ step_of s.now }
{
    let (flag, rest) = s.split_first()?;
    match *flag {
        0 => short_size(rest, false),
        1 => short_size(rest, true),
        2 => long_size(rest, false),
        3 => long_size(rest, true),
        4..=255 => None,
    }
}
