// Messages from and to sockets, for hosts: a message built from parts, and messages split into frames, told by numbers.
ghost use Rattle.parts.specs.Numbers.{Added, FrameGiven};

use parts::lent;

// Adds a part to a message in a buffer, with another to follow unless more is 0.
#[unsafe(no_mangle)]
pub extern "C" fn chp_bytes_put_part(
    buffer: &mut [u8],
    built: &mut [u64; 2],
    more: u64,
    part: &[u8],
)
    ensures { Added buffer.old built.old more part.now built.new
        buffer.new }
{
    lent::add_part(buffer, built, more, part);
}

// The frame after a frame: 1, or 0 where there is none.
#[unsafe(no_mangle)]
pub extern "C" fn chp_bytes_next_frame(bytes: &[u8], frame: &mut [u64; 3]) -> u64
    ensures { FrameGiven bytes.now frame.old result frame.new }
{
    lent::frame_after(bytes, frame)
}
