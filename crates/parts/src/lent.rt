// Building and splitting for hosts that lend numbers. A message that is built is told by its length and its stage, a
// frame by its start, its length and whether another follows.
ghost use Rattle.std.specs.Prelude.{◌≡◌};
ghost use Rattle.parts.specs.Numbers.{built_of, numbers_of, Added, FrameGiven};

use crate::build::Built;
use crate::{build, walk};
use base::output;

// How far a message is built, by its length and its stage: 0 open, 1 whole, any other void.
fn built_of(w: [u64; 2]) -> Built
    ensures { result ≡ built_of w }
{
    let [n, stage] = w;
    match stage {
        0 => Built::Open(n as usize),
        1 => Built::Whole(n as usize),
        _ => Built::Void,
    }
}

fn numbers_of(b: Built) -> [u64; 2]
    ensures { result ≡ numbers_of b }
{
    match b {
        Built::Open(n) => [n as u64, 0],
        Built::Whole(n) => [n as u64, 1],
        Built::Void => [0, 2],
    }
}

// Adds a part to a message in a buffer, with another to follow unless more is 0.
pub fn add_part(buffer: &mut [u8], built: &mut [u64; 2], more: u64, part: &[u8])
    ensures { Added buffer.old built.old more part.now built.new
        buffer.new }
{
    let next = build::put_part(buffer, built_of(*built), more != 0, part);
    *built = numbers_of(next);
}

// The frame after a frame: 1, or 0 where there is none.
pub fn frame_after(bytes: &[u8], frame: &mut [u64; 3]) -> u64
    ensures { FrameGiven bytes.now frame.old result frame.new }
{
    let [start, len, more] = *frame;
    let at = output::add_lengths(start as usize, len as usize);
    let Some(next) = walk::next_frame(bytes, at, more != 0) else {
        return 0;
    };
    *frame = [next.start as u64, next.len as u64, u64::from(next.more)];
    1
}
