// The identity frame, which stands in front of a message on its way through the router.
ghost use Rattle.std.specs.Prelude.{◌≡◌};
ghost use Rattle.base.specs.Output.{Written};
ghost use Rattle.messages.specs.Fields.{identity_frame, without_identity};

use base::bytes;
use frame_writer::frame;

// Writes an identity frame, behind which a message is to follow.
pub fn write_identity(out: &mut [u8], at: usize, identity: &[u8]) -> usize
    ensures { Written out.old at (identity_frame identity.now) result out.new }
{
    frame::put_frame(out, at, true, identity)
}

// A message without the identity frame in front of it, as a part.
pub fn without_identity(msg: &[u8]) -> &[u8]
    ensures { result.now ≡ without_identity msg.now }
{
    match frame_reader::frame_at(msg, 0) {
        Some(frame) => bytes::behind(msg, frame.start + frame.len),
        None => &msg[..0],
    }
}
