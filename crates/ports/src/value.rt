// The two value entries: the value frame of any five-frame message, and why there is none.
ghost use Rattle.std.specs.Prelude.{◌≡◌};
ghost use Rattle.answers.specs.Refusals.{verdict, verdict_number};
ghost use Rattle.base.specs.Checks.{first_refusal};
ghost use Rattle.ports.specs.Ports.{value_port, value_in};

use crate::frame_count::check_framing;
use answers::refusal;
use messages::{FRAMES, VALUE};

// The value frame of a five-frame message, as a part of it; the empty part where the message is refused.
pub fn value_frame(msg: &[u8]) -> &[u8]
    ensures { result.now ≡ value_in msg.now }
{
    let split = framing::split_message(msg);
    match check_framing(split.framing, FRAMES) {
        Ok(()) => framing::body(msg, split.places, VALUE),
        Err(_) => &msg[..0],
    }
}

// 0 where a message has five frames, and else the number of its refusal.
pub fn value_refusal(msg: &[u8]) -> u64
    ensures { result ≡ verdict_number (verdict (first_refusal (value_port msg.now))) }
{
    let split = framing::split_message(msg);
    refusal::verdict_number(check_framing(split.framing, FRAMES))
}
