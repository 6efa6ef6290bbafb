// Messages as bytes, for hosts: the two value entries, and the first of several messages.
ghost use Rattle.std.specs.Prelude.{◌≡◌, length};
ghost use Rattle.answers.specs.Refusals.{verdict, verdict_number};
ghost use Rattle.base.specs.Checks.{first_refusal};
ghost use Rattle.chp.specs.Values.{IsValueLength};
ghost use Rattle.frames.specs.Runs.{message_in};
ghost use Rattle.ports.specs.Ports.{value_port};

use ports::value;

// How long the value frame of a message of five frames is, which ends the message; 0 where the message is refused.
#[unsafe(no_mangle)]
pub extern "C" fn chp_bytes_value_length(msg: &[u8]) -> usize
    ensures { IsValueLength msg.now result }
{
    value::value_frame(msg).len()
}

// 0 where a message has five frames, and else the number of its refusal.
#[unsafe(no_mangle)]
pub extern "C" fn chp_bytes_value_refusal(msg: &[u8]) -> u64
    ensures { result ≡ verdict_number (verdict (first_refusal (value_port msg.now))) }
{
    value::value_refusal(msg)
}

// How long the message is that some bytes begin with; 0 where they begin with none.
#[unsafe(no_mangle)]
pub extern "C" fn chp_bytes_message_length(bytes: &[u8]) -> usize
    ensures { result ≡ length (message_in bytes.now) }
{
    framing::first_message(bytes).len()
}
