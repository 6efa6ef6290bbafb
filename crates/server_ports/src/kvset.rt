// The server's port for KVSET.
ghost use Rattle.std.specs.Prelude.{◌≡◌};
ghost use Rattle.base.specs.Checks.{first_refusal};
ghost use Rattle.framing.specs.Splits.{body_in};
ghost use Rattle.ports.specs.Bodies.{fields_at, kvset_by, update_of};
ghost use Rattle.ports.specs.Ports.{kvset_checks};

use answers::refusal::Refusal;
use framing::{Places, Split};
use messages::{FRAMES, HEAD, PROPERTIES, SEQUENCE, UUID, VALUE};
use numbers::sequence;
use ports::frame_count::check_framing;
use ports::update::read_payload;
use properties::read::Lifetime;

// The frames of a KVSET.
fn read_kvset_frames(msg: &[u8], places: Places) -> Result<Lifetime, Refusal>
    ensures { result ≡ update_of (body_in msg.now places 3)
        (first_refusal (kvset_checks (fields_at msg.now places))) }
{
    if !keys::is_key(framing::body(msg, places, HEAD)) {
        return Err(Refusal::BadKey);
    }
    sequence::read_sequence(framing::body(msg, places, SEQUENCE)).ok_or(Refusal::BadSequence)?;
    read_payload(
        framing::body(msg, places, UUID),
        framing::body(msg, places, PROPERTIES),
        framing::body(msg, places, VALUE),
    )
}

// The server's port for KVSET: the lifetime that an update asks for.
pub fn read_kvset(msg: &[u8], split: Split) -> Result<Lifetime, Refusal>
    ensures { result ≡ update_of (body_in msg.now split.places 3)
        (first_refusal (kvset_by msg.now split)) }
{
    check_framing(split.framing, FRAMES)?;
    read_kvset_frames(msg, split.places)
}
