// The server's port for ICANHAZ, with the identity in front.
ghost use Rattle.std.specs.Prelude.{◌≡◌};
ghost use Rattle.answers.specs.Refusals.{verdict};
ghost use Rattle.base.specs.Checks.{first_refusal};
ghost use Rattle.framing.specs.Splits.{body_in};
ghost use Rattle.ports.specs.Bodies.{icanhaz_by};
ghost use Rattle.ports.specs.Ports.{icanhaz_checks};

use answers::refusal::Refusal;
use frame_forms::{lengths, words};
use framing::{Places, Split};
use messages::{IDENTITY, REQUEST_FRAMES, SUBTREE, WORD};
use ports::frame_count::check_framing;

// The frames of an ICANHAZ behind its identity.
fn check_icanhaz_frames(msg: &[u8], places: Places) -> Result<(), Refusal>
    ensures { result ≡ verdict (first_refusal (icanhaz_checks (body_in msg.now places 0)
        (body_in msg.now places 1) (body_in msg.now places 2))) }
{
    if !lengths::is_identity(framing::body(msg, places, IDENTITY)) {
        return Err(Refusal::BadIdentity);
    }
    if !words::is_icanhaz(framing::body(msg, places, WORD)) {
        return Err(Refusal::Word);
    }
    if !keys::is_subtree(framing::body(msg, places, SUBTREE)) {
        return Err(Refusal::BadSubtree);
    }
    Ok(())
}

// The server's port for ICANHAZ, with the identity in front.
pub fn check_icanhaz(msg: &[u8], split: Split) -> Result<(), Refusal>
    ensures { result ≡ verdict (first_refusal (icanhaz_by msg.now split)) }
{
    check_framing(split.framing, REQUEST_FRAMES)?;
    check_icanhaz_frames(msg, split.places)
}
