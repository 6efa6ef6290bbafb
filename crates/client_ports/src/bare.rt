// What KVSYNC, KTHXBAI and HUGZ have in common: neither UUID nor properties.
ghost use Rattle.std.specs.Prelude.{◌≡◌};
ghost use Rattle.answers.specs.Refusals.{verdict};
ghost use Rattle.base.specs.Checks.{first_refusal};
ghost use Rattle.framing.specs.Splits.{body_in};
ghost use Rattle.ports.specs.Ports.{bare_checks};

use answers::refusal::Refusal;
use framing::Places;
use messages::{PROPERTIES, UUID};

// Whether both frames are empty.
pub(crate) fn check_bare(msg: &[u8], places: Places) -> Result<(), Refusal>
    ensures { result ≡ verdict (first_refusal (bare_checks (body_in msg.now places 2)
        (body_in msg.now places 3))) }
{
    if !framing::body(msg, places, UUID).is_empty() {
        return Err(Refusal::BadUuid);
    }
    if !framing::body(msg, places, PROPERTIES).is_empty() {
        return Err(Refusal::BadProperties);
    }
    Ok(())
}
