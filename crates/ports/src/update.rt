// What an update may hold: key, UUID, properties and value.
ghost use Rattle.std.specs.Prelude.{◌≡◌};
ghost use Rattle.answers.specs.Refusals.{verdict};
ghost use Rattle.base.specs.Checks.{first_refusal};
ghost use Rattle.ports.specs.Bodies.{update_of};
ghost use Rattle.ports.specs.Ports.{payload_checks, update_checks};

use answers::refusal::Refusal;
use frame_forms::lengths;
use properties::read::{self, Lifetime};

// UUID, properties and value of an update: the lifetime that its properties give.
pub fn read_payload(uuid: &[u8], properties: &[u8], value: &[u8]) -> Result<Lifetime, Refusal>
    ensures { result ≡ update_of properties.now
        (first_refusal (payload_checks uuid.now properties.now value.now)) }
{
    if !lengths::is_uuid(uuid) {
        return Err(Refusal::BadUuid);
    }
    let lifetime = read::read_properties(properties).ok_or(Refusal::BadProperties)?;
    if !lengths::is_value(value) {
        return Err(Refusal::BadValue);
    }
    Ok(lifetime)
}

// The same, where the lifetime does not matter.
pub fn check_payload(uuid: &[u8], properties: &[u8], value: &[u8]) -> Result<(), Refusal>
    ensures { result ≡ verdict (first_refusal (payload_checks uuid.now properties.now
        value.now)) }
{
    read_payload(uuid, properties, value)?;
    Ok(())
}

// What a KVSET is written from: key, UUID, properties and value.
pub fn check_update(key: &[u8], uuid: &[u8], properties: &[u8], value: &[u8]) -> Result<(), Refusal>
    ensures { result ≡ verdict (first_refusal (update_checks key.now uuid.now properties.now
        value.now)) }
{
    if !keys::is_key(key) {
        return Err(Refusal::BadKey);
    }
    check_payload(uuid, properties, value)
}
