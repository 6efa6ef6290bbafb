// The client's port for what is published: HUGZ, or else KVPUB.
ghost use Rattle.std.specs.Prelude.{◌≡◌};
ghost use Rattle.answers.specs.Refusals.{verdict};
ghost use Rattle.base.specs.Checks.{first_refusal};
ghost use Rattle.client_ports.specs.Readings.{kvpub_of, published_of};
ghost use Rattle.ports.specs.Bodies.{fields_at, subscriber_by};
ghost use Rattle.ports.specs.Ports.{kvpub_checks, hugz_checks, published_checks};

use crate::bare::check_bare;
use answers::refusal::Refusal;
use frame_forms::words;
use framing::{Places, Split};
use messages::{FRAMES, HEAD, PROPERTIES, SEQUENCE, UUID, VALUE};
use numbers::sequence::{self, Sequence};
use ports::frame_count::check_framing;
use ports::update::check_payload;

// What a message that was published is: a sign of life, or an update with its number.
#[derive(Clone, Copy)]
pub enum Published {
    Hugz,
    Kvpub(Sequence),
}

// The frames of a KVPUB.
fn read_kvpub_frames(msg: &[u8], places: Places) -> Result<Published, Refusal>
    ensures { result ≡ kvpub_of (fields_at msg.now places)
        (first_refusal (kvpub_checks (fields_at msg.now places))) }
{
    if !keys::is_key(framing::body(msg, places, HEAD)) {
        return Err(Refusal::BadKey);
    }
    let n = sequence::read_sequence(framing::body(msg, places, SEQUENCE)).ok_or(
        Refusal::BadSequence,
    )?;
    if !sequence::is_kept(n) {
        return Err(Refusal::BadSequence);
    }
    check_payload(
        framing::body(msg, places, UUID),
        framing::body(msg, places, PROPERTIES),
        framing::body(msg, places, VALUE),
    )?;
    Ok(Published::Kvpub(n))
}

// The frames of a HUGZ.
fn check_hugz_frames(msg: &[u8], places: Places) -> Result<(), Refusal>
    ensures { result ≡ verdict (first_refusal (hugz_checks (fields_at msg.now places))) }
{
    let n = sequence::read_sequence(framing::body(msg, places, SEQUENCE)).ok_or(
        Refusal::BadSequence,
    )?;
    if !sequence::is_zero(n) {
        return Err(Refusal::BadSequence);
    }
    check_bare(msg, places)?;
    if !framing::body(msg, places, VALUE).is_empty() {
        return Err(Refusal::BadValue);
    }
    Ok(())
}

// The frames of a HUGZ, or else of a KVPUB.
#[tactic(auto, unfolding(crate::specs::Readings::beat_of, crate::specs::Readings::published_of))]
fn read_published_frames(msg: &[u8], places: Places) -> Result<Published, Refusal>
    ensures { result ≡ published_of (fields_at msg.now places)
        (first_refusal (published_checks (fields_at msg.now places))) }
{
    if words::is_hugz(framing::body(msg, places, HEAD)) {
        check_hugz_frames(msg, places)?;
        return Ok(Published::Hugz);
    }
    read_kvpub_frames(msg, places)
}

// The client's port for what is published: HUGZ, or else KVPUB.
pub fn read_published(msg: &[u8], split: Split) -> Result<Published, Refusal>
    ensures { result ≡ published_of (fields_at msg.now split.places)
        (first_refusal (subscriber_by msg.now split)) }
{
    check_framing(split.framing, FRAMES)?;
    read_published_frames(msg, split.places)
}
