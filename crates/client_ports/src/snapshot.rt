// The client's port for snapshots: KTHXBAI, or else KVSYNC.
ghost use Rattle.std.specs.Prelude.{◌≡◌};
ghost use Rattle.answers.specs.Refusals.{verdict};
ghost use Rattle.base.specs.Checks.{first_refusal};
ghost use Rattle.client_ports.specs.Readings.{end_of, sent_of};
ghost use Rattle.ports.specs.Bodies.{fields_at, snapshot_by};
ghost use Rattle.ports.specs.Ports.{row_value_checks, kvsync_checks, kthxbai_checks, snapshot_checks};

use crate::bare::check_bare;
use answers::refusal::Refusal;
use base::bytes;
use frame_forms::{lengths, words};
use framing::{Places, Split};
use messages::{FRAMES, HEAD, SEQUENCE, VALUE};
use numbers::sequence::{self, Sequence};
use ports::frame_count::check_framing;

// What a message of a snapshot is: the end with the server's number, or a row.
#[derive(Clone, Copy)]
pub enum Sent {
    Kthxbai(Sequence),
    Kvsync,
}

// The value of a row.
fn check_row_value(value: &[u8]) -> Result<(), Refusal>
    ensures { result ≡ verdict (first_refusal (row_value_checks value.now)) }
{
    if value.is_empty() || !lengths::is_value(value) {
        return Err(Refusal::BadValue);
    }
    Ok(())
}

// The frames of a KVSYNC in the snapshot of a subtree.
fn check_kvsync_frames(msg: &[u8], places: Places, subtree: &[u8]) -> Result<(), Refusal>
    ensures { result ≡ verdict (first_refusal
        (kvsync_checks subtree.now (fields_at msg.now places))) }
{
    let key = framing::body(msg, places, HEAD);
    if !keys::is_key(key) {
        return Err(Refusal::BadKey);
    }
    if !keys::is_under(subtree, key) {
        return Err(Refusal::BadSubtree);
    }
    sequence::read_sequence(framing::body(msg, places, SEQUENCE)).ok_or(Refusal::BadSequence)?;
    check_bare(msg, places)?;
    check_row_value(framing::body(msg, places, VALUE))
}

// The frames of a KTHXBAI at the end of the snapshot of a subtree.
fn read_kthxbai_frames(msg: &[u8], places: Places, subtree: &[u8]) -> Result<Sent, Refusal>
    ensures { result ≡ end_of (fields_at msg.now places)
        (first_refusal (kthxbai_checks subtree.now (fields_at msg.now places))) }
{
    if !bytes::same_bytes(subtree, framing::body(msg, places, VALUE)) {
        return Err(Refusal::BadSubtree);
    }
    let n = sequence::read_sequence(framing::body(msg, places, SEQUENCE)).ok_or(
        Refusal::BadSequence,
    )?;
    if !sequence::is_kept(n) {
        return Err(Refusal::BadSequence);
    }
    check_bare(msg, places)?;
    Ok(Sent::Kthxbai(n))
}

// The frames of a KTHXBAI, or else of a KVSYNC.
#[tactic(auto, unfolding(crate::specs::Readings::row_of, crate::specs::Readings::sent_of))]
fn read_sent_frames(msg: &[u8], places: Places, subtree: &[u8]) -> Result<Sent, Refusal>
    ensures { result ≡ sent_of (fields_at msg.now places)
        (first_refusal (snapshot_checks subtree.now (fields_at msg.now places))) }
{
    if words::is_kthxbai(framing::body(msg, places, HEAD)) {
        return read_kthxbai_frames(msg, places, subtree);
    }
    check_kvsync_frames(msg, places, subtree)?;
    Ok(Sent::Kvsync)
}

// The client's port for snapshots of its subtree: KTHXBAI, or else KVSYNC.
pub fn read_sent(msg: &[u8], split: Split, subtree: &[u8]) -> Result<Sent, Refusal>
    ensures { result ≡ sent_of (fields_at msg.now split.places)
        (first_refusal (snapshot_by subtree.now msg.now split)) }
{
    check_framing(split.framing, FRAMES)?;
    read_sent_frames(msg, split.places, subtree)
}
