// Writing messages. Each writer puts a whole message into the output from place at on and gives the place behind it;
// where it does not fit, the output stays as it is, and at is given back.
ghost use Rattle.std.specs.Prelude.{◌≡◌, min};
ghost use Rattle.base.specs.Output.{Written, largest};
ghost use Rattle.base.specs.Octets.{octets};
ghost use Rattle.messages.specs.Fields.{fields, bytes_of, message_length};
ghost use Rattle.messages.specs.Fields.{kvset, kvpub, kvsync, kthxbai, hugz, icanhaz};

use base::{octets, output};
use frame_writer::frame;
use numbers::sequence::Sequence;

// How many bytes a message of five frames takes, by the lengths of its bodies, or the largest number where that is
// larger.
pub fn message_length(head: usize, uuid: usize, properties: usize, value: usize) -> usize
    ensures { result ≡ min (message_length head uuid properties value) largest }
{
    let a = output::add_lengths(frame::frame_length(head), 10);
    let b = output::add_lengths(a, frame::frame_length(uuid));
    let c = output::add_lengths(b, frame::frame_length(properties));
    output::add_lengths(c, frame::frame_length(value))
}

// A message of five frames.
pub fn write_message(
    out: &mut [u8],
    at: usize,
    head: &[u8],
    number: Sequence,
    uuid: &[u8],
    properties: &[u8],
    value: &[u8],
) -> usize
    ensures { Written out.old at (bytes_of (fields head.now (octets 8 number.0)
        uuid.now properties.now value.now)) result out.new }
{
    let need = message_length(head.len(), uuid.len(), properties.len(), value.len());
    if !output::has_room(out.len(), at, need) {
        return at;
    }
    let sequence = octets::octets_of(number.0);
    let a = frame::put_frame(out, at, true, head);
    let b = frame::put_frame(out, a, true, &sequence);
    let c = frame::put_frame(out, b, true, uuid);
    let d = frame::put_frame(out, c, true, properties);
    frame::put_frame(out, d, false, value)
}

// KVSET: an update that a client asks for.
pub fn write_kvset(
    out: &mut [u8],
    at: usize,
    key: &[u8],
    uuid: &[u8],
    properties: &[u8],
    value: &[u8],
) -> usize
    ensures { Written out.old at (bytes_of (kvset key.now uuid.now
        properties.now value.now)) result out.new }
{
    write_message(out, at, key, Sequence(0), uuid, properties, value)
}

// KVPUB: an update that the server publishes, with its number.
pub fn write_kvpub(
    out: &mut [u8],
    at: usize,
    number: Sequence,
    key: &[u8],
    uuid: &[u8],
    properties: &[u8],
    value: &[u8],
) -> usize
    ensures { Written out.old at (bytes_of (kvpub number.0 key.now uuid.now
        properties.now value.now)) result out.new }
{
    write_message(out, at, key, number, uuid, properties, value)
}

// KVSYNC: a row of a snapshot, with the number of its last set.
pub fn write_kvsync(out: &mut [u8], at: usize, number: Sequence, key: &[u8], value: &[u8]) -> usize
    ensures { Written out.old at (bytes_of (kvsync number.0 key.now
        value.now)) result out.new }
{
    write_message(out, at, key, number, b"", b"", value)
}

// KTHXBAI: the end of a snapshot, with the server's number.
pub fn write_kthxbai(out: &mut [u8], at: usize, number: Sequence, subtree: &[u8]) -> usize
    ensures { Written out.old at (bytes_of (kthxbai number.0 subtree.now)) result
        out.new }
{
    write_message(out, at, b"KTHXBAI", number, b"", b"", subtree)
}

// HUGZ: a sign of life.
pub fn write_hugz(out: &mut [u8], at: usize) -> usize
    ensures { Written out.old at (bytes_of hugz) result out.new }
{
    write_message(out, at, b"HUGZ", Sequence(0), b"", b"", b"")
}

// ICANHAZ: a snapshot request, without the identity.
pub fn write_icanhaz(out: &mut [u8], at: usize, subtree: &[u8]) -> usize
    ensures { Written out.old at (icanhaz subtree.now) result out.new }
{
    let need = output::add_lengths(10, frame::frame_length(subtree.len()));
    if !output::has_room(out.len(), at, need) {
        return at;
    }
    let next = frame::put_frame(out, at, true, b"ICANHAZ?");
    frame::put_frame(out, next, false, subtree)
}
