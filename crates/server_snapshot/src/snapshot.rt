// The snapshot of a subtree: a KVSYNC for each row under it, in key order, then KTHXBAI, each after the identity frame.
ghost use Rattle.std.specs.Prelude.{◌≡◌, ◌+◌, ◌≤◌, min, length};
ghost use Rattle.base.specs.Output.{Written, largest};
ghost use Rattle.messages.specs.Fields.{bytes_of, kvsync, with_identity};
ghost use Rattle.row_cells.specs.Faults.{GoodRows};
ghost use Rattle.server_calls.specs.Snapshots.{snapshot_length, syncs, snapshot_bytes};
ghost use Rattle.server_snapshot.specs.Requests.{length_rows};
ghost use Rattle.server_state.specs.Views.{lent, row_list};

use base::output;
use frame_writer::frame;
use messages::{identity as front, write as message};
use numbers::sequence::Sequence;
use row_cells::{RowBytes, RowLengths, text};
use server_state::{Header, RowStamps, stamps as row_stamps};

// How many bytes the snapshot takes, or the largest number if that is larger.
pub(crate) fn snapshot_length<'a>(
    bytes: &'a RowBytes,
    lengths: &'a RowLengths,
    count: usize,
    identity: usize,
    subtree: &'a [u8],
) -> usize
    requires { GoodRows count bytes.now lengths.now }
    ensures { result ≡ min (snapshot_length identity subtree.now
        (length_rows count bytes.now lengths.now)) largest }
{
    let head = frame::frame_length(identity);
    let mut total = output::add_lengths(head, message::message_length(7, 0, 0, subtree.len()));
    for i in (0..count).rev() {
        let key = text::key_at(bytes, lengths, i);
        if keys::is_under(subtree, key) {
            let value = text::value_length_at(lengths, i);
            let row = message::message_length(key.len(), 0, 0, value);
            total = output::add_lengths(output::add_lengths(head, row), total);
        }
    }
    total
}

// Writes a row of a snapshot.
fn write_row(
    out: &mut [u8],
    at: usize,
    identity: &[u8],
    number: Sequence,
    key: &[u8],
    value: &[u8],
) -> usize
    requires { at + length (with_identity identity.now (bytes_of (kvsync number.0 key.now value.now)))
        ≤ length out.old }
    ensures { Written out.old at
        (with_identity identity.now (bytes_of (kvsync number.0 key.now value.now)))
        result out.new }
{
    let next = front::write_identity(out, at, identity);
    message::write_kvsync(out, next, number, key, value)
}

// Writes the rows of a snapshot, from the start of the output.
fn write_rows<'a>(
    out: &mut [u8],
    bytes: &'a RowBytes,
    lengths: &'a RowLengths,
    stamps: &'a RowStamps,
    header: Header,
    identity: &'a [u8],
    subtree: &'a [u8],
) -> usize
    requires { GoodRows header.count bytes.now lengths.now
        × (length (syncs identity.now subtree.now (row_list (lent bytes.now lengths.now stamps.now header)))
        ≤ length out.old) }
    ensures { Written out.old 0 (syncs identity.now subtree.now
        (row_list (lent bytes.now lengths.now stamps.now header)))
        result out.new }
{
    let mut at = 0;
    for i in 0..header.count {
        let key = text::key_at(bytes, lengths, i);
        if keys::is_under(subtree, key) {
            let value = text::value_at(bytes, lengths, i);
            at = write_row(
                out,
                at,
                identity,
                row_stamps::number_at(stamps, i),
                key,
                value,
            );
        }
    }
    at
}

// Writes the snapshot of a subtree, from the start of the output, and gives how many bytes it has.
pub(crate) fn write_snapshot<'a>(
    out: &mut [u8],
    bytes: &'a RowBytes,
    lengths: &'a RowLengths,
    stamps: &'a RowStamps,
    header: Header,
    identity: &'a [u8],
    subtree: &'a [u8],
) -> usize
    requires { GoodRows header.count bytes.now lengths.now
        × (length (snapshot_bytes header.number.0 identity.now subtree.now
        (row_list (lent bytes.now lengths.now stamps.now header))) ≤ length out.old) }
    ensures { Written out.old 0
        (snapshot_bytes header.number.0 identity.now subtree.now
        (row_list (lent bytes.now lengths.now stamps.now header)))
        result out.new }
{
    let rows = write_rows(out, bytes, lengths, stamps, header, identity, subtree);
    let next = front::write_identity(out, rows, identity);
    message::write_kthxbai(out, next, header.number, subtree)
}
