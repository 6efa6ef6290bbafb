// Whether an ICANHAZ is granted. These functions only read.
ghost use Rattle.std.specs.Prelude.{◌≡◌, ◌≤◌, length};
ghost use Rattle.answers.specs.Refusals.{verdict};
ghost use Rattle.base.specs.Checks.{first_refusal};
ghost use Rattle.framing.specs.Splits.{body_in};
ghost use Rattle.keys.specs.Keys.{key_room};
ghost use Rattle.row_cells.specs.Faults.{GoodRows};
ghost use Rattle.server_calls.specs.Refusals.{room_checks};
ghost use Rattle.server_snapshot.specs.Requests.{length_rows, request_checks};
ghost use Rattle.server_state.specs.Views.{lent};

use crate::snapshot;
use answers::refusal::Refusal;
use framing::{Places, Split};
use messages::{IDENTITY, SUBTREE};
use row_cells::{RowBytes, RowLengths};
use server_state::{Header, RowStamps, validate};

// Whether the output has room for the whole snapshot.
fn check_room<'a>(
    bytes: &'a RowBytes,
    lengths: &'a RowLengths,
    count: usize,
    msg: &'a [u8],
    places: Places,
    room: usize,
) -> Result<(), Refusal>
    requires { GoodRows count bytes.now lengths.now
        × ((length (body_in msg.now places 0) ≤ 255) × (length (body_in msg.now places 2) ≤ key_room)) }
    ensures { result ≡ verdict (first_refusal (room_checks
        (length_rows count bytes.now lengths.now)
        (body_in msg.now places 0) (body_in msg.now places 2) room)) }
{
    let identity = framing::body(msg, places, IDENTITY);
    let subtree = framing::body(msg, places, SUBTREE);
    if room < snapshot::snapshot_length(bytes, lengths, count, identity.len(), subtree) {
        return Err(Refusal::ShortOutput);
    }
    Ok(())
}

// The checks of an ICANHAZ in their order.
pub(crate) fn check_request<'a>(
    bytes: &'a RowBytes,
    lengths: &'a RowLengths,
    stamps: &'a RowStamps,
    header: Header,
    msg: &'a [u8],
    split: Split,
    room: usize,
) -> Result<(), Refusal>
    ensures { result ≡ verdict (first_refusal (request_checks
        (lent bytes.now lengths.now stamps.now header)
        msg.now split room)) }
{
    validate::check_state(bytes, lengths, stamps, header)?;
    server_ports::icanhaz::check_icanhaz(msg, split)?;
    check_room(bytes, lengths, header.count, msg, split.places, room)
}
