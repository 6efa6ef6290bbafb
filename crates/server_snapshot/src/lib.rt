// ICANHAZ: the snapshot of a subtree is written.
#![tactic(auto)]

ghost use Rattle.std.specs.Prelude.{length};
ghost use Rattle.server_calls.specs.Calls.{icanhaz as requested};
ghost use Rattle.server_calls.specs.Promises.{Answered};
ghost use Rattle.server_state.specs.Views.{lent};

use answers::answer;
use answers::answer::{Answer, Kind};
use messages::{IDENTITY, SUBTREE};
use row_cells::{RowBytes, RowLengths};
use server_state::{Header, RowStamps};

mod plan;
mod snapshot;

// ICANHAZ at a state whose arrays are lent: a message of three frames, an identity, the word and a subtree, whose
// snapshot is written to the output.
pub fn icanhaz_lent<'a>(
    bytes: &'a RowBytes,
    lengths: &'a RowLengths,
    stamps: &'a RowStamps,
    header: Header,
    msg: &'a [u8],
    out: &mut [u8],
) -> Answer
    ensures { Answered
        (lent bytes.now lengths.now stamps.now header)
        (requested msg.now (length out.old)) out.old
        (lent bytes.now lengths.now stamps.now header) result
        out.new }
{
    let split = framing::split_message(msg);
    match plan::check_request(bytes, lengths, stamps, header, msg, split, out.len()) {
        Err(r) => answer::without_output(Kind::Refused(r, header.number)),
        Ok(()) => {
            let identity = framing::body(msg, split.places, IDENTITY);
            let subtree = framing::body(msg, split.places, SUBTREE);
            let written = snapshot::write_snapshot(
                out, bytes, lengths, stamps, header, identity, subtree,
            );
            answer::with_output(Kind::Wrote(header.number), written)
        }
    }
}
