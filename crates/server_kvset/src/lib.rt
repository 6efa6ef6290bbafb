// KVSET: an update that a client asks for is made and published.
#![tactic(auto)]

ghost use Rattle.std.specs.Prelude.{length};
ghost use Rattle.base.specs.Output.{Written};
ghost use Rattle.ports.specs.Bodies.{fields_at};
ghost use Rattle.server_calls.specs.Calls.{kvset as asked};
ghost use Rattle.server_calls.specs.Promises.{Answered};
ghost use Rattle.server_calls.specs.Refusals.{update};
ghost use Rattle.server_state.specs.Views.{lent};

use answers::answer::Kind;
use framing::Places;
use messages::{HEAD, PROPERTIES, UUID, VALUE, write};
use numbers::sequence::Sequence;
use numbers::tick::Tick;
use row_cells::{RowBytes, RowLengths, fresh};
use server_calls::Outcome;
use server_state::{Header, RowStamps, stamps as row_stamps};
use server_updates::Plan;

// Writes the KVPUB of a number and of the frames of a message.
fn publish(out: &mut [u8], number: Sequence, msg: &[u8], places: Places) -> usize
    ensures { Written out.old 0 (update number.0 (fields_at msg.now places))
        result out.new }
{
    let key = framing::body(msg, places, HEAD);
    let uuid = framing::body(msg, places, UUID);
    let properties = framing::body(msg, places, PROPERTIES);
    let value = framing::body(msg, places, VALUE);
    write::write_kvpub(out, 0, number, key, uuid, properties, value)
}

// KVSET on a state whose arrays are lent: a message of five frames, whose update is made at a tick and published in the
// output.
pub fn kvset_lent(
    bytes: &mut RowBytes,
    lengths: &mut RowLengths,
    stamps: &mut RowStamps,
    header: Header,
    msg: &[u8],
    tick: Tick,
    out: &mut [u8],
) -> Outcome
    ensures { Answered
        (lent bytes.old lengths.old stamps.old header)
        (asked msg.now tick.0 (length out.old)) out.old
        (lent bytes.new lengths.new stamps.new result.header) result.answer
        out.new }
{
    let split = framing::split_message(msg);
    match server_updates::plan_kvset(bytes, lengths, stamps, header, msg, split, tick, out.len()) {
        Err(r) => Outcome::refused(header, r),
        Ok(Plan { change, after, row }) => {
            let key = framing::body(msg, split.places, HEAD);
            let value = framing::body(msg, split.places, VALUE);
            let fresh = fresh::fresh_row(key, value);
            row_change::change_row(bytes, lengths, change, header.count, fresh);
            row_stamps::change_stamps(stamps, change, header.count, row);
            let written = publish(out, after.number, msg, split.places);
            Outcome::accepted(after, Kind::Wrote(after.number), written)
        }
    }
}
