// Tick: a row that is due expires, or the server gives a sign of life.
#![tactic(auto)]

ghost use Rattle.std.specs.Prelude.{◌<◌, length};
ghost use Rattle.row_cells.specs.Faults.{GoodRows};
ghost use Rattle.server_calls.specs.Calls.{tick as told};
ghost use Rattle.server_calls.specs.Promises.{Answered};
ghost use Rattle.server_state.specs.Views.{lent};
ghost use Rattle.server_tick.specs.Expired.{Expired};

use answers::answer::Kind;
use messages::write;
use numbers::sequence::Sequence;
use numbers::tick::Tick;
use row_cells::{RowBytes, RowLengths, fresh, text};
use row_change::Change;
use server_calls::Outcome;
use server_deeds::Plan;
use server_state::stamps::Stamps;
use server_state::{Header, RowStamps, expiry, stamps as row_stamps};

// Publishes that row i of count expires, under a number, and takes it out.
fn expire_row(
    bytes: &mut RowBytes,
    lengths: &mut RowLengths,
    stamps: &mut RowStamps,
    count: usize,
    i: usize,
    number: Sequence,
    out: &mut [u8],
) -> usize
    requires { GoodRows count bytes.old lengths.old × (i < count) }
    ensures { Expired count i number.0
        bytes.old lengths.old stamps.old out.old
        bytes.new lengths.new stamps.new result out.new }
{
    let key = text::key_at(bytes, lengths, i);
    let written = write::write_kvpub(out, 0, number, key, b"", b"", b"");
    let gone = Change::Remove(i);
    row_change::change_row(bytes, lengths, gone, count, fresh::fresh_row(b"", b""));
    let none = Stamps {
        number,
        expiry: expiry::NEVER,
    };
    row_stamps::change_stamps(stamps, gone, count, none);
    written
}

// Tick on a state whose arrays are lent: the time is told, and what it brings about is published in the output.
pub fn tick_lent(
    bytes: &mut RowBytes,
    lengths: &mut RowLengths,
    stamps: &mut RowStamps,
    header: Header,
    tick: Tick,
    out: &mut [u8],
) -> Outcome
    ensures { Answered
        (lent bytes.old lengths.old stamps.old header)
        (told tick.0 (length out.old)) out.old
        (lent bytes.new lengths.new stamps.new result.header) result.answer
        out.new }
{
    match server_deeds::plan_tick(bytes, lengths, stamps, header, tick, out.len()) {
        Err(r) => Outcome::refused(header, r),
        Ok(Plan::Expire(i, after)) => {
            let written = expire_row(bytes, lengths, stamps, header.count, i, after.number, out);
            Outcome::accepted(after, Kind::Wrote(after.number), written)
        }
        Ok(Plan::Beat(after)) => {
            let written = write::write_hugz(out, 0);
            Outcome::accepted(after, Kind::Wrote(after.number), written)
        }
        Ok(Plan::Quiet(after)) => Outcome::accepted(after, Kind::Nothing(after.number), 0),
    }
}
