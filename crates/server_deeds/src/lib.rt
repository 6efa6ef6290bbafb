// What there is to do at a tick: a row that is due expires, or the server gives a sign of life, or nothing. These
// functions only read.
#![tactic(auto)]

ghost use Rattle.std.specs.Prelude.{◌≡◌, ◌≤◌, ◌<◌};
ghost use Rattle.numbers.specs.Sequences.{max_sequence};
ghost use Rattle.row_cells.specs.Faults.{GoodRows};
ghost use Rattle.row_cells.specs.Texts.{row_key};
ghost use Rattle.server_state.specs.Views.{lent};
ghost use Rattle.server_deeds.specs.Plans.{expire_plan, beat_plan, deed_plan, tick_plan};

use answers::refusal::Refusal;
use messages::write;
use numbers::tick::Tick;
use numbers::{sequence, tick};
use ports::time;
use row_cells::{RowBytes, RowLengths, text};
use server_state::{Header, RowStamps, validate};

pub mod due;

// After so many milliseconds without a publication the server gives a sign of life.
pub const HEARTBEAT_MS: u64 = 1000;

// How many bytes HUGZ takes.
const HUGZ_LENGTH: usize = 22;

// A row expires, the server gives a sign of life, or it does nothing, each with the header after the call.
#[derive(Clone, Copy)]
pub enum Plan {
    Expire(usize, Header),
    Beat(Header),
    Quiet(Header),
}

// Row i is due.
fn plan_expiry<'a>(
    bytes: &'a RowBytes,
    lengths: &'a RowLengths,
    header: Header,
    tick: Tick,
    i: usize,
    room: usize,
) -> Result<Plan, Refusal>
    requires { GoodRows header.count bytes.now lengths.now
        × ((i < header.count) × (header.number.0 ≤ max_sequence)) }
    ensures { result ≡ expire_plan header tick.0 i (row_key i bytes.now lengths.now) room }
{
    let next = sequence::next_number(header.number).ok_or(Refusal::Exhausted)?;
    let key = text::key_at(bytes, lengths, i);
    if room < write::message_length(key.len(), 0, 0, 0) {
        return Err(Refusal::ShortOutput);
    }
    let after = Header {
        number: next,
        last_tick: tick,
        last_published: tick,
        count: header.count - 1,
    };
    Ok(Plan::Expire(i, after))
}

// No row is due.
fn plan_beat(header: Header, tick: Tick, room: usize) -> Result<Plan, Refusal>
    ensures { result ≡ beat_plan header tick.0 room }
{
    let quiet = Header {
        last_tick: tick,
        ..header
    };
    if tick::elapsed(header.last_published, tick) < HEARTBEAT_MS {
        return Ok(Plan::Quiet(quiet));
    }
    if room < HUGZ_LENGTH {
        return Err(Refusal::ShortOutput);
    }
    Ok(Plan::Beat(Header {
        last_published: tick,
        ..quiet
    }))
}

// What there is to do at a tick that is good: by the row that is due, if any, and the last publication.
fn plan_deed<'a>(
    bytes: &'a RowBytes,
    lengths: &'a RowLengths,
    stamps: &'a RowStamps,
    header: Header,
    tick: Tick,
    room: usize,
) -> Result<Plan, Refusal>
    requires { GoodRows header.count bytes.now lengths.now × (header.number.0 ≤ max_sequence) }
    ensures { result ≡ deed_plan
        (lent bytes.now lengths.now stamps.now header) tick.0 room }
{
    match due::due_row(stamps, header.count, tick) {
        Some(due) => plan_expiry(bytes, lengths, header, tick, due.at, room),
        None => plan_beat(header, tick, room),
    }
}

// The checks of a Tick in their order, and what it does where it passes them.
pub fn plan_tick<'a>(
    bytes: &'a RowBytes,
    lengths: &'a RowLengths,
    stamps: &'a RowStamps,
    header: Header,
    tick: Tick,
    room: usize,
) -> Result<Plan, Refusal>
    ensures { result ≡ tick_plan
        (lent bytes.now lengths.now stamps.now header) tick.0 room }
{
    validate::check_state(bytes, lengths, stamps, header)?;
    time::check_tick(header.last_tick, tick)?;
    plan_deed(bytes, lengths, stamps, header, tick, room)
}
