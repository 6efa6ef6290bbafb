// What an update comes to that a client asks for: its refusal, or the change of a row, the header after the call, and
// the stamps of a row that is set. These functions only read.
#![tactic(auto)]

ghost use Rattle.std.specs.Prelude.{◌≡◌, ◌≤◌};
ghost use Rattle.numbers.specs.Ticks.{max_tick};
ghost use Rattle.ports.specs.Bodies.{fields_at};
ghost use Rattle.properties.specs.Properties.{seconds_of};
ghost use Rattle.row_cells.specs.Texts.{keys_of};
ghost use Rattle.server_updates.specs.Plans.{expiry_from, stamps_for, kvset_plan, update_plan, Ready};
ghost use Rattle.server_state.specs.Views.{lent};

use answers::refusal::Refusal;
use framing::{Places, Split};
use messages::{HEAD, PROPERTIES, UUID, VALUE, write};
use numbers::sequence::Sequence;
use numbers::tick::Tick;
use numbers::{sequence, tick};
use ports::time;
use properties::read::Lifetime;
use row_cells::{RowBytes, RowLengths};
use row_change::Change;
use server_state::stamps::Stamps;
use server_state::{Header, RowStamps, expiry, validate};

// A row changes, under the header after the call. A row that is set has the stamps.
#[derive(Clone, Copy)]
pub struct Plan {
    pub change: Change,
    pub after: Header,
    pub row: Stamps,
}

// When a row that is set at a tick expires, by its lifetime.
fn expiry_of(tick: Tick, lifetime: Lifetime) -> Tick
    requires { (tick.0 ≤ max_tick) × (seconds_of lifetime ≤ 86400) }
    ensures { result.0 ≡ expiry_from tick.0 lifetime }
{
    match lifetime {
        Lifetime::Unlimited => expiry::NEVER,
        Lifetime::Seconds(n) => tick::later(tick, 1000 * n),
    }
}

// What a row is stamped with that is set at a tick, under a number.
fn stamps_of(number: Sequence, tick: Tick, lifetime: Lifetime) -> Stamps
    requires { (tick.0 ≤ max_tick) × (seconds_of lifetime ≤ 86400) }
    ensures { result ≡ stamps_for number.0 tick.0 lifetime }
{
    Stamps {
        number,
        expiry: expiry_of(tick, lifetime),
    }
}

// An update whose frames and tick are good.
fn plan_update<'a>(
    bytes: &'a RowBytes,
    lengths: &'a RowLengths,
    header: Header,
    msg: &'a [u8],
    places: Places,
    tick: Tick,
    lifetime: Lifetime,
    room: usize,
) -> Result<Plan, Refusal>
    requires { Ready bytes.now lengths.now header (fields_at msg.now places) tick.0 lifetime }
    ensures { result ≡ update_plan (keys_of header.count bytes.now lengths.now) header
        (fields_at msg.now places) tick.0 lifetime room }
{
    let key = framing::body(msg, places, HEAD);
    let value = framing::body(msg, places, VALUE);
    let found = row_search::find_row(bytes, lengths, header.count, key);
    let change = row_search::change_to(value.is_empty(), found);
    if row_change::overfills(change, header.count) {
        return Err(Refusal::Full);
    }
    let next = sequence::next_number(header.number).ok_or(Refusal::Exhausted)?;
    let uuid = framing::body(msg, places, UUID);
    let properties = framing::body(msg, places, PROPERTIES);
    if room < write::message_length(key.len(), uuid.len(), properties.len(), value.len()) {
        return Err(Refusal::ShortOutput);
    }
    let after = Header {
        number: next,
        last_tick: tick,
        last_published: tick,
        count: row_change::count_after(change, header.count),
    };
    let row = stamps_of(next, tick, lifetime);
    Ok(Plan { change, after, row })
}

// The checks of a KVSET in their order, and the change that it makes where it passes them.
pub fn plan_kvset<'a>(
    bytes: &'a RowBytes,
    lengths: &'a RowLengths,
    stamps: &'a RowStamps,
    header: Header,
    msg: &'a [u8],
    split: Split,
    tick: Tick,
    room: usize,
) -> Result<Plan, Refusal>
    ensures { result ≡ kvset_plan
        (lent bytes.now lengths.now stamps.now header)
        msg.now split tick.0 room }
{
    validate::check_state(bytes, lengths, stamps, header)?;
    let lifetime = server_ports::kvset::read_kvset(msg, split)?;
    time::check_tick(header.last_tick, tick)?;
    plan_update(
        bytes,
        lengths,
        header,
        msg,
        split.places,
        tick,
        lifetime,
        room,
    )
}
