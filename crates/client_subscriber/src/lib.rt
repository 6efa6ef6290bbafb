// The subscriber entry of a client: HUGZ, or else KVPUB.
#![tactic(auto)]

ghost use Rattle.std.specs.Prelude.{[]};
ghost use Rattle.client_calls.specs.Calls.{subscriber as handed};
ghost use Rattle.client_calls.specs.Promises.{Answered};
ghost use Rattle.client_state.specs.Views.{lent};

use client_calls::Outcome;
use client_state::{Header, SubtreeBytes};
use messages::{HEAD, VALUE};
use numbers::tick::Tick;
use row_cells::{RowBytes, RowLengths};

mod plan;

// The subscriber entry on a state whose arrays are lent: a message of five frames, and the time, which only HUGZ uses.
pub fn subscriber_lent<'a>(
    bytes: &mut RowBytes,
    lengths: &mut RowLengths,
    subtree: &'a SubtreeBytes,
    header: Header,
    msg: &'a [u8],
    tick: Tick,
) -> Outcome
    ensures { Answered
        (lent bytes.old lengths.old subtree.now header)
        (handed msg.now tick.0) []
        (lent bytes.new lengths.new subtree.now result.header) result.answer [] }
{
    let split = framing::split_message(msg);
    let plan = plan::plan_subscriber(bytes, lengths, subtree, header, msg, split, tick);
    let key = framing::body(msg, split.places, HEAD);
    let value = framing::body(msg, split.places, VALUE);
    client_effects::carry_out(bytes, lengths, header, plan, key, value)
}
