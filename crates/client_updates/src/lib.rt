// What HUGZ and KVPUB come to at a client, once their frames are read. These functions only read.
#![tactic(auto)]

ghost use Rattle.std.specs.Prelude.{[], ◌≡◌};
ghost use Rattle.base.specs.Checks.{first_refusal};
ghost use Rattle.client_calls.specs.Effects.{hear, update_by};
ghost use Rattle.client_effects.specs.Plans.{plan_unless, plan_in_phase, effect_plan};
ghost use Rattle.client_state.specs.Views.{is_waiting};
ghost use Rattle.ports.specs.Ports.{tick_checks};
ghost use Rattle.row_cells.specs.Faults.{GoodRows};
ghost use Rattle.row_cells.specs.Texts.{keys_of};

use answers::answer::Kind;
use answers::refusal::Refusal;
use client_effects::Plan;
use client_state::{Header, WAITING};
use numbers::sequence;
use numbers::sequence::Sequence;
use numbers::tick::Tick;
use ports::time;
use row_cells::{RowBytes, RowLengths};

// HUGZ: its tick is looked at before the phase.
pub fn plan_hugz(header: Header, tick: Tick) -> Result<Plan, Refusal>
    ensures { result ≡ plan_unless (first_refusal (tick_checks header.clock.0 tick.0))
        (plan_in_phase (is_waiting header.phase) (effect_plan [] header (hear tick.0))) }
{
    time::check_tick(header.clock, tick)?;
    if header.phase == WAITING {
        return Err(Refusal::Phase);
    }
    let after = Header {
        clock: tick,
        ..header
    };
    Ok(Plan::Note(after, Kind::Heard(header.number)))
}

// KVPUB: one that is not new changes nothing, and one outside the subtree no row.
pub fn plan_kvpub<'a>(
    bytes: &'a RowBytes,
    lengths: &'a RowLengths,
    subtree: &'a [u8],
    header: Header,
    next: Sequence,
    key: &'a [u8],
    value: &'a [u8],
) -> Result<Plan, Refusal>
    requires { GoodRows header.count bytes.now lengths.now }
    ensures { result ≡ plan_in_phase (is_waiting header.phase) (effect_plan
        (keys_of header.count bytes.now lengths.now) header
        (update_by header.number.0 subtree.now next.0 key.now value.now)) }
{
    if header.phase == WAITING {
        return Err(Refusal::Phase);
    }
    if !sequence::is_above(next, header.number) {
        return Ok(Plan::Note(header, Kind::Stale(header.number)));
    }
    let after = Header {
        number: next,
        ..header
    };
    if !keys::is_under(subtree, key) {
        return Ok(Plan::Note(after, Kind::Outside(next)));
    }
    let removes = value.is_empty();
    client_effects::plan_row(bytes, lengths, after, key, removes, Kind::Applied(next))
}
