// What a message does to a client: it is planned by functions that only read, and then carried out.
#![tactic(auto)]

ghost use Rattle.std.specs.Prelude.{◌≡◌};
ghost use Rattle.client_effects.specs.Carried.{Storable, CarriedOut};
ghost use Rattle.client_effects.specs.Plans.{row_plan};
ghost use Rattle.row_cells.specs.Faults.{GoodRows};
ghost use Rattle.row_cells.specs.Texts.{keys_of};
ghost use Rattle.row_search.specs.Places.{place_of, change_to};

use answers::answer::Kind;
use answers::refusal::Refusal;
use client_calls::Outcome;
use client_state::Header;
use row_cells::{RowBytes, RowLengths, fresh};
use row_change::Change;

// The header changes alone, or a row with it, and the answer is of a kind. The header is that after the call.
#[derive(Clone, Copy)]
pub enum Plan {
    Note(Header, Kind),
    Store(Change, Header, Kind),
}

// A row is set, or removed, unless it would be one too many. The header is that after the call, but for the count.
pub fn plan_row<'a>(
    bytes: &'a RowBytes,
    lengths: &'a RowLengths,
    header: Header,
    key: &'a [u8],
    removes: bool,
    kind: Kind,
) -> Result<Plan, Refusal>
    requires { GoodRows header.count bytes.now lengths.now }
    ensures { result ≡ row_plan (change_to removes (place_of 0 key.now
        (keys_of header.count bytes.now lengths.now))) header kind }
{
    let found = row_search::find_row(bytes, lengths, header.count, key);
    let change = row_search::change_to(removes, found);
    if row_change::overfills(change, header.count) {
        return Err(Refusal::Full);
    }
    let count = row_change::count_after(change, header.count);
    let counted = Header { count, ..header };
    Ok(Plan::Store(change, counted, kind))
}

// Carries out a plan on a client whose arrays are lent. A row that it stores has the key and the value.
#[tactic(auto, unfolding(crate::specs::Carried::Storable, crate::specs::Carried::CarriedOut))]
pub fn carry_out(
    bytes: &mut RowBytes,
    lengths: &mut RowLengths,
    header: Header,
    plan: Result<Plan, Refusal>,
    key: &[u8],
    value: &[u8],
) -> Outcome
    requires { Storable plan header.count key.now value.now }
    ensures { CarriedOut plan header key.now value.now
        bytes.old lengths.old bytes.new lengths.new result }
{
    match plan {
        Err(r) => Outcome::refused(header, r),
        Ok(Plan::Note(after, kind)) => Outcome::accepted(after, kind, 0),
        Ok(Plan::Store(change, after, kind)) => {
            let row = fresh::fresh_row(key, value);
            row_change::change_row(bytes, lengths, change, header.count, row);
            Outcome::accepted(after, kind, 0)
        }
    }
}
