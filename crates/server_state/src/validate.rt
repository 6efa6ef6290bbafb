// Whether a state that is handed in is well-formed, for any bits at all.
ghost use Rattle.std.specs.Prelude.{◌≡◌, ◌≤◌};
ghost use Rattle.answers.specs.Refusals.{verdict};
ghost use Rattle.base.specs.Bytes.{every};
ghost use Rattle.base.specs.Checks.{first_refusal};
ghost use Rattle.cells.specs.Cells.{cells};
ghost use Rattle.row_cells.specs.Sizes.{max_rows};
ghost use Rattle.server_state.specs.IllFormed.{stamped, stamp_faults, ill_forms};
ghost use Rattle.server_state.specs.Stamps.{stamp_count};
ghost use Rattle.server_state.specs.Views.{lent};

use crate::{Header, RowStamps, expiry, stamps};
use answers::refusal::Refusal;
use numbers::sequence::Sequence;
use numbers::{sequence, tick};
use row_cells::{RowBytes, RowLengths};

// Whether the numbers of the first count rows are at most that of the state, and their expiries in range.
fn are_stamped(stamps: &RowStamps, count: usize, number: Sequence) -> bool
    requires { count ≤ max_rows }
    ensures { result ≡ every (stamped number.0) (cells stamp_count count stamps.now) }
{
    let mut good = true;
    for i in 0..count {
        let above = sequence::is_above(stamps::number_at(stamps, i), number);
        good &= !above & expiry::is_expiry(stamps::expiry_at(stamps, i));
    }
    good
}

// Whether the stamps of the rows, of which there are not too many, and the header are in range.
#[tactic(auto, unfolding(base::specs::Checks::first_refusal))]
fn check_stamps(stamps: &RowStamps, header: Header) -> Result<(), Refusal>
    requires { header.count ≤ max_rows }
    ensures { result ≡ verdict (first_refusal (stamp_faults stamps.now header)) }
{
    if !are_stamped(stamps, header.count, header.number)
        || !sequence::is_kept(header.number)
        || tick::is_before(header.last_tick, header.last_published)
        || !tick::is_time(header.last_tick)
    {
        return Err(Refusal::IllFormed);
    }
    Ok(())
}

// Whether a state is well-formed. Bytes after a key or a value, and rows from the count on, do not matter.
#[tactic(auto, unfolding(base::specs::Checks::first_refusal, crate::specs::IllFormed::ill_forms))]
pub fn check_state<'a>(
    bytes: &'a RowBytes,
    lengths: &'a RowLengths,
    stamps: &'a RowStamps,
    header: Header,
) -> Result<(), Refusal>
    ensures { result ≡ verdict (first_refusal (ill_forms
        (lent bytes.now lengths.now stamps.now header))) }
{
    row_checks::check_rows(bytes, lengths, header.count)?;
    check_stamps(stamps, header)
}
