// Whether a state that is handed in is well-formed, for any bits at all.
ghost use Rattle.std.specs.Prelude.{◌≡◌};
ghost use Rattle.answers.specs.Refusals.{verdict};
ghost use Rattle.base.specs.Checks.{first_refusal};
ghost use Rattle.client_state.specs.IllFormed.{header_faults, subtree_faults, ill_forms};
ghost use Rattle.client_state.specs.Views.{lent};
ghost use Rattle.row_cells.specs.Faults.{GoodRows};

use crate::{Header, SubtreeBytes, WAITING, subtree};
use answers::refusal::Refusal;
use keys::KEY_ROOM;
use numbers::{sequence, tick};
use row_cells::{RowBytes, RowLengths};

// How many bytes the array of the subtree has.
const SUBTREE_ROOM: u64 = KEY_ROOM as u64;

// Whether number and clock are in range, and a client that waits is at number 0.
#[tactic(auto, unfolding(base::specs::Checks::first_refusal))]
fn check_header(header: Header) -> Result<(), Refusal>
    ensures { result ≡ verdict (first_refusal (header_faults header)) }
{
    if !sequence::is_kept(header.number)
        || !tick::is_time(header.clock)
        || (header.phase == WAITING && !sequence::is_zero(header.number))
    {
        return Err(Refusal::IllFormed);
    }
    Ok(())
}

// Whether the subtree is one, and the keys, of good rows, lie under it.
#[tactic(auto, unfolding(base::specs::Checks::first_refusal))]
fn check_subtree<'a>(
    bytes: &'a RowBytes,
    lengths: &'a RowLengths,
    subtree: &'a SubtreeBytes,
    header: Header,
) -> Result<(), Refusal>
    requires { GoodRows header.count bytes.now lengths.now }
    ensures { result ≡ verdict (first_refusal (subtree_faults
        (lent bytes.now lengths.now subtree.now header))) }
{
    if SUBTREE_ROOM < header.subtree_length {
        return Err(Refusal::IllFormed);
    }
    let own = subtree::subtree_in(subtree, header.subtree_length);
    if !keys::is_subtree(own) || !row_checks::are_under(bytes, lengths, header.count, own) {
        return Err(Refusal::IllFormed);
    }
    Ok(())
}

// Whether a state is well-formed. Bytes after a key, a value or the subtree, and rows from the count on, do not matter.
#[tactic(auto, unfolding(base::specs::Checks::first_refusal, crate::specs::IllFormed::ill_forms))]
pub fn check_state<'a>(
    bytes: &'a RowBytes,
    lengths: &'a RowLengths,
    subtree: &'a SubtreeBytes,
    header: Header,
) -> Result<(), Refusal>
    ensures { result ≡ verdict (first_refusal (ill_forms
        (lent bytes.now lengths.now subtree.now header))) }
{
    row_checks::check_rows(bytes, lengths, header.count)?;
    check_subtree(bytes, lengths, subtree, header)?;
    check_header(header)
}
