// The messages that a client writes: ICANHAZ while it waits, and KVSET at any time.
#![tactic(auto)]

ghost use Rattle.std.specs.Prelude.{◌++◌, ◌≡◌, length};
ghost use Rattle.answers.specs.Refusals.{verdict};
ghost use Rattle.base.specs.Checks.{first_refusal};
ghost use Rattle.client_calls.specs.Calls.{write_icanhaz, write_kvset};
ghost use Rattle.client_calls.specs.Promises.{Answered};
ghost use Rattle.client_state.specs.IllFormed.{ill_forms};
ghost use Rattle.client_state.specs.Views.{lent};
ghost use Rattle.client_writers.specs.Phases.{phase_check};
ghost use Rattle.ports.specs.Ports.{update_checks};

use answers::answer;
use answers::answer::{Answer, Kind};
use answers::refusal::Refusal;
use client_state::{Header, SubtreeBytes, WAITING, subtree as subtrees, validate};
use messages::write;
use ports::update;
use row_cells::{RowBytes, RowLengths};

// Whether ICANHAZ is refused: by the state, or by the phase.
#[tactic(auto, using(client_calls::proofs::QueryLaws::verdict_behind), unfolding(base::specs::Checks::first_refusal))]
fn check_icanhaz<'a>(
    bytes: &'a RowBytes,
    lengths: &'a RowLengths,
    subtree: &'a SubtreeBytes,
    header: Header,
) -> Result<(), Refusal>
    ensures { result ≡ verdict (first_refusal
        (ill_forms (lent bytes.now lengths.now subtree.now header)
        ++ phase_check header.phase)) }
{
    validate::check_state(bytes, lengths, subtree, header)?;
    if header.phase != WAITING {
        return Err(Refusal::Phase);
    }
    Ok(())
}

// ICANHAZ of a client whose arrays are lent, the request for the snapshot of its subtree: two frames, in front of which
// the router puts the identity.
pub fn write_icanhaz_lent<'a>(
    bytes: &'a RowBytes,
    lengths: &'a RowLengths,
    subtree: &'a SubtreeBytes,
    header: Header,
    out: &mut [u8],
) -> Answer
    ensures { Answered
        (lent bytes.now lengths.now subtree.now header)
        (write_icanhaz (length out.old)) out.old
        (lent bytes.now lengths.now subtree.now header) result out.new }
{
    let number = header.number;
    match check_icanhaz(bytes, lengths, subtree, header) {
        Err(r) => answer::without_output(Kind::Refused(r, number)),
        Ok(()) => {
            let own = subtrees::subtree_in(subtree, header.subtree_length);
            let count = write::write_icanhaz(out, 0, own);
            client_calls::written(Kind::Wrote(number), number, count)
        }
    }
}

// Whether KVSET is refused: by the state, or by what it is to carry.
#[tactic(auto, using(client_calls::proofs::QueryLaws::verdict_behind))]
fn check_kvset<'a>(
    bytes: &'a RowBytes,
    lengths: &'a RowLengths,
    subtree: &'a SubtreeBytes,
    header: Header,
    key: &'a [u8],
    uuid: &'a [u8],
    properties: &'a [u8],
    value: &'a [u8],
) -> Result<(), Refusal>
    ensures { result ≡ verdict (first_refusal
        (ill_forms (lent bytes.now lengths.now subtree.now header)
        ++ update_checks key.now uuid.now properties.now value.now)) }
{
    validate::check_state(bytes, lengths, subtree, header)?;
    update::check_update(key, uuid, properties, value)
}

// KVSET of a client whose arrays are lent, the request for an update of any key. It does not touch the client's own
// rows: the update comes back in a KVPUB.
pub fn write_kvset_lent<'a>(
    bytes: &'a RowBytes,
    lengths: &'a RowLengths,
    subtree: &'a SubtreeBytes,
    header: Header,
    key: &'a [u8],
    uuid: &'a [u8],
    properties: &'a [u8],
    value: &'a [u8],
    out: &mut [u8],
) -> Answer
    ensures { Answered
        (lent bytes.now lengths.now subtree.now header)
        (write_kvset key.now uuid.now properties.now value.now
        (length out.old)) out.old
        (lent bytes.now lengths.now subtree.now header) result out.new }
{
    let number = header.number;
    let checked = check_kvset(
        bytes, lengths, subtree, header, key, uuid, properties, value,
    );
    match checked {
        Err(r) => answer::without_output(Kind::Refused(r, number)),
        Ok(()) => {
            let count = write::write_kvset(out, 0, key, uuid, properties, value);
            client_calls::written(Kind::Wrote(number), number, count)
        }
    }
}
