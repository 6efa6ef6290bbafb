// Lookup: the value of a key, copied to the output.
#![tactic(auto)]

ghost use Rattle.std.specs.Prelude.{◌++◌, ◌≡◌, length};
ghost use Rattle.base.specs.Checks.{first_refusal};
ghost use Rattle.client_calls.specs.Calls.{lookup as wanted};
ghost use Rattle.client_calls.specs.Promises.{Answered};
ghost use Rattle.client_lookup.specs.Search.{key_checks, search_of};
ghost use Rattle.client_state.specs.IllFormed.{ill_forms};
ghost use Rattle.client_state.specs.Views.{lent, key_list};
ghost use Rattle.row_search.specs.Places.{place_of};

use answers::answer;
use answers::answer::{Answer, Kind};
use answers::refusal::Refusal;
use base::output;
use client_state::{Header, SubtreeBytes, WAITING, validate};
use row_cells::{RowBytes, RowLengths, text};

// The row that has a key, if one has, unless the lookup is refused: by the state, the key, or the phase.
#[tactic(auto, using(crate::proofs::LookupLaws::search_behind), unfolding(base::specs::Checks::first_refusal))]
fn search_rows<'a>(
    bytes: &'a RowBytes,
    lengths: &'a RowLengths,
    subtree: &'a SubtreeBytes,
    header: Header,
    key: &'a [u8],
) -> Result<Option<usize>, Refusal>
    ensures { result ≡ search_of (first_refusal
        (ill_forms (lent bytes.now lengths.now subtree.now header)
        ++ key_checks header.phase key.now))
        (place_of 0 key.now (key_list (lent bytes.now lengths.now subtree.now header))) }
{
    validate::check_state(bytes, lengths, subtree, header)?;
    if !keys::is_key(key) {
        return Err(Refusal::BadKey);
    }
    if header.phase == WAITING {
        return Err(Refusal::Phase);
    }
    Ok(row_search::find_row(bytes, lengths, header.count, key).ok())
}

// The value of a key at a client whose arrays are lent. Where there is none, a key outside the subtree included, no
// output is needed.
pub fn lookup_lent<'a>(
    bytes: &'a RowBytes,
    lengths: &'a RowLengths,
    subtree: &'a SubtreeBytes,
    header: Header,
    key: &'a [u8],
    out: &mut [u8],
) -> Answer
    ensures { Answered
        (lent bytes.now lengths.now subtree.now header)
        (wanted key.now (length out.old)) out.old
        (lent bytes.now lengths.now subtree.now header) result out.new }
{
    let number = header.number;
    match search_rows(bytes, lengths, subtree, header, key) {
        Err(r) => answer::without_output(Kind::Refused(r, number)),
        Ok(None) => answer::without_output(Kind::Absent(number)),
        Ok(Some(i)) => {
            let value = text::value_at(bytes, lengths, i);
            let count = output::put_bytes(out, 0, value);
            client_calls::written(Kind::Found(number), number, count)
        }
    }
}
