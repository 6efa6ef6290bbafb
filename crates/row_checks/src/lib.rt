// Whether rows are well-formed, for any bits in them. Each test is one straight pass.
#![tactic(auto)]

ghost use Rattle.std.specs.Prelude.{true, ◌&&◌, ◌≡◌, ◌≤◌};
ghost use Rattle.answers.specs.Refusals.{verdict};
ghost use Rattle.base.specs.Bytes.{every};
ghost use Rattle.base.specs.Checks.{first_refusal};
ghost use Rattle.cells.specs.Cells.{cells};
ghost use Rattle.keys.specs.Keys.{is_key, under};
ghost use Rattle.row_cells.specs.Faults.{fitting, row_faults, GoodRows};
ghost use Rattle.row_cells.specs.Sizes.{max_rows, length_count};
ghost use Rattle.row_cells.specs.Texts.{keys_of};
ghost use Rattle.rows.specs.Rows.{rising};

use answers::refusal::Refusal;
use frame_forms::lengths::VALUE_ROOM;
use keys::KEY_ROOM;
use row_cells::{MAX_ROWS, RowBytes, RowLengths, text};

// Whether the lengths of the first count rows fit.
fn are_fitting(lengths: &RowLengths, count: usize) -> bool
    requires { count ≤ max_rows }
    ensures { result ≡ every fitting (cells length_count count lengths.now) }
{
    let mut good = true;
    for i in 0..count {
        let key = text::key_length_at(lengths, i);
        let value = text::value_length_at(lengths, i);
        good &= (key <= KEY_ROOM) & (1 <= value) & (value <= VALUE_ROOM);
    }
    good
}

// Whether the first count keys are well-formed and rise strictly: each is compared with the one before it, and the
// first with no bytes.
fn are_sorted_keys<'a>(bytes: &'a RowBytes, lengths: &'a RowLengths, count: usize) -> bool
    requires { (count ≤ max_rows) × (every fitting (cells length_count count lengths.now) ≡ true) }
    ensures { result ≡ (every is_key (keys_of count bytes.now lengths.now)
        && rising (keys_of count bytes.now lengths.now)) }
{
    let mut before: &[u8] = &[];
    for i in 0..count {
        let key = text::key_at(bytes, lengths, i);
        if !keys::is_key(key) || key_order::compare(before, key).is_ge() {
            return false;
        }
        before = key;
    }
    true
}

// Whether the first count keys are under a subtree. Under the empty one all are, and none is looked at.
pub fn are_under<'a>(
    bytes: &'a RowBytes,
    lengths: &'a RowLengths,
    count: usize,
    subtree: &'a [u8],
) -> bool
    requires { GoodRows count bytes.now lengths.now }
    ensures { result
        ≡ every (under subtree.now) (keys_of count bytes.now lengths.now) }
{
    subtree.is_empty()
        || (0..count).all(|i| keys::is_under(subtree, text::key_at(bytes, lengths, i)))
}

// Whether the first count rows are well-formed. Bytes after a key or a value, and rows from the count on, do not
// matter.
#[tactic(auto, unfolding(base::specs::Checks::first_refusal))]
pub fn check_rows<'a>(
    bytes: &'a RowBytes,
    lengths: &'a RowLengths,
    count: usize,
) -> Result<(), Refusal>
    ensures { result ≡ verdict (first_refusal (row_faults count bytes.now lengths.now)) }
{
    if MAX_ROWS < count {
        return Err(Refusal::IllFormed);
    }
    if !are_fitting(lengths, count) || !are_sorted_keys(bytes, lengths, count) {
        return Err(Refusal::IllFormed);
    }
    Ok(())
}
