// The place of a key among the rows, and the change that sets or removes its row.
#![tactic(auto)]

ghost use Rattle.std.specs.Prelude.{◌≡◌};
ghost use Rattle.row_cells.specs.Faults.{GoodRows};
ghost use Rattle.row_cells.specs.Texts.{keys_of};
ghost use Rattle.row_search.specs.Places.{place_of, change_to};

use row_cells::{RowBytes, RowLengths, text};
use row_change::Change;
use std::cmp::Ordering;

// Finds a key by halving: the row that has it, or else the place where one would be, as `binary_search` answers. That
// takes a slice, and keys lie in cells of two arrays.
pub fn find_row<'a>(
    bytes: &'a RowBytes,
    lengths: &'a RowLengths,
    count: usize,
    key: &'a [u8],
) -> Result<usize, usize>
    requires { GoodRows count bytes.now lengths.now }
    ensures { result ≡ place_of 0 key.now (keys_of count bytes.now lengths.now) }
{
    let mut lo = 0;
    let mut hi = count;
    while lo < hi {
        let mid = lo + (hi - lo) / 2;
        match key_order::compare(text::key_at(bytes, lengths, mid), key) {
            Ordering::Less => lo = mid + 1,
            Ordering::Equal => return Ok(mid),
            Ordering::Greater => hi = mid,
        }
    }
    Err(lo)
}

// The change that removes a key's row, or that sets it.
pub fn change_to(removes: bool, found: Result<usize, usize>) -> Change
    ensures { result ≡ change_to removes found }
{
    match (removes, found) {
        (true, Ok(i)) => Change::Remove(i),
        (true, Err(_)) => Change::Leave,
        (false, Ok(i)) => Change::Replace(i),
        (false, Err(i)) => Change::Insert(i),
    }
}
