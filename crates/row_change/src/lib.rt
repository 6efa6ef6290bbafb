// A change of one row: it is decided once, and made in each array of cells by itself.
#![tactic(auto)]

ghost use Rattle.std.specs.Prelude.{◌++◌, ◌≡◌, ◌+◌, ◌*◌, ◌≤◌, length};
ghost use Rattle.cells.specs.Cells.{cells};
ghost use Rattle.row_cells.specs.FreshRows.{cell_of};
ghost use Rattle.row_cells.specs.Sizes.{max_rows};
ghost use Rattle.row_change.specs.Changes.{changed, count_after, Fits, is_over, Altered};

use row_cells::fresh::Row;
use row_cells::{CELL, LENGTHS, MAX_ROWS, RowBytes, RowLengths};

// What happens to the rows: nothing, or one of them is taken out, set anew, or put in at its place.
#[derive(Clone, Copy)]
pub enum Change {
    Leave,
    Remove(usize),
    Replace(usize),
    Insert(usize),
}

// How many rows there are after a change of so many.
pub fn count_after(change: Change, count: usize) -> usize
    requires { Fits change count }
    ensures { result ≡ count_after change count }
{
    match change {
        Change::Leave | Change::Replace(_) => count,
        Change::Remove(_) => count - 1,
        Change::Insert(_) => count + 1,
    }
}

// Whether a change would add a row to as many as there may be.
pub fn overfills(change: Change, count: usize) -> bool
    ensures { result ≡ is_over change count }
{
    match change {
        Change::Leave | Change::Remove(_) | Change::Replace(_) => false,
        Change::Insert(_) => MAX_ROWS <= count,
    }
}

// A change in an array of cells. The cell of the changed row is given whole, in two pieces.
pub fn change_cells<T: Copy>(
    all: &mut [T],
    stride: usize,
    change: Change,
    count: usize,
    front: &[T],
    back: &[T],
)
    requires { Fits change count
        × ((stride * max_rows ≤ length all.old) × (length front.now + length back.now ≡ stride)) }
    ensures { cells stride (count_after change count) all.new
        ≡ changed change (front.now ++ back.now) (cells stride count all.old) }
{
    match change {
        Change::Leave => {}
        Change::Remove(i) => cells::remove_cell(all, stride, i, count - 1),
        Change::Replace(i) => cells::write_cell(all, stride, i, front, back),
        Change::Insert(i) => cells::insert_cell(all, stride, i, count, front, back),
    }
}

// A change of one of the first count rows.
pub fn change_row(
    bytes: &mut RowBytes,
    lengths: &mut RowLengths,
    change: Change,
    count: usize,
    row: Row,
)
    requires { Fits change count }
    ensures { Altered change (cell_of row) row.lengths count
        bytes.old lengths.old bytes.new lengths.new }
{
    change_cells(bytes, CELL, change, count, &row.key, &row.value);
    change_cells(lengths, LENGTHS, change, count, &row.lengths, &[]);
}
