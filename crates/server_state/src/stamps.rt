// The number and the expiry of a row, in its cell of stamps. A lent array holds plain words; here they become a
// sequence and a tick when they are read, and words when they are stored.
ghost use Rattle.std.specs.Prelude.{◌≡◌, ◌<◌};
ghost use Rattle.cells.specs.Cells.{cells, cell_at};
ghost use Rattle.row_cells.specs.Sizes.{max_rows};
ghost use Rattle.row_change.specs.Changes.{changed, count_after, Fits};
ghost use Rattle.server_state.specs.Stamps.{stamp_count, stamp_number, stamp_expiry, stamps_of};

use crate::{EXPIRY, NUMBER, RowStamps, STAMPS};
use numbers::sequence::Sequence;
use numbers::tick::Tick;
use row_change::Change;

// What a server notes of a row: the number of its last set, and its expiry.
#[derive(Clone, Copy)]
pub struct Stamps {
    pub number: Sequence,
    pub expiry: Tick,
}

// The number of row i. Number and expiry have a function each, since they are two types.
pub fn number_at(stamps: &RowStamps, i: usize) -> Sequence
    requires { i < max_rows }
    ensures { result.0 ≡ stamp_number (cell_at stamp_count i stamps.now) }
{
    Sequence(cells::element_at(stamps, STAMPS, i, NUMBER))
}

// The expiry of row i.
pub fn expiry_at(stamps: &RowStamps, i: usize) -> Tick
    requires { i < max_rows }
    ensures { result.0 ≡ stamp_expiry (cell_at stamp_count i stamps.now) }
{
    Tick(cells::element_at(stamps, STAMPS, i, EXPIRY))
}

// A change of one of the first count rows. A row that is stored has these stamps.
pub fn change_stamps(stamps: &mut RowStamps, change: Change, count: usize, row: Stamps)
    requires { Fits change count }
    ensures { cells stamp_count (count_after change count) stamps.new
        ≡ changed change (stamps_of row) (cells stamp_count count stamps.old) }
{
    let cell = [row.number.0, row.expiry.0];
    row_change::change_cells(stamps, STAMPS, change, count, &cell, &[]);
}
