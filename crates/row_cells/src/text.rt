// The key and the value of a row, as parts of its cell. The arrays are passed one by one, as a host lends them. Key and
// value have a function each: one of both, told the constants, would be the same line and let a caller mix them up.
ghost use Rattle.std.specs.Prelude.{◌≡◌, ◌≤◌, ◌<◌};
ghost use Rattle.cells.specs.Cells.{cell_at};
ghost use Rattle.frame_forms.specs.Lengths.{value_room};
ghost use Rattle.keys.specs.Keys.{key_room};
ghost use Rattle.row_cells.specs.Sizes.{max_rows, length_count};
ghost use Rattle.row_cells.specs.Texts.{key_length, value_length, row_key, row_value};

use crate::{CELL, KEY_LENGTH, LENGTHS, RowBytes, RowLengths, VALUE_AT, VALUE_LENGTH};

// How long the key of row i is.
pub fn key_length_at(lengths: &RowLengths, i: usize) -> usize
    requires { i < max_rows }
    ensures { result ≡ key_length (cell_at length_count i lengths.now) }
{
    cells::element_at(lengths, LENGTHS, i, KEY_LENGTH) as usize
}

// How long the value of row i is.
pub fn value_length_at(lengths: &RowLengths, i: usize) -> usize
    requires { i < max_rows }
    ensures { result ≡ value_length (cell_at length_count i lengths.now) }
{
    cells::element_at(lengths, LENGTHS, i, VALUE_LENGTH) as usize
}

// The key of row i.
pub fn key_at<'a>(bytes: &'a RowBytes, lengths: &'a RowLengths, i: usize) -> &'a [u8]
    requires { (i < max_rows) × (key_length (cell_at length_count i lengths.now) ≤ key_room) }
    ensures { result.now ≡ row_key i bytes.now lengths.now }
{
    cells::part(bytes, CELL, i, 0, key_length_at(lengths, i))
}

// The value of row i.
pub fn value_at<'a>(bytes: &'a RowBytes, lengths: &'a RowLengths, i: usize) -> &'a [u8]
    requires { (i < max_rows) × (value_length (cell_at length_count i lengths.now) ≤ value_room) }
    ensures { result.now ≡ row_value i bytes.now lengths.now }
{
    cells::part(bytes, CELL, i, VALUE_AT, value_length_at(lengths, i))
}
