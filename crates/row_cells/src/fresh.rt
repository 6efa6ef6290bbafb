// A fresh row: a key and a value in cells of zeros, and their lengths.
ghost use Rattle.std.specs.Prelude.{◌≤◌, length};
ghost use Rattle.frame_forms.specs.Lengths.{value_room};
ghost use Rattle.keys.specs.Keys.{key_room};
ghost use Rattle.row_cells.specs.FreshRows.{IsRow};

use crate::LENGTHS;
use base::output;
use frame_forms::lengths::VALUE_ROOM;
use keys::KEY_ROOM;

// The fields are as large as their cells, with the lengths beside them: a row lies in fixed memory, and has no heap.
#[derive(Clone, Copy)]
pub struct Row {
    pub key: [u8; KEY_ROOM],
    pub value: [u8; VALUE_ROOM],
    pub lengths: [u64; LENGTHS],
}

// The row of a key and a value, if they fit their cells.
pub fn fresh_row(key: &[u8], value: &[u8]) -> Row
    ensures { (length key.now ≤ key_room) × (length value.now ≤ value_room)
        → IsRow result key.now value.now }
{
    let mut key_cell = [0; KEY_ROOM];
    let mut value_cell = [0; VALUE_ROOM];
    output::put_bytes(&mut key_cell, 0, key);
    output::put_bytes(&mut value_cell, 0, value);
    Row {
        key: key_cell,
        value: value_cell,
        lengths: [key.len() as u64, value.len() as u64],
    }
}
