// Rows in cells: row i of a state has cell i of its bytes, for a key and the value behind it, and cell i of its
// lengths, for how many bytes of either count. What else a row holds is in cells of its own, beside these.
#![tactic(auto)]

use frame_forms::lengths::VALUE_ROOM;
use keys::KEY_ROOM;

pub mod fresh;
pub mod text;

// How many rows a state has room for.
pub const MAX_ROWS: usize = 64;

// The bytes of a row, and the place of its value among them.
pub const CELL: usize = KEY_ROOM + VALUE_ROOM;

pub const VALUE_AT: usize = KEY_ROOM;

// The lengths of a row: that of its key, and that of its value.
pub const LENGTHS: usize = 2;

pub const KEY_LENGTH: usize = 0;

pub const VALUE_LENGTH: usize = 1;

pub type RowBytes = [u8; MAX_ROWS * CELL];

pub type RowLengths = [u64; MAX_ROWS * LENGTHS];
