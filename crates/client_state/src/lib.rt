// The state of a client: the rows under its subtree, the subtree, and a header.
#![tactic(auto)]

use answers::outcome::Numbered;
use keys::KEY_ROOM;
use numbers::sequence::Sequence;
use numbers::tick::Tick;
use row_cells::{RowBytes, RowLengths};

pub mod subtree;
pub mod validate;

// The phase of a client that waits for its snapshot, and that of one that has it. Any number but the first means the
// second: the C interface lends it as a word of any bits, so it is no enum.
pub const WAITING: u64 = 0;

pub const LIVE: u64 = 1;

pub type SubtreeBytes = [u8; KEY_ROOM];

// The phase, the number of the last update that was taken, the time from which the server's silence is counted, how
// long the subtree is, and how many rows there are.
#[derive(Clone, Copy)]
pub struct Header {
    pub phase: u64,
    pub number: Sequence,
    pub clock: Tick,
    pub subtree_length: u64,
    pub count: usize,
}

impl Numbered for Header {
    ghost number_of = { λ h. h.number };

    fn number(&self) -> Sequence {
        self.number
    }
}

// Row i has cell i of bytes and of lengths. The subtree is at the front of its array.
#[derive(Clone, Copy)]
pub struct Client {
    pub bytes: RowBytes,
    pub lengths: RowLengths,
    pub subtree: SubtreeBytes,
    pub header: Header,
}
