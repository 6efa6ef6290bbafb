// The state of a server: rows, each with a number and an expiry beside its key and its value; and a header.
#![tactic(auto)]

use answers::outcome::Numbered;
use numbers::sequence::Sequence;
use numbers::tick::Tick;
use row_cells::{MAX_ROWS, RowBytes, RowLengths};

pub mod expiry;
pub mod stamps;
pub mod validate;

// The stamps of a row: the number of its last set, and its expiry.
pub const STAMPS: usize = 2;

pub const NUMBER: usize = 0;

pub const EXPIRY: usize = 1;

pub type RowStamps = [u64; MAX_ROWS * STAMPS];

// The number of the last update, the times of the last call with a tick and of the last publication, and how many rows
// there are.
#[derive(Clone, Copy)]
pub struct Header {
    pub number: Sequence,
    pub last_tick: Tick,
    pub last_published: Tick,
    pub count: usize,
}

impl Numbered for Header {
    ghost number_of = { λ h. h.number };

    fn number(&self) -> Sequence {
        self.number
    }
}

// Row i has cell i of each array.
#[derive(Clone, Copy)]
pub struct Server {
    pub bytes: RowBytes,
    pub lengths: RowLengths,
    pub stamps: RowStamps,
    pub header: Header,
}
