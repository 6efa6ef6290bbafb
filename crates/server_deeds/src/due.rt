// The row that a tick removes: of those whose expiry is before the tick one with the least, the first of them.
ghost use Rattle.std.specs.Prelude.{◌≡◌, ◌≤◌};
ghost use Rattle.row_cells.specs.Sizes.{max_rows};
ghost use Rattle.server_deeds.specs.DuePlaces.{earlier, due_from, expiries_of};

use numbers::tick;
use numbers::tick::Tick;
use server_state::{RowStamps, stamps as row_stamps};

// A row that is due, with its expiry.
#[derive(Clone, Copy)]
pub struct Due {
    pub at: usize,
    pub expiry: Tick,
}

// A row with an expiry, in front of others of which one may be due: it goes first if it is due and none of them expires
// earlier.
fn earlier_of(at: usize, expiry: Tick, tick: Tick, rest: Option<Due>) -> Option<Due>
    ensures { result ≡ earlier tick.0 at expiry rest }
{
    if !tick::is_before(expiry, tick) {
        return rest;
    }
    match rest {
        Some(due) if tick::is_before(due.expiry, expiry) => Some(due),
        _ => Some(Due { at, expiry }),
    }
}

// The row that is due first, of the first count rows. No tick is after the expiry of a row that does not expire.
pub(crate) fn due_row(stamps: &RowStamps, count: usize, tick: Tick) -> Option<Due>
    requires { count ≤ max_rows }
    ensures { result ≡ due_from 0 tick.0 (expiries_of count stamps.now) }
{
    let mut first = None;
    for i in (0..count).rev() {
        first = earlier_of(i, row_stamps::expiry_at(stamps, i), tick, first);
    }
    first
}
