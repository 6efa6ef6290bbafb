// Expiries: ticks, and a mark for rows that do not expire.
ghost use Rattle.std.specs.Prelude.{◌≡◌};
ghost use Rattle.server_state.specs.Stamps.{is_expiry};

use numbers::tick::Tick;

// The expiry of a row that does not expire.
pub const NEVER: Tick = Tick(u64::MAX);

// The latest expiry: the longest lifetime after the last tick.
const MAX_EXPIRY: Tick = Tick(4611686018513787904);

// Whether a tick is an expiry that a row may have.
pub fn is_expiry(t: Tick) -> bool
    ensures { result ≡ is_expiry t.0 }
{
    (t == NEVER) | (t <= MAX_EXPIRY)
}
