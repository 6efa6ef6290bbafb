// The tick that a call is told.
ghost use Rattle.std.specs.Prelude.{◌≡◌};
ghost use Rattle.base.specs.Checks.{first_refusal};
ghost use Rattle.answers.specs.Refusals.{verdict};
ghost use Rattle.ports.specs.Ports.{tick_checks};

use answers::refusal::Refusal;
use numbers::tick;
use numbers::tick::Tick;

// Whether a tick is in range, and not below the last one.
pub fn check_tick(last: Tick, tick: Tick) -> Result<(), Refusal>
    ensures { result ≡ verdict (first_refusal (tick_checks last.0 tick.0)) }
{
    if !tick::is_time(tick) || tick::is_before(tick, last) {
        return Err(Refusal::BadTick);
    }
    Ok(())
}
