// Ticks: times in milliseconds.
ghost use Rattle.std.specs.Prelude.{◌≡◌, ◌+◌, ◌-◌, min, ltb};
ghost use Rattle.base.specs.Output.{largest};
ghost use Rattle.numbers.specs.Ticks.{is_time};

#[repr(C)]
#[derive(Clone, Copy, PartialEq, Eq, PartialOrd, Ord)]
pub struct Tick(pub u64);

pub const MAX_TICK: u64 = 4611686018427387904;

// Whether a tick is in range.
pub fn is_time(t: Tick) -> bool
    ensures { result ≡ is_time t }
{
    t.0 <= MAX_TICK
}

// Whether a tick is before another.
pub fn is_before(t: Tick, other: Tick) -> bool
    ensures { result ≡ ltb t.0 other.0 }
{
    t < other
}

// How many milliseconds have passed from a tick to another; none if the other is not later.
pub fn elapsed(from: Tick, to: Tick) -> u64
    ensures { result ≡ to.0 - from.0 }
{
    to.0.saturating_sub(from.0)
}

// The tick so many milliseconds after another, or the largest number if that is larger.
pub fn later(t: Tick, ms: u64) -> Tick
    ensures { result.0 ≡ min (t.0 + ms) largest }
{
    Tick(t.0.saturating_add(ms))
}
