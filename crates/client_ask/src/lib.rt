// Asking whether the server is gone.
#![tactic(auto)]

ghost use Rattle.std.specs.Prelude.{[], ◌++◌, ◌≡◌};
ghost use Rattle.answers.specs.Refusals.{verdict};
ghost use Rattle.base.specs.Checks.{first_refusal};
ghost use Rattle.client_calls.specs.Calls.{ask as asked};
ghost use Rattle.client_calls.specs.Promises.{Answered};
ghost use Rattle.client_state.specs.IllFormed.{ill_forms};
ghost use Rattle.client_state.specs.Views.{lent};
ghost use Rattle.ports.specs.Ports.{tick_checks};

use answers::answer;
use answers::answer::{Answer, Kind};
use answers::refusal::Refusal;
use client_state::{Header, SubtreeBytes, validate};
use numbers::tick;
use numbers::tick::Tick;
use ports::time;
use row_cells::{RowBytes, RowLengths};

// A server that is silent for longer is presumed gone.
pub const SILENCE_MS: u64 = 5000;

// Whether the question is refused: by the state, or by the tick.
#[tactic(auto, using(client_calls::proofs::QueryLaws::verdict_behind))]
fn check_ask<'a>(
    bytes: &'a RowBytes,
    lengths: &'a RowLengths,
    subtree: &'a SubtreeBytes,
    header: Header,
    tick: Tick,
) -> Result<(), Refusal>
    ensures { result ≡ verdict (first_refusal
        (ill_forms (lent bytes.now lengths.now subtree.now header)
        ++ tick_checks header.clock.0 tick.0)) }
{
    validate::check_state(bytes, lengths, subtree, header)?;
    time::check_tick(header.clock, tick)
}

// Whether the server is gone at a tick, at a client of either phase whose arrays are lent.
pub fn ask_lent<'a>(
    bytes: &'a RowBytes,
    lengths: &'a RowLengths,
    subtree: &'a SubtreeBytes,
    header: Header,
    tick: Tick,
) -> Answer
    ensures { Answered
        (lent bytes.now lengths.now subtree.now header) (asked tick.0) []
        (lent bytes.now lengths.now subtree.now header) result [] }
{
    let number = header.number;
    match check_ask(bytes, lengths, subtree, header, tick) {
        Err(r) => answer::without_output(Kind::Refused(r, number)),
        Ok(()) if SILENCE_MS < tick::elapsed(header.clock, tick) => {
            answer::without_output(Kind::Gone(number))
        }
        Ok(()) => answer::without_output(Kind::Present(number)),
    }
}
