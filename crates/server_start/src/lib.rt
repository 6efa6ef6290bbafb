// The start of a server.
#![tactic(auto, unfolding(base::specs::Checks::first_refusal))]

ghost use Rattle.std.specs.Prelude.{◌≡◌, replicate};
ghost use Rattle.answers.specs.Refusals.{verdict};
ghost use Rattle.base.specs.Checks.{first_refusal};
ghost use Rattle.row_cells.specs.Sizes.{byte_count, word_count, length_count};
ghost use Rattle.server_calls.specs.Promises.{Began};
ghost use Rattle.server_calls.specs.Start.{start_checks};
ghost use Rattle.server_start.specs.Headers.{header_at};
ghost use Rattle.server_state.specs.Stamps.{stamp_count};
ghost use Rattle.server_state.specs.Views.{lent};

use answers::answer::Kind;
use answers::refusal::Refusal;
use numbers::sequence::Sequence;
use numbers::tick::Tick;
use numbers::{sequence, tick};
use row_cells::{CELL, LENGTHS, MAX_ROWS, RowBytes, RowLengths};
use server_calls::Outcome;
use server_state::{Header, RowStamps, STAMPS};

// Whether a server may begin at a number and a tick.
fn check_start(number: Sequence, tick: Tick) -> Result<(), Refusal>
    ensures { result ≡ verdict (first_refusal (start_checks number.0 tick.0)) }
{
    if !sequence::is_kept(number) {
        return Err(Refusal::BadSequence);
    }
    if !tick::is_time(tick) {
        return Err(Refusal::BadTick);
    }
    Ok(())
}

// The header of a server without rows.
fn first_header(number: Sequence, tick: Tick) -> Header
    ensures { result ≡ header_at number.0 tick.0 }
{
    Header {
        number,
        last_tick: tick,
        last_published: tick,
        count: 0,
    }
}

// A server without rows at a number and a tick, in arrays that are lent: they are filled with zeros. Refused, it is at
// number 0 and tick 0.
pub fn start_lent(
    bytes: &mut RowBytes,
    lengths: &mut RowLengths,
    stamps: &mut RowStamps,
    number: Sequence,
    tick: Tick,
) -> Outcome
    ensures begins { Began number.0 tick.0
        (lent bytes.new lengths.new stamps.new result.header) result.answer }
    ensures zeroed { (bytes.new ≡ replicate byte_count 0)
        × (lengths.new ≡ replicate (word_count length_count) 0)
        × (stamps.new ≡ replicate (word_count stamp_count) 0) }
{
    *bytes = [0; MAX_ROWS * CELL];
    *lengths = [0; MAX_ROWS * LENGTHS];
    *stamps = [0; MAX_ROWS * STAMPS];
    match check_start(number, tick) {
        Err(r) => Outcome::refused(first_header(Sequence(0), Tick(0)), r),
        Ok(()) => Outcome::accepted(first_header(number, tick), Kind::Started(number), 0),
    }
}
