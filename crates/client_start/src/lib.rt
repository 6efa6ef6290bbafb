// The start of a client: its arrays are filled where they lie, and unused bytes are zero.
#![tactic(auto)]

ghost use Rattle.std.specs.Prelude.{◌≡◌, replicate};
ghost use Rattle.answers.specs.Refusals.{verdict};
ghost use Rattle.base.specs.Checks.{first_refusal};
ghost use Rattle.base.specs.Output.{put};
ghost use Rattle.client_calls.specs.Promises.{Began};
ghost use Rattle.client_calls.specs.Start.{start_checks};
ghost use Rattle.client_start.specs.Waiting.{waiting_header};
ghost use Rattle.client_state.specs.Views.{lent, subtree_of};
ghost use Rattle.keys.specs.Keys.{key_room};
ghost use Rattle.row_cells.specs.Sizes.{byte_count, word_count, length_count};

use answers::answer::Kind;
use answers::refusal::Refusal;
use base::output;
use client_calls::Outcome;
use client_state::{Header, SubtreeBytes, WAITING};
use keys::KEY_ROOM;
use numbers::sequence::Sequence;
use numbers::tick;
use numbers::tick::Tick;
use row_cells::{CELL, LENGTHS, MAX_ROWS, RowBytes, RowLengths};

#[tactic(auto, unfolding(base::specs::Checks::first_refusal))]
fn check_start(wanted: &[u8], tick: Tick) -> Result<(), Refusal>
    ensures { result ≡ verdict (first_refusal (start_checks wanted.now tick.0)) }
{
    if !keys::is_subtree(wanted) {
        return Err(Refusal::BadSubtree);
    }
    if !tick::is_time(tick) {
        return Err(Refusal::BadTick);
    }
    Ok(())
}

// The header of a client without rows that waits from a tick on for the snapshot of a subtree, which is so long.
fn waiting(tick: Tick, length: usize) -> Header
    ensures { result ≡ waiting_header tick.0 length }
{
    Header {
        phase: WAITING,
        number: Sequence(0),
        clock: tick,
        subtree_length: length as u64,
        count: 0,
    }
}

// A client that waits, with a subtree and a tick. Refused, it has the empty subtree and tick 0.
pub fn start_lent(
    bytes: &mut RowBytes,
    lengths: &mut RowLengths,
    subtree: &mut SubtreeBytes,
    wanted: &[u8],
    tick: Tick,
) -> Outcome
    ensures begins { Began wanted.now tick.0
        (lent bytes.new lengths.new subtree.new result.header) result.answer }
    ensures zeroed { (bytes.new ≡ replicate byte_count 0)
        × (lengths.new ≡ replicate (word_count length_count) 0) }
    ensures padded { subtree.new ≡ put (replicate key_room 0) 0
        (subtree_of (lent bytes.new lengths.new subtree.new result.header)) }
{
    *bytes = [0; MAX_ROWS * CELL];
    *lengths = [0; MAX_ROWS * LENGTHS];
    *subtree = [0; KEY_ROOM];
    match check_start(wanted, tick) {
        Err(r) => Outcome::refused(waiting(Tick(0), 0), r),
        Ok(()) => {
            let length = output::put_bytes(subtree, 0, wanted);
            Outcome::accepted(waiting(tick, length), Kind::Started(Sequence(0)), 0)
        }
    }
}
