// What a message of a snapshot comes to. These functions only read.
ghost use Rattle.std.specs.Prelude.{not, [], ◌≡◌};
ghost use Rattle.client_calls.specs.Effects.{sync, finish};
ghost use Rattle.client_effects.specs.Plans.{plan_in_phase, effect_plan};
ghost use Rattle.client_snapshot.specs.Plans.{snapshot_plan};
ghost use Rattle.client_state.specs.Views.{lent, is_waiting};
ghost use Rattle.framing.specs.Splits.{IsSplit};
ghost use Rattle.row_cells.specs.Faults.{GoodRows};
ghost use Rattle.row_cells.specs.Texts.{keys_of};

use answers::answer::Kind;
use answers::refusal::Refusal;
use client_effects::Plan;
use client_ports::snapshot;
use client_ports::snapshot::Sent;
use client_state::{Header, LIVE, SubtreeBytes, WAITING, subtree as subtrees, validate};
use framing::Split;
use messages::HEAD;
use numbers::sequence::Sequence;
use row_cells::{RowBytes, RowLengths};

// KTHXBAI: the client is live, at the server's number.
fn plan_kthxbai(header: Header, last: Sequence) -> Result<Plan, Refusal>
    ensures { result ≡ plan_in_phase (not (is_waiting header.phase)) (effect_plan [] header (finish last.0)) }
{
    if header.phase != WAITING {
        return Err(Refusal::Phase);
    }
    let after = Header {
        phase: LIVE,
        number: last,
        ..header
    };
    Ok(Plan::Note(after, Kind::Live(last)))
}

// KVSYNC: a row of the snapshot.
fn plan_kvsync<'a>(
    bytes: &'a RowBytes,
    lengths: &'a RowLengths,
    header: Header,
    key: &'a [u8],
) -> Result<Plan, Refusal>
    requires { GoodRows header.count bytes.now lengths.now }
    ensures { result ≡ plan_in_phase (not (is_waiting header.phase)) (effect_plan
        (keys_of header.count bytes.now lengths.now) header (sync key.now [])) }
{
    if header.phase != WAITING {
        return Err(Refusal::Phase);
    }
    let kind = Kind::Synced(header.number);
    client_effects::plan_row(bytes, lengths, header, key, false, kind)
}

// The checks of a message in their order, and what it does where it passes them.
pub(crate) fn plan_snapshot<'a>(
    bytes: &'a RowBytes,
    lengths: &'a RowLengths,
    subtree: &'a SubtreeBytes,
    header: Header,
    msg: &'a [u8],
    split: Split,
) -> Result<Plan, Refusal>
    requires { IsSplit msg.now split }
    ensures { result ≡ snapshot_plan
        (lent bytes.now lengths.now subtree.now header) msg.now }
{
    validate::check_state(bytes, lengths, subtree, header)?;
    let own = subtrees::subtree_in(subtree, header.subtree_length);
    let sent = snapshot::read_sent(msg, split, own)?;
    match sent {
        Sent::Kthxbai(last) => plan_kthxbai(header, last),
        Sent::Kvsync => {
            let key = framing::body(msg, split.places, HEAD);
            plan_kvsync(bytes, lengths, header, key)
        }
    }
}
