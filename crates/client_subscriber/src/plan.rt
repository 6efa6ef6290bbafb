// What a message that is published comes to. These functions only read.
ghost use Rattle.std.specs.Prelude.{◌≡◌};
ghost use Rattle.client_subscriber.specs.Plans.{subscriber_plan};
ghost use Rattle.client_state.specs.Views.{lent};
ghost use Rattle.framing.specs.Splits.{IsSplit};

use answers::refusal::Refusal;
use client_effects::Plan;
use client_ports::subscriber;
use client_ports::subscriber::Published;
use client_state::{Header, SubtreeBytes, subtree as subtrees, validate};
use framing::Split;
use messages::{HEAD, VALUE};
use numbers::tick::Tick;
use row_cells::{RowBytes, RowLengths};

// The checks of a message in their order, and what it does where it passes them.
pub(crate) fn plan_subscriber<'a>(
    bytes: &'a RowBytes,
    lengths: &'a RowLengths,
    subtree: &'a SubtreeBytes,
    header: Header,
    msg: &'a [u8],
    split: Split,
    tick: Tick,
) -> Result<Plan, Refusal>
    requires { IsSplit msg.now split }
    ensures { result ≡ subscriber_plan
        (lent bytes.now lengths.now subtree.now header)
        msg.now tick.0 }
{
    validate::check_state(bytes, lengths, subtree, header)?;
    let published = subscriber::read_published(msg, split)?;
    match published {
        Published::Hugz => client_updates::plan_hugz(header, tick),
        Published::Kvpub(next) => {
            let own = subtrees::subtree_in(subtree, header.subtree_length);
            let key = framing::body(msg, split.places, HEAD);
            let value = framing::body(msg, split.places, VALUE);
            client_updates::plan_kvpub(bytes, lengths, own, header, next, key, value)
        }
    }
}
