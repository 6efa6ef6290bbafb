// The client's entries on a state by value: those that may change it give back the state after the call, with the
// answer, the others the answer alone. The work is done by the entries on lent arrays; callers in Rattle that keep a
// state by value call these.
#![tactic(auto)]

ghost use Rattle.std.specs.Prelude.{[], length};
ghost use Rattle.client_calls.specs.Calls.{snapshot as synced, subscriber as heard, ask as asked, lookup as wanted};
ghost use Rattle.client_calls.specs.Calls.{write_icanhaz, write_kvset};
ghost use Rattle.client_calls.specs.Promises.{Began, Answered};

use answers::answer::Answer;
use answers::outcome;
use client_calls::Outcome;
use client_state::Client;
use keys::KEY_ROOM;
use numbers::tick::Tick;
use row_cells::{CELL, LENGTHS, MAX_ROWS};

// The state after a call, and what the call answers.
pub type Reply = outcome::Reply<Client>;

// A client that waits for the snapshot of a subtree, from a tick on. Refused, it has the empty subtree and tick 0.
pub fn start(wanted: &[u8], tick: Tick) -> Reply
    ensures { Began wanted.now tick.0 result.state result.answer }
{
    let mut bytes = [0; MAX_ROWS * CELL];
    let mut lengths = [0; MAX_ROWS * LENGTHS];
    let mut subtree = [0; KEY_ROOM];
    let Outcome { header, answer } = client_start::start_lent(
        &mut bytes,
        &mut lengths,
        &mut subtree,
        wanted,
        tick,
    );
    let state = Client {
        bytes,
        lengths,
        subtree,
        header,
    };
    Reply { state, answer }
}

// The snapshot entry: a message of five frames, the identity in front of it taken off.
pub fn snapshot(mut c: Client, msg: &[u8]) -> Reply
    ensures { Answered c (synced msg.now) [] result.state result.answer [] }
{
    let Outcome { header, answer } = client_snapshot::snapshot_lent(
        &mut c.bytes,
        &mut c.lengths,
        &c.subtree,
        c.header,
        msg,
    );
    let state = Client { header, ..c };
    Reply { state, answer }
}

// The subscriber entry: a message of five frames, and the time, which only HUGZ uses.
pub fn subscriber(mut c: Client, msg: &[u8], tick: Tick) -> Reply
    ensures { Answered c (heard msg.now tick.0) [] result.state result.answer [] }
{
    let Outcome { header, answer } = client_subscriber::subscriber_lent(
        &mut c.bytes,
        &mut c.lengths,
        &c.subtree,
        c.header,
        msg,
        tick,
    );
    let state = Client { header, ..c };
    Reply { state, answer }
}

// Writes ICANHAZ, the request for the snapshot of the client's subtree.
pub fn write_icanhaz(c: Client, out: &mut [u8]) -> Answer
    ensures { Answered c (write_icanhaz (length out.old)) out.old c result out.new }
{
    client_writers::write_icanhaz_lent(&c.bytes, &c.lengths, &c.subtree, c.header, out)
}

// Writes KVSET, the request for an update of any key.
pub fn write_kvset<'a>(
    c: Client,
    key: &'a [u8],
    uuid: &'a [u8],
    properties: &'a [u8],
    value: &'a [u8],
    out: &mut [u8],
) -> Answer
    ensures { Answered c (write_kvset key.now uuid.now properties.now
        value.now (length out.old)) out.old c result out.new }
{
    client_writers::write_kvset_lent(
        &c.bytes, &c.lengths, &c.subtree, c.header, key, uuid, properties, value, out,
    )
}

// Whether the server is gone at a tick.
pub fn ask(c: Client, tick: Tick) -> Answer
    ensures { Answered c (asked tick.0) [] c result [] }
{
    client_ask::ask_lent(&c.bytes, &c.lengths, &c.subtree, c.header, tick)
}

// Copies the value of a key to the output.
pub fn lookup(c: Client, key: &[u8], out: &mut [u8]) -> Answer
    ensures { Answered c (wanted key.now (length out.old)) out.old c result
        out.new }
{
    client_lookup::lookup_lent(&c.bytes, &c.lengths, &c.subtree, c.header, key, out)
}
