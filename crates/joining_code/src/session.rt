// Sessions: one end that is started and then called, each entry once. What the entries promise makes the calls a run.
ghost use Rattle.joining.specs.Book.ServerStart.{begin};
ghost use Rattle.joining.specs.Ends.ClientStart.{wait};
ghost use Rattle.joining_code.specs.Sessions.{Served, Followed};

use client_state::Client;
use numbers::sequence::Sequence;
use numbers::tick::Tick;
use server::Reply;

// A server: an update, a tick, and a snapshot.
pub fn serve<'a>(
    number: Sequence,
    began: Tick,
    msg: &'a [u8],
    request: &'a [u8],
    at: Tick,
    update: &'a mut [u8],
    expiry: &'a mut [u8],
    snapshot: &'a mut [u8],
) -> Reply
    ensures { Served (begin number.0 began.0) msg.now request.now at.0
        update.old expiry.old snapshot.old
        result.state result.answer update.new expiry.new snapshot.new }
{
    let fresh = server::start(number, began);
    let set = server::kvset(fresh.state, msg, at, update);
    let timed = server::tick(set.state, at, expiry);
    let answer = server::icanhaz(timed.state, request, snapshot);
    Reply { answer, ..timed }
}

// A client: the request, a message of the snapshot, one that was published, an update, whether the server is gone, and
// what a key has.
pub fn follow<'a>(
    subtree: &'a [u8],
    began: Tick,
    row: &'a [u8],
    news: &'a [u8],
    at: Tick,
    key: &'a [u8],
    uuid: &'a [u8],
    properties: &'a [u8],
    value: &'a [u8],
    request: &'a mut [u8],
    update: &'a mut [u8],
    found: &'a mut [u8],
) -> Client
    ensures { Followed (wait subtree.now began.0) row.now news.now at.0
        key.now uuid.now properties.now value.now
        request.old update.old found.old
        result request.new update.new found.new }
{
    let fresh = client::start(subtree, began);
    client::write_icanhaz(fresh.state, request);
    let synced = client::snapshot(fresh.state, row);
    let told = client::subscriber(synced.state, news, at);
    client::write_kvset(told.state, key, uuid, properties, value, update);
    client::ask(told.state, at);
    client::lookup(told.state, key, found);
    told.state
}
