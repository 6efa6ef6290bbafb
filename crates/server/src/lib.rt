// The server's entries on a state by value: what each gives back is the state after the call, with the answer. The work
// is done by the entries on lent arrays; callers in Rattle that keep a state by value call these.
#![tactic(auto)]

ghost use Rattle.std.specs.Prelude.{length};
ghost use Rattle.server_calls.specs.Calls.{kvset as asked, tick as told, icanhaz as requested};
ghost use Rattle.server_calls.specs.Promises.{Began, Answered};

use answers::answer::Answer;
use answers::outcome;
use numbers::sequence::Sequence;
use numbers::tick::Tick;
use row_cells::{CELL, LENGTHS, MAX_ROWS};
use server_calls::Outcome;
use server_state::{STAMPS, Server};

// The state after a call, and what the call answers.
pub type Reply = outcome::Reply<Server>;

// A server without rows at a number and a tick. Refused, it is at number 0 and tick 0.
pub fn start(number: Sequence, tick: Tick) -> Reply
    ensures { Began number.0 tick.0 result.state result.answer }
{
    let mut bytes = [0; MAX_ROWS * CELL];
    let mut lengths = [0; MAX_ROWS * LENGTHS];
    let mut stamps = [0; MAX_ROWS * STAMPS];
    let Outcome { header, answer } = server_start::start_lent(
        &mut bytes,
        &mut lengths,
        &mut stamps,
        number,
        tick,
    );
    let state = Server {
        bytes,
        lengths,
        stamps,
        header,
    };
    Reply { state, answer }
}

// KVSET: a message of five frames, whose update is made at a tick and published in the output.
pub fn kvset(mut s: Server, msg: &[u8], tick: Tick, out: &mut [u8]) -> Reply
    ensures { Answered s (asked msg.now tick.0 (length out.old)) out.old
        result.state result.answer out.new }
{
    let Outcome { header, answer } = server_kvset::kvset_lent(
        &mut s.bytes,
        &mut s.lengths,
        &mut s.stamps,
        s.header,
        msg,
        tick,
        out,
    );
    let state = Server { header, ..s };
    Reply { state, answer }
}

// Tick: the time is told, and what it brings about is published in the output.
pub fn tick(mut s: Server, tick: Tick, out: &mut [u8]) -> Reply
    ensures { Answered s (told tick.0 (length out.old)) out.old
        result.state result.answer out.new }
{
    let Outcome { header, answer } = server_tick::tick_lent(
        &mut s.bytes,
        &mut s.lengths,
        &mut s.stamps,
        s.header,
        tick,
        out,
    );
    let state = Server { header, ..s };
    Reply { state, answer }
}

// ICANHAZ: a message of three frames, an identity, the word and a subtree, whose snapshot is written to the output. The
// server does not change.
pub fn icanhaz(s: Server, msg: &[u8], out: &mut [u8]) -> Answer
    ensures { Answered s (requested msg.now (length out.old)) out.old
        s result out.new }
{
    server_snapshot::icanhaz_lent(&s.bytes, &s.lengths, &s.stamps, s.header, msg, out)
}
