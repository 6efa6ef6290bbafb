// The server's calls on a state that a host lends: its arrays, and its header and the answer as arrays of words.
ghost use Rattle.std.specs.Prelude.{◌≡◌, length, replicate};
ghost use Rattle.chp.specs.Exports.{ServerBegan, ServerAnswered};
ghost use Rattle.host_words.specs.Servers.{hosted_server};
ghost use Rattle.row_cells.specs.Sizes.{byte_count, word_count, length_count};
ghost use Rattle.server_calls.specs.Calls.{kvset as asked, tick as told, icanhaz as requested};
ghost use Rattle.server_state.specs.Stamps.{stamp_count};

use host_words::answer::AnswerWords;
use host_words::server::ServerHeader;
use host_words::words::Words;
use host_words::{answer, words};
use numbers::sequence::Sequence;
use numbers::tick::Tick;
use row_cells::{RowBytes, RowLengths};
use server_state::{Header, RowStamps};

// A server without rows at a number and a tick. The arrays are filled with zeros.
#[unsafe(no_mangle)]
pub extern "C" fn chp_lent_server_start(
    bytes: &mut RowBytes,
    lengths: &mut RowLengths,
    stamps: &mut RowStamps,
    header: &mut ServerHeader,
    number: u64,
    tick: u64,
    answer: &mut AnswerWords,
)
    ensures begins { ServerBegan number tick
        (hosted_server bytes.new lengths.new stamps.new header.new)
        answer.new }
    ensures zeroed { (bytes.new ≡ replicate byte_count 0)
        × (lengths.new ≡ replicate (word_count length_count) 0)
        × (stamps.new ≡ replicate (word_count stamp_count) 0) }
{
    let r = server_start::start_lent(bytes, lengths, stamps, Sequence(number), Tick(tick));
    words::put_outcome(header, answer, r);
}

// KVSET at a tick.
#[unsafe(no_mangle)]
pub extern "C" fn chp_lent_server_kvset(
    bytes: &mut RowBytes,
    lengths: &mut RowLengths,
    stamps: &mut RowStamps,
    header: &mut ServerHeader,
    msg: &[u8],
    tick: u64,
    out: &mut [u8],
    answer: &mut AnswerWords,
)
    ensures { ServerAnswered
        (hosted_server bytes.old lengths.old stamps.old header.old)
        (asked msg.now tick (length out.old)) out.old
        (hosted_server bytes.new lengths.new stamps.new header.new)
        answer.new out.new }
{
    let before = Header::from_words(header);
    let r = server_kvset::kvset_lent(bytes, lengths, stamps, before, msg, Tick(tick), out);
    words::put_outcome(header, answer, r);
}

// Tick.
#[unsafe(no_mangle)]
pub extern "C" fn chp_lent_server_tick(
    bytes: &mut RowBytes,
    lengths: &mut RowLengths,
    stamps: &mut RowStamps,
    header: &mut ServerHeader,
    tick: u64,
    out: &mut [u8],
    answer: &mut AnswerWords,
)
    ensures { ServerAnswered
        (hosted_server bytes.old lengths.old stamps.old header.old)
        (told tick (length out.old)) out.old
        (hosted_server bytes.new lengths.new stamps.new header.new)
        answer.new out.new }
{
    let before = Header::from_words(header);
    let r = server_tick::tick_lent(bytes, lengths, stamps, before, Tick(tick), out);
    words::put_outcome(header, answer, r);
}

// ICANHAZ.
#[unsafe(no_mangle)]
pub extern "C" fn chp_lent_server_icanhaz<'a>(
    bytes: &'a RowBytes,
    lengths: &'a RowLengths,
    stamps: &'a RowStamps,
    header: &'a ServerHeader,
    msg: &'a [u8],
    out: &mut [u8],
    answer: &mut AnswerWords,
)
    ensures { ServerAnswered
        (hosted_server bytes.now lengths.now stamps.now header.now)
        (requested msg.now (length out.old)) out.old
        (hosted_server bytes.now lengths.now stamps.now header.now)
        answer.new out.new }
{
    let before = Header::from_words(header);
    let a = server_snapshot::icanhaz_lent(bytes, lengths, stamps, before, msg, out);
    answer::put_answer(answer, a);
}
