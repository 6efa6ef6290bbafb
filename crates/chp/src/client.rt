// The client's calls on a state that a host lends: its arrays, and its header and the answer as arrays of words.
ghost use Rattle.std.specs.Prelude.{[], ◌≡◌, length, replicate};
ghost use Rattle.base.specs.Output.{put};
ghost use Rattle.chp.specs.Exports.{ClientBegan, ClientAnswered};
ghost use Rattle.client_calls.specs.Calls.{snapshot as synced, subscriber as heard, ask as asked, lookup as wanted};
ghost use Rattle.client_calls.specs.Calls.{write_icanhaz, write_kvset};
ghost use Rattle.client_state.specs.Views.{subtree_of};
ghost use Rattle.host_words.specs.Clients.{hosted_client};
ghost use Rattle.keys.specs.Keys.{key_room};
ghost use Rattle.row_cells.specs.Sizes.{byte_count, word_count, length_count};

use client_state::{Header, SubtreeBytes};
use host_words::answer::AnswerWords;
use host_words::client::ClientHeader;
use host_words::words::Words;
use host_words::{answer, words};
use numbers::tick::Tick;
use row_cells::{RowBytes, RowLengths};

// A client that waits for the snapshot of a subtree, from a tick on. The arrays of rows are filled with zeros, and so is
// what stands behind the subtree in its array.
#[unsafe(no_mangle)]
pub extern "C" fn chp_lent_client_start(
    bytes: &mut RowBytes,
    lengths: &mut RowLengths,
    subtree: &mut SubtreeBytes,
    header: &mut ClientHeader,
    wanted: &[u8],
    tick: u64,
    answer: &mut AnswerWords,
)
    ensures begins { ClientBegan wanted.now tick
        (hosted_client bytes.new lengths.new subtree.new header.new)
        answer.new }
    ensures zeroed { (bytes.new ≡ replicate byte_count 0)
        × (lengths.new ≡ replicate (word_count length_count) 0) }
    ensures padded { subtree.new ≡ put (replicate key_room 0) 0
        (subtree_of (hosted_client bytes.new lengths.new subtree.new header.new)) }
{
    let r = client_start::start_lent(bytes, lengths, subtree, wanted, Tick(tick));
    words::put_outcome(header, answer, r);
}

// The snapshot entry.
#[unsafe(no_mangle)]
pub extern "C" fn chp_lent_client_snapshot<'a>(
    bytes: &mut RowBytes,
    lengths: &mut RowLengths,
    subtree: &'a SubtreeBytes,
    header: &mut ClientHeader,
    msg: &'a [u8],
    answer: &mut AnswerWords,
)
    ensures { ClientAnswered
        (hosted_client bytes.old lengths.old subtree.now header.old)
        (synced msg.now) []
        (hosted_client bytes.new lengths.new subtree.now header.new)
        answer.new [] }
{
    let before = Header::from_words(header);
    let r = client_snapshot::snapshot_lent(bytes, lengths, subtree, before, msg);
    words::put_outcome(header, answer, r);
}

// The subscriber entry.
#[unsafe(no_mangle)]
pub extern "C" fn chp_lent_client_subscriber<'a>(
    bytes: &mut RowBytes,
    lengths: &mut RowLengths,
    subtree: &'a SubtreeBytes,
    header: &mut ClientHeader,
    msg: &'a [u8],
    tick: u64,
    answer: &mut AnswerWords,
)
    ensures { ClientAnswered
        (hosted_client bytes.old lengths.old subtree.now header.old)
        (heard msg.now tick) []
        (hosted_client bytes.new lengths.new subtree.now header.new)
        answer.new [] }
{
    let before = Header::from_words(header);
    let r = client_subscriber::subscriber_lent(bytes, lengths, subtree, before, msg, Tick(tick));
    words::put_outcome(header, answer, r);
}

// The writer of ICANHAZ.
#[unsafe(no_mangle)]
pub extern "C" fn chp_lent_client_write_icanhaz<'a>(
    bytes: &'a RowBytes,
    lengths: &'a RowLengths,
    subtree: &'a SubtreeBytes,
    header: &'a ClientHeader,
    out: &mut [u8],
    answer: &mut AnswerWords,
)
    ensures { ClientAnswered
        (hosted_client bytes.now lengths.now subtree.now header.now)
        (write_icanhaz (length out.old)) out.old
        (hosted_client bytes.now lengths.now subtree.now header.now)
        answer.new out.new }
{
    let before = Header::from_words(header);
    let a = client_writers::write_icanhaz_lent(bytes, lengths, subtree, before, out);
    answer::put_answer(answer, a);
}

// The writer of KVSET.
#[unsafe(no_mangle)]
pub extern "C" fn chp_lent_client_write_kvset<'a>(
    bytes: &'a RowBytes,
    lengths: &'a RowLengths,
    subtree: &'a SubtreeBytes,
    header: &'a ClientHeader,
    key: &'a [u8],
    uuid: &'a [u8],
    properties: &'a [u8],
    value: &'a [u8],
    out: &mut [u8],
    answer: &mut AnswerWords,
)
    ensures { ClientAnswered
        (hosted_client bytes.now lengths.now subtree.now header.now)
        (write_kvset key.now uuid.now properties.now value.now
        (length out.old)) out.old
        (hosted_client bytes.now lengths.now subtree.now header.now)
        answer.new out.new }
{
    let before = Header::from_words(header);
    let a = client_writers::write_kvset_lent(
        bytes, lengths, subtree, before, key, uuid, properties, value, out,
    );
    answer::put_answer(answer, a);
}

// Asking whether the server is gone.
#[unsafe(no_mangle)]
pub extern "C" fn chp_lent_client_ask<'a>(
    bytes: &'a RowBytes,
    lengths: &'a RowLengths,
    subtree: &'a SubtreeBytes,
    header: &'a ClientHeader,
    tick: u64,
    answer: &mut AnswerWords,
)
    ensures { ClientAnswered
        (hosted_client bytes.now lengths.now subtree.now header.now)
        (asked tick) []
        (hosted_client bytes.now lengths.now subtree.now header.now)
        answer.new [] }
{
    let before = Header::from_words(header);
    let a = client_ask::ask_lent(bytes, lengths, subtree, before, Tick(tick));
    answer::put_answer(answer, a);
}

// Lookup.
#[unsafe(no_mangle)]
pub extern "C" fn chp_lent_client_lookup<'a>(
    bytes: &'a RowBytes,
    lengths: &'a RowLengths,
    subtree: &'a SubtreeBytes,
    header: &'a ClientHeader,
    key: &'a [u8],
    out: &mut [u8],
    answer: &mut AnswerWords,
)
    ensures { ClientAnswered
        (hosted_client bytes.now lengths.now subtree.now header.now)
        (wanted key.now (length out.old)) out.old
        (hosted_client bytes.now lengths.now subtree.now header.now)
        answer.new out.new }
{
    let before = Header::from_words(header);
    let a = client_lookup::lookup_lent(bytes, lengths, subtree, before, key, out);
    answer::put_answer(answer, a);
}
