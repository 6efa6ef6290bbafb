// What a host tests its declarations by: the library's version, and marks in every field.
ghost use Rattle.std.specs.Prelude.{◌≡◌};
ghost use Rattle.chp.specs.Layout.{version, Marked};
ghost use Rattle.row_cells.specs.Sizes.{max_rows};

use base::output;
use client_state::SubtreeBytes;
use frame_forms::lengths::VALUE_ROOM;
use host_words::answer::AnswerWords;
use host_words::client::ClientHeader;
use host_words::server::ServerHeader;
use keys::KEY_ROOM;
use row_cells::{CELL, LENGTHS, MAX_ROWS, VALUE_AT};
use server_state::STAMPS;

// The version: a million times the major, a thousand times the minor, and the patch.
const VERSION: u64 = 8000;

// The version that the library was built as.
#[unsafe(no_mangle)]
pub extern "C" fn chp_archive_version() -> u64
    ensures { result ≡ version }
{
    VERSION
}

// Puts a mark of its own into every field of a row, of the headers and of an answer: the bytes and lengths of a row,
// the stamps that a server has besides, the subtree of a client, the two headers and the answer. It gives how many rows
// a state has.
#[unsafe(no_mangle)]
pub extern "C" fn chp_layout_marks(
    cell: &mut [u8; CELL],
    lengths: &mut [u64; LENGTHS],
    stamps: &mut [u64; STAMPS],
    subtree: &mut SubtreeBytes,
    server: &mut ServerHeader,
    client: &mut ClientHeader,
    answer: &mut AnswerWords,
) -> u64
    ensures rows { result ≡ max_rows }
    ensures marks { Marked cell.new lengths.new stamps.new subtree.new
        server.new client.new answer.new }
{
    *cell = [1; CELL];
    output::put_bytes(cell, VALUE_AT, &[2; VALUE_ROOM]);
    *lengths = [3, 4];
    *stamps = [5, 6];
    *server = [7, 8, 9, 10];
    *subtree = [11; KEY_ROOM];
    *client = [12, 13, 14, 15, 16];
    *answer = [17, 18, 19, 20];
    MAX_ROWS as u64
}
