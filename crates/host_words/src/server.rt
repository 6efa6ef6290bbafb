// A server's header as words: the number, the last tick, the last publication, the count of rows.
ghost use Rattle.std.specs.Prelude.{refl};
ghost use Rattle.host_words.specs.Servers.{header_in, header_words};

use crate::words::Words;
use numbers::sequence::Sequence;
use numbers::tick::Tick;
use server_state::Header;

const WORDS: usize = 4;

pub type ServerHeader = [u64; WORDS];

impl Words<WORDS> for Header {
    ghost words_of = { header_words };

    ghost read_from = { header_in };

    ghost reads_back = { λ _. refl };

    fn from_words(words: &ServerHeader) -> Header {
        Header {
            number: Sequence(words[0]),
            last_tick: Tick(words[1]),
            last_published: Tick(words[2]),
            count: words[3] as usize,
        }
    }

    fn into_words(self) -> ServerHeader {
        [
            self.number.0,
            self.last_tick.0,
            self.last_published.0,
            self.count as u64,
        ]
    }
}
