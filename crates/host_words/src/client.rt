// A client's header as words: the phase, the number, the clock, the length of the subtree, the count of rows.
ghost use Rattle.std.specs.Prelude.{refl};
ghost use Rattle.host_words.specs.Clients.{header_in, header_words};

use crate::words::Words;
use client_state::Header;
use numbers::sequence::Sequence;
use numbers::tick::Tick;

const WORDS: usize = 5;

pub type ClientHeader = [u64; WORDS];

impl Words<WORDS> for Header {
    ghost words_of = { header_words };

    ghost read_from = { header_in };

    ghost reads_back = { λ _. refl };

    fn from_words(words: &ClientHeader) -> Header {
        Header {
            phase: words[0],
            number: Sequence(words[1]),
            clock: Tick(words[2]),
            subtree_length: words[3],
            count: words[4] as usize,
        }
    }

    fn into_words(self) -> ClientHeader {
        [
            self.phase,
            self.number.0,
            self.clock.0,
            self.subtree_length,
            self.count as u64,
        ]
    }
}
