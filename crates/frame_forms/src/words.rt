// The words of the protocol. A word is a whole frame, compared byte by byte. One test for each: its name says the word.
ghost use Rattle.std.specs.Prelude.{◌≡◌};
ghost use Rattle.base.specs.Bytes.{same};
ghost use Rattle.frame_forms.specs.Words.{word_hugz, word_icanhaz, word_kthxbai};

use base::bytes;

pub fn is_icanhaz(s: &[u8]) -> bool
    ensures { result ≡ same word_icanhaz s.now }
{
    bytes::same_bytes(b"ICANHAZ?", s)
}

pub fn is_kthxbai(s: &[u8]) -> bool
    ensures { result ≡ same word_kthxbai s.now }
{
    bytes::same_bytes(b"KTHXBAI", s)
}

pub fn is_hugz(s: &[u8]) -> bool
    ensures { result ≡ same word_hugz s.now }
{
    bytes::same_bytes(b"HUGZ", s)
}
