// Sequences: the numbers of updates.
ghost use Rattle.std.specs.Prelude.{◌≡◌, ltb, eqb};
ghost use Rattle.numbers.specs.Sequences.{numbered_of, is_kept, following_of};

use base::octets;

#[repr(C)]
#[derive(Clone, Copy, PartialEq, Eq, PartialOrd, Ord)]
pub struct Sequence(pub u64);

pub const MAX_SEQUENCE: u64 = 9223372036854775807;

// The number in a sequence frame: eight octets are one, and nothing else is.
pub fn read_sequence(body: &[u8]) -> Option<Sequence>
    ensures { result ≡ numbered_of body.now }
{
    let n = octets::read_eight(body)?;
    Some(Sequence(n))
}

// Whether a number is one that a server or a client may keep.
pub fn is_kept(n: Sequence) -> bool
    ensures { result ≡ is_kept n }
{
    n.0 <= MAX_SEQUENCE
}

// Whether a number is 0.
pub fn is_zero(n: Sequence) -> bool
    ensures { result ≡ eqb n.0 0 }
{
    n == Sequence(0)
}

// Whether a number is above another.
pub fn is_above(n: Sequence, other: Sequence) -> bool
    ensures { result ≡ ltb other.0 n.0 }
{
    n > other
}

// The number of the next update, if there is one.
pub fn next_number(n: Sequence) -> Option<Sequence>
    ensures { result ≡ following_of n.0 }
{
    if n.0 < MAX_SEQUENCE {
        Some(Sequence(n.0 + 1))
    } else {
        None
    }
}
