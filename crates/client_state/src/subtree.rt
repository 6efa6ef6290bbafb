// The subtree of a client, as a part of its array.
ghost use Rattle.std.specs.Prelude.{◌≡◌, take};

use crate::SubtreeBytes;
use base::bytes;

// The first bytes of the array, as many as the length says, or all of them.
pub fn subtree_in(all: &SubtreeBytes, length: u64) -> &[u8]
    ensures { result.now ≡ take length all.now }
{
    bytes::front(all, length as usize)
}
