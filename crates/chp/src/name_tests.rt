// Tests of names, for hosts: 1 where a test holds, and else 0.
ghost use Rattle.std.specs.Prelude.{cond, ◌≡◌};
ghost use Rattle.keys.specs.Keys.{is_key, is_subtree, under};

// Whether some bytes are a key.
#[unsafe(no_mangle)]
pub extern "C" fn chp_bytes_is_key(bytes: &[u8]) -> u64
    ensures { result ≡ cond (is_key bytes.now) 1 0 }
{
    keys::is_key(bytes) as u64
}

// Whether some bytes are a subtree.
#[unsafe(no_mangle)]
pub extern "C" fn chp_bytes_is_subtree(bytes: &[u8]) -> u64
    ensures { result ≡ cond (is_subtree bytes.now) 1 0 }
{
    keys::is_subtree(bytes) as u64
}

// Whether a key is under a subtree.
#[unsafe(no_mangle)]
pub extern "C" fn chp_bytes_is_under(subtree: &[u8], key: &[u8]) -> u64
    ensures { result ≡ cond (under subtree.now key.now) 1 0 }
{
    keys::is_under(subtree, key) as u64
}
