//! The test whether a filter can be built from a list of keys.
ghost use Rattle.std.specs.Prelude.{◌≡◌, ◌<◌, ◌-◌, true, [], length, slice_index_or, IsTrue, ◌↔◌};
ghost use Rattle.filter_model.specs.Keys.{IsKey, IsKeyList};
ghost use Rattle.filter_model.specs.Strings.{is_before};

use key_base::{KeyList, MAX_KEY_BYTES, compare};

/// Whether `keys` is a list from which a filter can be built: one key or more, fewer than 2^32, strictly rising, each
/// of 1 to 1,024 bytes. One pass.
pub fn are_keys(keys: &KeyList) -> bool
    ensures { IsTrue result ↔ IsKeyList keys.now }
{
    if keys.is_empty() || keys.len() >= 1 << 32 {
        return false;
    }
    for i in 0..keys.len() {
        if !is_key(keys.get(i)) || !rises(keys, i) {
            return false;
        }
    }
    true
}

fn is_key(key: &[u8]) -> bool
    ensures { IsTrue result ↔ IsKey key.now }
{
    !key.is_empty() && key.len() <= MAX_KEY_BYTES
}

// Whether the key at place `i` is above the one before it, where there is one.
fn rises(keys: &KeyList, i: usize) -> bool
    requires { i < length keys.now }
    ensures { IsTrue result ↔ (0 < i → is_before (slice_index_or keys.now (i - 1) []) (slice_index_or keys.now i []) ≡ true) }
{
    i == 0 || compare(keys.get(i - 1), keys.get(i)).is_lt()
}
