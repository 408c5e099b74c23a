//! The stub of each key.
ghost use Rattle.std.specs.Prelude.{◌≡◌, ◌==◌, ◌<◌, ◌≤◌, ◌+◌, length, min, IfOk};
ghost use Rattle.key_base.specs.Limits.{max_key_bytes};
ghost use Rattle.filter_model.specs.Keys.{IsKeyList};
ghost use Rattle.key_truncate.specs.Stubs.{shared_next, stubs_in};

use key_base::{KeyList, shared};
use std::alloc::{AllocError, Global};

/// How many bytes of a key its stub has, and whether the key ends with it.
#[derive(Clone, Copy, Debug, PartialEq, Eq)]
pub struct Stub {
    pub len: u16,
    pub ends: bool,
}

/// The stub of each key, in their order. `keys` has one key or more, strictly rising, each of 1 to 1,024 bytes.
pub fn truncate(alloc: Global, keys: &KeyList) -> Result<Vec<Stub>, AllocError>
    requires { IsKeyList keys.now }
    ensures { IfOk result (λ stubs. stubs.items ≡ stubs_in keys.now) }
{
    let mut stubs = Vec::with_capacity(alloc, keys.len())?;
    let mut before: usize = 0;
    for i in 0..keys.len() {
        let after = shared_with_next(keys, i);
        stubs.push(stub_after(keys.get(i), before.max(after)))?;
        before = after;
    }
    Ok(stubs)
}

// What the key at place `i` shares with the next one, 0 where it is the last.
fn shared_with_next(keys: &KeyList, i: usize) -> usize
    requires { i < length keys.now }
    ensures { result ≡ shared_next keys.now i }
{
    let count = keys.len();
    if i + 1 < count {
        shared(keys.get(i), keys.get(i + 1))
    } else {
        0
    }
}

// The stub of a key that shares at most `most` bytes with another.
fn stub_after(key: &[u8], most: usize) -> Stub
    requires most { most ≤ length key.now }
    requires short { length key.now ≤ max_key_bytes }
    ensures { result ≡ record { len = min (most + 1) (length key.now); ends = length key.now == most } }
{
    Stub {
        len: (most + 1).min(key.len()) as u16,
        ends: key.len() == most,
    }
}
