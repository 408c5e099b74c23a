//! How long the bytes of an entry are.
ghost use Rattle.std.specs.Prelude.{◌≡◌, ◌≤◌};
ghost use Rattle.key_base.specs.Limits.{max_key_bytes, max_value_bytes};
ghost use Rattle.entry_model.specs.Entries.{body_length};

use key_base::ENTRY_HEAD_BYTES;

/// The length in bytes of an entry's body, as logs and blocks hold it, of the lengths of its key and its value.
pub fn body_length(key: usize, value: usize) -> usize
    requires key { key ≤ max_key_bytes }
    requires value { value ≤ max_value_bytes }
    ensures { result ≡ body_length key value }
{
    ENTRY_HEAD_BYTES + key + value
}
