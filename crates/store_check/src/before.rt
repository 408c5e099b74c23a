//! What is known of the key before a block.
ghost use Rattle.std.specs.Prelude.{◌≡◌, bytes_eq};
ghost use Rattle.image_model.specs.Findings.{may_follow};

use key_base::compare;

/// What is known of the key before a block.
#[derive(Drop)]
pub(crate) enum Before {
    /// There is none, and the block has to begin with this key, the least of its table.
    AtLeast(Vec<u8>),
    /// Nothing: the block before is damaged.
    Unknown,
    /// It is this one.
    After(Vec<u8>),
}

impl Before {
    ghost use Rattle.store_check.specs.Befores.{before_of};

    /// Whether a block may begin with a key.
    pub(crate) fn lets(&self, key: &[u8]) -> bool
        ensures { result ≡ may_follow (before_of self.now) key.now }
    {
        match self {
            Before::AtLeast(least) => are_same(least.as_slice(), key),
            Before::Unknown => true,
            Before::After(last) => compare(last.as_slice(), key).is_lt(),
        }
    }
}

/// Whether the two are one key.
pub(crate) fn are_same(one: &[u8], other: &[u8]) -> bool
    ensures { result ≡ bytes_eq one.now other.now }
{
    one == other
}
