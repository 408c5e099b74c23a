//! The order of byte strings, and what two of them begin with alike.
ghost use Rattle.std.specs.Prelude.{◌≡◌, ◌==◌};
ghost use Rattle.std.specs.List.{common_prefix_len};
ghost use Rattle.key_base.specs.ByteOrder.{byte_order};

use std::cmp::Ordering;

/// How `a` and `b` compare, byte by byte: the first bytes that differ decide, and a proper prefix comes first.
pub fn compare(a: &[u8], b: &[u8]) -> Ordering
    ensures { result ≡ byte_order a.now b.now }
{
    a.cmp(b)
}

/// The length in bytes of the longest common prefix of `a` and `b`.
pub fn shared(a: &[u8], b: &[u8]) -> usize
    ensures { result ≡ common_prefix_len (λ x y. x == y) a.now b.now }
{
    let end = a.len().min(b.len());
    for i in 0..end {
        if a[i] != b[i] {
            return i;
        }
    }
    end
}
