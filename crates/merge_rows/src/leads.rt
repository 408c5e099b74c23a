//! The leads of keys, by which most keys compare without a look at them.
ghost use Rattle.std.specs.Prelude.{◌≡◌, ◌<◌, length};
ghost use Rattle.key_base.specs.ByteOrder.{byte_order};
ghost use Rattle.merge_rows.specs.Leads.{lead_of};

use byteorder::{BigEndian, ByteOrder};
use key_base::compare;
use std::cmp::Ordering;

/// The bytes of a lead.
pub(crate) const LEAD_BYTES: usize = 8;

/// The first eight bytes of a key as one number, of which the first is the highest; zeros are after a shorter key. A key
/// with a lesser lead is before the other one; where two leads are the same, the keys may differ.
pub(crate) fn lead_of(key: &[u8]) -> u64
    ensures { result ≡ lead_of key.now }
{
    if key.len() < LEAD_BYTES {
        return short_lead(key);
    }
    BigEndian::read_u64(key)
}

// The lead of a key that is shorter than one.
fn short_lead(key: &[u8]) -> u64
    requires { length key.now < 8 }
    ensures { result ≡ lead_of key.now }
{
    let mut bytes = [0; LEAD_BYTES];
    bytes[..key.len()].copy_from_slice(key);
    BigEndian::read_u64(&bytes)
}

/// How two keys with the same lead compare: two that have no byte more by their lengths, and others byte by byte.
pub(crate) fn compare_alike(one: &[u8], other: &[u8]) -> Ordering
    requires { lead_of one.now ≡ lead_of other.now }
    ensures { result ≡ byte_order one.now other.now }
{
    if one.len() <= LEAD_BYTES && other.len() <= LEAD_BYTES {
        return one.len().cmp(&other.len());
    }
    compare(one, other)
}
