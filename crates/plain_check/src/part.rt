//! Sums of parts.
use crate::bytes::part;
use byte_fields::fnv1a;
use std::alloc::{AllocError, Global};

/// The sum of so many bytes from a place on.
pub(crate) fn sum_of(alloc: Global, bytes: &[u8], at: u64, length: u64) -> Result<u64, AllocError> {
    Ok(fnv1a(part(alloc, bytes, at, length)?.as_slice()))
}
