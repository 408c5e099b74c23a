//! Allocations that are refused from outside, one in each run of a test.
use std::alloc::Global;

/// One allocation more, the last of a test: where it is refused, each of those before it was, each in a run of its own.
pub fn is_not_the_last(alloc: Global) -> bool {
    Vec::from_slice(alloc, b"last").is_ok()
}
