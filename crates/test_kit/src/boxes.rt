//! Values in boxes.
use std::alloc::{AllocError, Global};

/// The value in a box. A function that has a value of many parts for a local costs the check ten times what one does that
/// has a box of it. Fails where there is no memory.
pub fn boxed<T: Drop>(alloc: Global, value: T) -> Result<Box<T>, AllocError> {
    Ok(Box::new(alloc, value)?)
}
