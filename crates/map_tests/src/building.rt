//! Builders, and what they write.

use fst_map::{AddError, FinishError, FstBuilder};
use std::alloc::Global;
use test_kit::boxed;

/// A builder of these pairs.
pub(crate) fn builder_of(
    alloc: Global,
    pairs: &[(&[u8], &[u8])],
) -> Result<Box<FstBuilder>, AddError> {
    let mut builder = boxed(alloc, FstBuilder::new(alloc))?;
    for (key, value) in pairs {
        builder.add(*key, *value)?;
    }
    Ok(builder)
}

/// What a builder writes by a ratio.
pub(crate) fn finished(
    alloc: Global,
    builder: &FstBuilder,
    ratio: u16,
) -> Result<Vec<u8>, FinishError> {
    let mut out = Vec::new(alloc);
    builder.finish(ratio, &mut out)?;
    Ok(out)
}

/// The key of a number, its highest byte first.
pub(crate) fn number_key(number: u32) -> [u8; 4] {
    number.to_be_bytes()
}
