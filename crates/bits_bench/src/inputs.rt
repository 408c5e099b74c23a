//! Random bytes and numbers from a seed.
ghost use Rattle.std.specs.Prelude.{◌≡◌, length, IfOk};

use bench_kit::Numbers;
use std::alloc::{AllocError, Global};

/// As many random bytes.
pub fn random_bytes(
    alloc: Global,
    count: usize,
    numbers: &mut Numbers,
) -> Result<Vec<u8>, AllocError>
    ensures { IfOk result (λ bytes. length bytes.items ≡ count) }
{
    let mut bytes = vec![in alloc; 0u8; count]?;
    for byte in bytes.iter_mut() {
        *byte = (numbers.draw() >> 56) as u8;
    }
    Ok(bytes)
}

/// As many random numbers from 0 to `last`.
pub fn random_numbers(
    alloc: Global,
    count: usize,
    last: u64,
    numbers: &mut Numbers,
) -> Result<Vec<u64>, AllocError> {
    let mut drawn = Vec::with_capacity(alloc, count)?;
    for _ in 0..count {
        drawn.push(numbers.draw_to(last))?;
    }
    Ok(drawn)
}
