//! The waking key.
ghost use Rattle.std.specs.Prelude.{◌≡◌, IfOk};
ghost use Rattle.std.specs.Option.{option_map};
ghost use Rattle.waking_keys.specs.Waking.{greater, waking_key};

use filter_api::RangeFilter;
use key_base::compare;
use std::alloc::{AllocError, Global};

/// The least key that a table may have from a bound on, as its filter, its least and its greatest key say it; `None` where
/// it has none. A key from the bound on is never below it.
pub fn waking_key<F: RangeFilter>(
    alloc: Global,
    filter: &F,
    least: &[u8],
    greatest: &[u8],
    low: &[u8],
) -> Result<Option<Vec<u8>>, AllocError>
    ensures { IfOk result (λ key. option_map (λ k. k.items) key ≡ waking_key (F.real_bits filter.now) (F.leaf_list filter.now) least.now greatest.now low.now) }
{
    if compare(greatest, low).is_lt() {
        return Ok(None);
    }
    if !compare(least, low).is_lt() {
        return Ok(Some(Vec::from_slice(alloc, least)?));
    }
    let Some(leaf) = filter.seek(low) else {
        return Ok(None);
    };
    let mut begins = Vec::new(alloc);
    filter.least_of(leaf, &mut begins)?;
    Ok(Some(not_below(alloc, least, begins)?))
}

// The greater of two keys.
fn not_below(alloc: Global, least: &[u8], key: Vec<u8>) -> Result<Vec<u8>, AllocError>
    ensures { IfOk result (λ greater_one. greater_one.items ≡ greater least.now key.items) }
{
    if compare(least, &key).is_lt() {
        return Ok(key);
    }
    Vec::from_slice(alloc, least)
}
