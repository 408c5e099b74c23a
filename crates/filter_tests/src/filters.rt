//! Filters of either kind, through the interface of every filter: made of keys, asked and spelled.

use super::keys::list_of_words;
use filter_api::{DecodeError, FilterFault, RangeFilter, Settings};
use filter_model::are_keys;
use key_base::{KeyList, compare};
use std::alloc::{AllocError, Global};
use std::process::Abort;
use std::test::Fail;

/// The filter of a list whose keys may not rise, with any settings.
pub(crate) fn filter_of<F: RangeFilter>(
    alloc: Global,
    keys: &KeyList,
    settings: Settings,
) -> Result<F, Fail> {
    if !are_keys(keys) {
        return Err(Fail::from("no key list"));
    }
    if settings.check().is_err() {
        return Err(Fail::from("no settings"));
    }
    let filter = F::build(alloc, keys, settings)?;
    Ok(filter)
}

/// The filter of words.
pub(crate) fn filter_of_words<F: RangeFilter>(
    alloc: Global,
    words: &[&[u8]],
    hash_bits: u8,
    real_bits: u8,
    ratio: u16,
) -> Result<F, Fail> {
    let keys = list_of_words(alloc, words)?;
    let settings = Settings {
        hash_bits,
        real_bits,
        ratio,
    };
    filter_of(alloc, &keys, settings)
}

/// The spelling of a filter.
pub(crate) fn spelled<F: RangeFilter>(alloc: Global, filter: &F) -> Result<Vec<u8>, AllocError> {
    let mut bytes = Vec::new(alloc);
    filter.encode(&mut bytes)?;
    Ok(bytes)
}

/// Whether bytes spell no filter of this kind, and break this rule first, at this place.
pub(crate) fn is_refused<F: RangeFilter>(
    alloc: Global,
    bytes: &[u8],
    place: u64,
    rule: u8,
) -> bool {
    match F::decode(alloc, bytes) {
        Err(DecodeError::Fault(fault)) => fault == FilterFault { place, rule },
        _ => false,
    }
}

/// The least string of leaf `n`, empty where there are not as many leaves.
pub(crate) fn least<F: RangeFilter>(
    alloc: Global,
    filter: &F,
    n: u32,
) -> Result<Vec<u8>, AllocError> {
    let mut out = Vec::new(alloc);
    if n < filter.leaves() {
        filter.least_of(n, &mut out)?;
    }
    Ok(out)
}

/// Whether some leaf may stand for a key from `lo` to `hi`, and how many may; none where `hi` is below `lo`.
pub(crate) fn between<F: RangeFilter>(filter: &F, lo: &[u8], hi: &[u8]) -> (bool, u32) {
    if compare(hi, lo).is_lt() {
        return (false, 0);
    }
    (filter.may_hold_range(lo, hi), filter.tally(lo, hi))
}

/// What a filter says of a range.
pub(crate) fn check_between<F: RangeFilter>(
    rt: &impl Abort,
    filter: &F,
    lo: &[u8],
    hi: &[u8],
    wanted: (bool, u32),
) {
    assert!(rt; between(filter, lo, hi) == wanted);
}

/// The least string of leaf `n`.
pub(crate) fn check_least<F: RangeFilter>(
    rt: &impl Abort,
    alloc: Global,
    filter: &F,
    n: u32,
    wanted: &[u8],
) -> Result<(), AllocError> {
    let found = least(alloc, filter, n)?;
    assert!(rt; found.as_slice() == wanted);
    Ok(())
}
