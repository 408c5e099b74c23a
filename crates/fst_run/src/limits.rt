//! The limits of keys and bounds.
ghost use Rattle.std.specs.Prelude.{◌≡◌, option_map};
ghost use Rattle.std.specs.Option.{option_or};
ghost use Rattle.line_model.specs.Limits.{bound_limit, key_limit, limit_of};
ghost use Rattle.line_model.specs.Replies.{LongKey};
ghost use Rattle.line_model.specs.Requests.{Seek};

use key_base::{MAX_BOUND_BYTES, MAX_KEY_BYTES};

/// How many bytes a key has that has none or too many.
pub(crate) fn key_limit(key: &[u8]) -> Option<u64>
    ensures { option_map (λ size. LongKey size) result ≡ key_limit key.now }
{
    if key.is_empty() || key.len() > MAX_KEY_BYTES {
        Some(key.len() as u64)
    } else {
        None
    }
}

// How many bytes a bound has that has too many.
fn bound_limit(bound: &[u8]) -> Option<u64>
    ensures { option_map (λ size. LongKey size) result ≡ bound_limit bound.now }
{
    if bound.len() > MAX_BOUND_BYTES {
        Some(bound.len() as u64)
    } else {
        None
    }
}

/// The same of the first of two bounds that has too many.
pub(crate) fn bounds_limit(lo: &[u8], hi: &[u8]) -> Option<u64>
    ensures { option_map (λ size. LongKey size) result ≡ option_or (bound_limit lo.now) (bound_limit hi.now) }
{
    match bound_limit(lo) {
        Some(bytes) => Some(bytes),
        None => bound_limit(hi),
    }
}

/// The same of the bounds of a seek, which may have no upper one.
pub(crate) fn seek_limit(lo: &[u8], hi: Option<&[u8]>) -> Option<u64>
    ensures { option_map (λ size. LongKey size) result ≡ limit_of (Seek lo.now (option_map (λ bound. bound.now) hi.entry)) }
{
    match hi {
        Some(hi) => bounds_limit(lo, hi),
        None => bound_limit(lo),
    }
}
