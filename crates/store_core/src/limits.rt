//! The limits of a key, of a value and of the bounds of a range.
ghost use Rattle.std.specs.Prelude.{◌≡◌, Some, None, MatchResult, OnOk};
ghost use Rattle.std.specs.Option.{option_map};
ghost use Rattle.byte_fields.specs.Spelling.{IsBytes};
ghost use Rattle.line_model.specs.Limits.{bound_limit, key_limit, limit_of, value_limit};
ghost use Rattle.line_model.specs.Requests.{Seek};
ghost use Rattle.store_core.specs.Telling.{IsHighOfBytes, are_crossed};
ghost use Rattle.store_core.specs.Answers.{IsLimitOf};

use crate::error::{Limit, StoreError};
use key_base::{MAX_BOUND_BYTES, MAX_KEY_BYTES, MAX_VALUE_BYTES, compare};

// A key has 1 to 1,024 bytes.
pub(crate) fn check_key(key: &[u8]) -> Result<(), StoreError>
    ensures { MatchResult result (λ _. key_limit key.now ≡ None) (IsLimitOf (key_limit key.now)) }
{
    if key.is_empty() || key.len() > MAX_KEY_BYTES {
        return Err(StoreError::Limit(Limit::Key(key.len() as u64)));
    }
    Ok(())
}

// A value has at most 1,048,576 bytes.
pub(crate) fn check_value(value: &[u8]) -> Result<(), StoreError>
    ensures { MatchResult result (λ _. value_limit value.now ≡ None) (IsLimitOf (value_limit value.now)) }
{
    if value.len() > MAX_VALUE_BYTES {
        return Err(StoreError::Limit(Limit::Value(value.len() as u64)));
    }
    Ok(())
}

// A bound has at most 1,024 bytes, and may be empty.
fn check_bound(bound: &[u8]) -> Result<(), StoreError>
    ensures limit { MatchResult result (λ _. bound_limit bound.now ≡ None) (IsLimitOf (bound_limit bound.now)) }
    ensures bytes { IsBytes bound.now }
{
    if bound.len() > MAX_BOUND_BYTES {
        return Err(StoreError::Limit(Limit::Key(bound.len() as u64)));
    }
    Ok(())
}

// So of both bounds, where there are two: the lower one is looked at first.
pub(crate) fn check_bounds(low: &[u8], high: Option<&[u8]>) -> Result<(), StoreError>
    ensures bytes { OnOk result (IsBytes low.now × IsHighOfBytes (option_map (λ h. h.now) high.entry)) }
    ensures limit { MatchResult result (λ _. limit_of (Seek low.now (option_map (λ h. h.now) high.entry)) ≡ None) (IsLimitOf (limit_of (Seek low.now (option_map (λ h. h.now) high.entry)))) }
{
    check_bound(low)?;
    match high {
        Some(high) => check_bound(high),
        None => Ok(()),
    }
}

// Whether the upper bound, where there is one, is below the lower one.
pub(crate) fn is_crossed(low: &[u8], high: Option<&[u8]>) -> bool
    ensures { result ≡ are_crossed low.now (option_map (λ h. h.now) high.entry) }
{
    match high {
        Some(high) => compare(high, low).is_lt(),
        None => false,
    }
}
