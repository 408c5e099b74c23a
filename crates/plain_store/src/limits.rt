//! The limits that a request may break.
ghost use Rattle.std.specs.Prelude.{◌≡◌, Option, Some, None};
ghost use Rattle.std.specs.Option.{option_map, option_or};
ghost use Rattle.line_model.specs.Limits as model;
ghost use Rattle.line_model.specs.Requests.{Seek};
ghost use Rattle.line_model.specs.Limits.{limit_of};
ghost use Rattle.plain_store.specs.Replies.{says};
ghost use Rattle.store_commands.specs.Asks.{asked};

use crate::reply::Reply;
use key_base::{MAX_BOUND_BYTES, MAX_KEY_BYTES, MAX_VALUE_BYTES};
use store_commands::Request;

fn key_limit(key: &[u8]) -> Option<Reply>
    ensures { option_map says result ≡ model.key_limit key.now }
{
    if key.is_empty() || key.len() > MAX_KEY_BYTES {
        Some(Reply::LongKey(key.len() as u64))
    } else {
        None
    }
}

fn value_limit(value: &[u8]) -> Option<Reply>
    ensures { option_map says result ≡ model.value_limit value.now }
{
    if value.len() > MAX_VALUE_BYTES {
        Some(Reply::LongValue(value.len() as u64))
    } else {
        None
    }
}

fn bound_limit(bound: &[u8]) -> Option<Reply>
    ensures { option_map says result ≡ model.bound_limit bound.now }
{
    if bound.len() > MAX_BOUND_BYTES {
        Some(Reply::LongKey(bound.len() as u64))
    } else {
        None
    }
}

fn pair_limit(key: &[u8], value: &[u8]) -> Option<Reply>
    ensures { option_map says result ≡ option_or (model.key_limit key.now) (model.value_limit value.now) }
{
    match key_limit(key) {
        Some(reply) => Some(reply),
        None => value_limit(value),
    }
}

fn bounds_limit(lo: &[u8], hi: &[u8]) -> Option<Reply>
    ensures { option_map says result ≡ option_or (model.bound_limit lo.now) (model.bound_limit hi.now) }
{
    match bound_limit(lo) {
        Some(reply) => Some(reply),
        None => bound_limit(hi),
    }
}

fn seek_limit(lo: &[u8], hi: Option<&[u8]>) -> Option<Reply>
    ensures { option_map says result ≡ limit_of (Seek lo.now (option_map (λ h. h.now) hi.entry)) }
{
    match hi {
        Some(hi) => bounds_limit(lo, hi),
        None => bound_limit(lo),
    }
}

/// The limit that a request breaks, the first where it breaks two.
pub(crate) fn limit_of(request: Request<'_>) -> Option<Reply>
    ensures { option_map says result ≡ limit_of (asked request.entry) }
{
    match request {
        Request::Put { key, value } => pair_limit(key, value),
        Request::Del { key } => key_limit(key),
        Request::Get { key } => key_limit(key),
        Request::Seek { lo, hi } => seek_limit(lo, hi),
        Request::Range { lo, hi, .. } => bounds_limit(lo, hi),
        Request::Count { lo, hi } => bounds_limit(lo, hi),
        Request::Estimate { lo, hi } => bounds_limit(lo, hi),
        Request::Explain { key } => key_limit(key),
        Request::Flush => None,
        Request::Compact => None,
        Request::Quit => None,
    }
}
