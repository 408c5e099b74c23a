//! The replies to requests that change nothing.
ghost use Rattle.std.specs.Prelude.{◌≡◌, Some, length, IfOk};
ghost use Rattle.std.specs.Option.{option_map};
ghost use Rattle.map_model.specs.Slices.{seek, slice, count};
ghost use Rattle.map_model.specs.SortedMap.{get};
ghost use Rattle.state_model.specs.Bounds as bounds;
ghost use Rattle.line_model.specs.Replies as reply;
ghost use Rattle.state_model.specs.Steps.{pairs};
ghost use Rattle.state_model.specs.View.{state_map};
ghost use Rattle.plain_store.specs.Replies.{says};

use crate::bounds::{admitted, blocks_read, estimate};
use crate::reply::Reply;
use crate::state::State;
use filter_api::RangeFilter;
use std::alloc::{AllocError, Global};

fn bytes(alloc: Global, bytes: &[u8]) -> Result<Vec<u8>, AllocError>
    ensures { IfOk result (λ copy. copy.items ≡ bytes.now) }
{
    Vec::from_slice(alloc, bytes)
}

/// The value under the key.
pub(crate) fn reply_to_get(alloc: Global, state: &State, key: &[u8]) -> Result<Reply, AllocError>
    ensures { IfOk result (λ r. says r ≡ reply.got (get (state_map state.now) key.now)) }
{
    let map = state.map(alloc)?;
    match map.get(key) {
        Some(value) => Ok(Reply::Value(bytes(alloc, value)?)),
        None => Ok(Reply::Missing),
    }
}

/// The first pair from `lo` on.
pub(crate) fn reply_to_seek(
    alloc: Global,
    state: &State,
    lo: &[u8],
    hi: Option<&[u8]>,
) -> Result<Reply, AllocError>
    ensures { IfOk result (λ r. says r ≡ reply.found (seek (state_map state.now) lo.now (option_map (λ h. h.now) hi.entry))) }
{
    let map = state.map(alloc)?;
    match map.seek(lo, hi) {
        Some(pair) => {
            let key = bytes(alloc, pair.key())?;
            let value = bytes(alloc, pair.value())?;
            Ok(Reply::At { key, value })
        }
        None => Ok(Reply::Missing),
    }
}

/// The first `n` pairs from `lo` to `hi`.
pub(crate) fn reply_to_range(
    alloc: Global,
    state: &State,
    lo: &[u8],
    hi: &[u8],
    n: u32,
) -> Result<Reply, AllocError>
    ensures { IfOk result (λ r. says r ≡ pairs (slice (state_map state.now) lo.now (Some hi.now) n)) }
{
    let map = state.map(alloc)?;
    let found = map.slice(lo, Some(hi), n as usize)?;
    Ok(Reply::Pairs(found))
}

/// How many pairs lie from `lo` to `hi`.
pub(crate) fn reply_to_count(
    alloc: Global,
    state: &State,
    lo: &[u8],
    hi: &[u8],
) -> Result<Reply, AllocError>
    ensures { IfOk result (λ r. says r ≡ reply.Counted (count (state_map state.now) lo.now (Some hi.now))) }
{
    let map = state.map(alloc)?;
    Ok(Reply::Counted(map.count(lo, Some(hi)) as u64))
}

/// The tables, those that admit the key, and those of which a block is read for it.
pub(crate) fn reply_to_explain<F: RangeFilter>(
    alloc: Global,
    state: &State,
    key: &[u8],
) -> Result<Reply, AllocError>
    ensures { IfOk result (λ r. says r ≡ reply.Explained (length state.now.tables) (bounds.admitted state.now key.now) (bounds.blocks_read state.now key.now)) }
{
    let tables = state.tables.len() as u64;
    let admitted = admitted::<F>(alloc, state, key)?;
    let blocks = blocks_read::<F>(alloc, state, key)?;
    Ok(Reply::Explained {
        tables,
        admitted,
        blocks,
    })
}

/// About how many keys lie from `lo` to `hi`.
pub(crate) fn reply_to_estimate<F: RangeFilter>(
    alloc: Global,
    state: &State,
    lo: &[u8],
    hi: &[u8],
) -> Result<Reply, AllocError>
    ensures { IfOk result (λ r. says r ≡ reply.About (bounds.estimate state.now lo.now hi.now)) }
{
    let about = estimate::<F>(alloc, state, lo, hi)?;
    Ok(Reply::About(about))
}
