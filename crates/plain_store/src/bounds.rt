//! How many blocks a get and a closed seek may read, and what `estimate` and `explain` tell.
ghost use Rattle.std.specs.Prelude.{◌≡◌, ◌&&◌, false, suc, filter, count_by, sum_by, Some, IfOk};
ghost use Rattle.std.specs.Option.{option_map, option_map_or};
ghost use Rattle.filter_model.specs.Strings.{is_before};
ghost use Rattle.filter_model.specs.Answers.{tally};
ghost use Rattle.map_model.specs.Slices.{is_between, seek};
ghost use Rattle.entry_model.specs.Newest.{lookup};
ghost use Rattle.state_model.specs.Bounds as model;
ghost use Rattle.state_model.specs.View.{state_map};

use crate::filters::filter_of;
use crate::keys::{is_before, is_between};
use crate::state::State;
use crate::table::Table;
use entry_list::{Entry, lookup};
use filter_api::RangeFilter;
use plain_map::Pair;
use std::alloc::{AllocError, Global};

// Whether the table's filter admits the key.
fn admits<F: RangeFilter>(alloc: Global, key: &[u8], table: &Table) -> Result<bool, AllocError>
    ensures { IfOk result (λ yes. yes ≡ model.admits key.now table.now) }
{
    let filter: F = filter_of(alloc, table.settings, table.entries.as_slice())?;
    Ok(filter.may_hold(key))
}

// Whether it admits the keys from `lo` to `hi`.
fn admits_range<F: RangeFilter>(
    alloc: Global,
    lo: &[u8],
    hi: &[u8],
    table: &Table,
) -> Result<bool, AllocError>
    requires { is_before hi.now lo.now ≡ false }
    ensures { IfOk result (λ yes. yes ≡ model.admits_range lo.now hi.now table.now) }
{
    let filter: F = filter_of(alloc, table.settings, table.entries.as_slice())?;
    Ok(filter.may_hold_range(lo, hi))
}

// How many keys from `lo` to `hi` it counts.
fn tally_of<F: RangeFilter>(
    alloc: Global,
    lo: &[u8],
    hi: &[u8],
    table: &Table,
) -> Result<u64, AllocError>
    requires { is_before hi.now lo.now ≡ false }
    ensures { IfOk result (λ n. n ≡ tally table.now.settings.real_bits (model.table_leaves table.now) lo.now hi.now) }
{
    let filter: F = filter_of(alloc, table.settings, table.entries.as_slice())?;
    Ok(u64::from(filter.tally(lo, hi)))
}

// Whether the key is not below the table's least key and not above its greatest.
fn encloses(key: &[u8], table: &Table) -> bool
    ensures { result ≡ model.encloses key.now table.now }
{
    !is_before(key, table.least_key()) && !is_before(table.greatest_key(), key)
}

// Whether a block of the table is read for the key.
fn is_searched<F: RangeFilter>(alloc: Global, key: &[u8], table: &Table) -> Result<bool, AllocError>
    ensures { IfOk result (λ yes. yes ≡ model.is_searched key.now table.now) }
{
    Ok(admits::<F>(alloc, key, table)? && encloses(key, table))
}

// Nothing more, where some entry has the key.
fn unless_found(entries: &[Entry], key: &[u8], more: u64) -> u64
    ensures { result ≡ model.unless_found (lookup entries.now key.now) more }
{
    match lookup(entries, key) {
        Some(_) => 0,
        None => more,
    }
}

// The tables that are searched for the key, up to the first that has it.
fn searched<F: RangeFilter>(alloc: Global, key: &[u8], tables: &[Table]) -> Result<u64, AllocError>
    ensures { IfOk result (λ n. n ≡ model.searched key.now tables.now) }
{
    let Some((table, older)) = tables.split_first() else {
        return Ok(0);
    };
    let more = searched::<F>(alloc, key, older)?;
    if !is_searched::<F>(alloc, key, table)? {
        return Ok(more);
    }
    unless_found(table.entries.as_slice(), key, more)
        .checked_add(1)
        .ok_or(AllocError)
}

/// The blocks that a get may read.
pub fn get_bound<F: RangeFilter>(
    alloc: Global,
    state: &State,
    key: &[u8],
) -> Result<u64, AllocError>
    ensures { IfOk result (λ n. n ≡ model.get_bound state.now key.now) }
{
    let memory = state.memory(alloc)?;
    let more = searched::<F>(alloc, key, state.tables.as_slice())?;
    Ok(unless_found(memory.as_slice(), key, more))
}

// Whether the key comes before that of the answer, where there is one.
fn is_passed(answer: Option<&Pair>, key: &[u8]) -> bool
    ensures { result ≡ model.is_passed (option_map (λ pair. pair.now) answer.entry) key.now }
{
    match answer {
        Some(pair) => is_before(key, pair.key()),
        None => true,
    }
}

// The entries that a seek with this answer steps over.
fn stepped(
    lo: &[u8],
    hi: &[u8],
    answer: Option<&Pair>,
    entries: &[Entry],
) -> Result<u64, AllocError>
    ensures { IfOk result (λ n. n ≡ count_by (λ e. is_between lo.now (Some hi.now) e.key && model.is_passed (option_map (λ pair. pair.now) answer.entry) e.key) entries.now) }
{
    let mut count = 0u64;
    for entry in entries {
        if is_between(lo, hi, entry.key()) && is_passed(answer, entry.key()) {
            count = count.checked_add(1).ok_or(AllocError)?;
        }
    }
    Ok(count)
}

// The table's entries that a seek steps over, where this is its answer.
fn stepped_in(
    state: &State,
    lo: &[u8],
    hi: &[u8],
    answer: Option<&Pair>,
    table: &Table,
) -> Result<u64, AllocError>
    requires { option_map (λ pair. pair.now) answer ≡ seek (state_map state.now) lo.now (Some hi.now) }
    ensures { IfOk result (λ n. n ≡ model.stepped (state_map state.now) lo.now hi.now table.now) }
{
    stepped(lo, hi, answer, table.entries.as_slice())
}

// The key up to which a seek with this answer looks: that of the answer, or `hi` where there is none.
fn looks_to<'a>(answer: Option<&'a Pair>, hi: &'a [u8]) -> &'a [u8]
    ensures { result.now ≡ option_map_or (λ pair. pair.0) (option_map (λ pair. pair.now) answer.entry) hi.now }
{
    match answer {
        Some(pair) => pair.key(),
        None => hi,
    }
}

/// The blocks that a closed seek may read: one of each table that admits `lo` to where it looks, and one for each entry stepped over.
/// It looks up to its answer, or to `hi` where it finds none.
pub fn seek_bound<F: RangeFilter>(
    alloc: Global,
    state: &State,
    lo: &[u8],
    hi: &[u8],
) -> Result<u64, AllocError>
    ensures { IfOk result (λ n. n ≡ model.seek_bound state.now lo.now hi.now) }
{
    if is_before(hi, lo) {
        return Ok(0);
    }
    let map = state.map(alloc)?;
    let answer = map.seek(lo, Some(hi));
    seek_blocks::<F>(alloc, state, lo, hi, answer, state.tables.as_slice())
}

// The blocks of these tables that a seek with this answer may read.
fn seek_blocks<F: RangeFilter>(
    alloc: Global,
    state: &State,
    lo: &[u8],
    hi: &[u8],
    answer: Option<&Pair>,
    tables: &[Table],
) -> Result<u64, AllocError>
    requires order { is_before hi.now lo.now ≡ false }
    requires answer { option_map (λ pair. pair.now) answer ≡ seek (state_map state.now) lo.now (Some hi.now) }
    ensures { IfOk result (λ n. n ≡ sum_by (λ t. suc (model.stepped (state_map state.now) lo.now hi.now t)) (filter (model.admits_range lo.now (model.looks_to (state_map state.now) lo.now hi.now)) tables.now)) }
{
    let Some((table, older)) = tables.split_first() else {
        return Ok(0);
    };
    let more = seek_blocks::<F>(alloc, state, lo, hi, answer, older)?;
    if !admits_range::<F>(alloc, lo, looks_to(answer, hi), table)? {
        return Ok(more);
    }
    let stepped = stepped_in(state, lo, hi, answer, table)?;
    more.checked_add(stepped.checked_add(1).ok_or(AllocError)?)
        .ok_or(AllocError)
}

// The entries whose keys lie from `lo` to `hi`.
fn within(lo: &[u8], hi: &[u8], entries: &[Entry]) -> Result<u64, AllocError>
    ensures { IfOk result (λ n. n ≡ count_by (λ e. is_between lo.now (Some hi.now) e.key) entries.now) }
{
    let mut count = 0u64;
    for entry in entries {
        if is_between(lo, hi, entry.key()) {
            count = count.checked_add(1).ok_or(AllocError)?;
        }
    }
    Ok(count)
}

/// About how many keys lie from `lo` to `hi`: the memory entries there, and for each table what its filter counts.
pub fn estimate<F: RangeFilter>(
    alloc: Global,
    state: &State,
    lo: &[u8],
    hi: &[u8],
) -> Result<u64, AllocError>
    ensures { IfOk result (λ n. n ≡ model.estimate state.now lo.now hi.now) }
{
    if is_before(hi, lo) {
        return Ok(0);
    }
    let memory = state.memory(alloc)?;
    let mut about = within(lo, hi, memory.as_slice())?;
    for table in state.tables.as_slice() {
        about = about
            .checked_add(tally_of::<F>(alloc, lo, hi, table)?)
            .ok_or(AllocError)?;
    }
    Ok(about)
}

/// The tables whose filter admits the key.
pub fn admitted<F: RangeFilter>(alloc: Global, state: &State, key: &[u8]) -> Result<u64, AllocError>
    ensures { IfOk result (λ n. n ≡ model.admitted state.now key.now) }
{
    let mut count = 0u64;
    for table in state.tables.as_slice() {
        if admits::<F>(alloc, key, table)? {
            count = count.checked_add(1).ok_or(AllocError)?;
        }
    }
    Ok(count)
}

/// The tables of which a block is read for the key.
pub fn blocks_read<F: RangeFilter>(
    alloc: Global,
    state: &State,
    key: &[u8],
) -> Result<u64, AllocError>
    ensures { IfOk result (λ n. n ≡ model.blocks_read state.now key.now) }
{
    let mut count = 0u64;
    for table in state.tables.as_slice() {
        if is_searched::<F>(alloc, key, table)? {
            count = count.checked_add(1).ok_or(AllocError)?;
        }
    }
    Ok(count)
}
