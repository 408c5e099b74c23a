//! The bytes of a table's filter.
ghost use Rattle.table_model.specs.Tables.{filter_bytes_of};
ghost use Rattle.std.specs.Prelude.{◌≡◌, length, IfOk};
ghost use Rattle.filter_model.specs.Leaves.{leaves_of};
ghost use Rattle.entry_model.specs.Entries.{keys_of};

use entry_list::Entry;
use filter_api::{RangeFilter, Settings};
use filter_model::are_keys;
use key_base::KeyList;
use std::alloc::{AllocError, Global};

// The keys of some entries.
fn keys_of(alloc: Global, entries: &[Entry]) -> Result<KeyList, AllocError>
    ensures { IfOk result (λ keys. keys ≡ keys_of entries.now) }
{
    let mut keys = KeyList::new(alloc);
    for entry in entries {
        keys.push(entry.key())?;
    }
    Ok(keys)
}

/// The filter of the keys of some entries. It gives up where they are no keys or the settings are out of range.
pub(crate) fn filter_of<F: RangeFilter>(
    alloc: Global,
    settings: Settings,
    entries: &[Entry],
) -> Result<F, AllocError>
    ensures leaves { IfOk result (λ f. F.leaf_list f ≡ leaves_of settings.hash_bits settings.real_bits (keys_of entries.now)) }
    ensures hash_width { IfOk result (λ f. F.hash_bits f ≡ settings.hash_bits) }
    ensures real_width { IfOk result (λ f. F.real_bits f ≡ settings.real_bits) }
    ensures cutoff { IfOk result (λ f. F.cutoff f ≡ F.built_cutoff settings.ratio (leaves_of settings.hash_bits settings.real_bits (keys_of entries.now))) }
{
    let keys = keys_of(alloc, entries)?;
    if !are_keys(&keys) || settings.check().is_err() {
        return Err(AllocError);
    }
    F::build(alloc, &keys, settings)
}

/// How many bytes the filter of some entries has.
pub(crate) fn filter_length<F: RangeFilter>(
    alloc: Global,
    settings: Settings,
    entries: &[Entry],
) -> Result<u64, AllocError>
    ensures { IfOk result (λ n. n ≡ length (filter_bytes_of F.spelling F.built_cutoff settings (keys_of entries.now))) }
{
    let filter: F = filter_of(alloc, settings, entries)?;
    let mut bytes = Vec::new(alloc);
    filter.encode(&mut bytes)?;
    Ok(bytes.len() as u64)
}
