//! Values that are too long for the log go into a table at once.
ghost use Rattle.std.specs.Prelude.{◌≡◌, ◌++◌, [], IfOk, OnOk};
ghost use Rattle.std.specs.List.{AllByRecursion};
ghost use Rattle.block_model.specs.Block.{IsTable};
ghost use Rattle.block_model.specs.Order.{Follow, is_any};
ghost use Rattle.entry_model.specs.Entries.{IsEntry, keys_of, put_entry};
ghost use Rattle.entry_model.specs.Newest.{KeysRise, with_entry};
ghost use Rattle.filter_api.specs.Ranges.{InRange};
ghost use Rattle.store_core.specs.Flushing.{entries_above, entries_below};

use filter_api::{RangeFilter, Settings};
use key_base::compare;
use mem_table::MemTable;
use std::alloc::{AllocError, Global};
use table_file::{Parts, TableBuilder};

// Adds the entries of the memory that are below a key.
fn add_below(builder: &mut TableBuilder, memory: &MemTable, key: &[u8]) -> Result<(), AllocError>
    requires empty { builder.old.entries ≡ [] }
    requires sound { AllByRecursion IsEntry memory.now.entries }
    requires rises { KeysRise memory.now.entries }
    ensures { OnOk result (builder.new ≡ record builder.old { entries = entries_below memory.now.entries key.now }) }
{
    let mut cursor = memory.cursor(&[]);
    for _ in 0..memory.len() {
        match cursor.next() {
            Some((other, value)) => {
                if compare(other, key).is_ge() {
                    break;
                }
                builder.add(other, value)?;
            }
            None => break,
        }
    }
    Ok(())
}

// Adds those that are above it, to entries that are not.
fn add_above(builder: &mut TableBuilder, memory: &MemTable, key: &[u8]) -> Result<(), AllocError>
    requires sound { AllByRecursion IsEntry memory.now.entries }
    requires rises { KeysRise memory.now.entries }
    requires rising { Follow is_any (keys_of (builder.old.entries ++ entries_above memory.now.entries key.now)) }
    ensures { OnOk result (builder.new ≡ record builder.old { entries = builder.old.entries ++ entries_above memory.now.entries key.now }) }
{
    let mut cursor = memory.cursor(key);
    for _ in 0..memory.len() {
        match cursor.next() {
            Some((other, value)) => {
                if other != key {
                    builder.add(other, value)?;
                }
            }
            None => break,
        }
    }
    Ok(())
}

/// The table of all entries of the memory, with an entry over them: it is at its key's place, where an older one of that key
/// goes. Its value is copied once, into its block.
pub(crate) fn build_with<F: RangeFilter>(
    alloc: Global,
    settings: Settings,
    memory: &MemTable,
    key: &[u8],
    value: &[u8],
) -> Result<Parts<F>, AllocError>
    requires settings { InRange settings }
    requires rises { KeysRise memory.now.entries }
    requires sound { AllByRecursion IsEntry memory.now.entries }
    requires table { IsTable (with_entry memory.now.entries (put_entry key.now value.now)) }
    ensures { IfOk result (λ parts. parts ≡ record { settings = settings; entries = with_entry memory.now.entries (put_entry key.now value.now); ranges = [] }) }
{
    let mut builder = TableBuilder::new(alloc, settings);
    add_below(&mut builder, memory, key)?;
    builder.add(key, Some(value))?;
    add_above(&mut builder, memory, key)?;
    builder.finish()
}
