//! What a state has in memory, and the sorted map that it is.
ghost use Rattle.std.specs.Prelude.{◌≡◌, map, IfOk, OnOk};
ghost use Rattle.entry_model.specs.Entries.{changed};
ghost use Rattle.range_model.specs.ChangedMaps.{map_changed_by};
ghost use Rattle.state_model.specs.View as model;
ghost use Rattle.plain_store.specs.ChangeKinds.{change_of};

use crate::change::{Change, push_changes};
use crate::lists::oldest_first;
use crate::source::{Source, source_of};
use crate::state::State;
use entry_list::Entry;
use plain_map::PlainMap;
use std::alloc::{AllocError, Global};

impl State {
    /// What is in memory: the log's last entry for each key, without those that a later range of it covers, and its ranges.
    pub fn in_memory(&self, alloc: Global) -> Result<Source, AllocError>
        ensures { IfOk result (λ source. source ≡ model.in_memory self.now) }
    {
        source_of(alloc, self.log.as_slice())
    }

    /// The memory entries, by rising keys.
    pub fn memory(&self, alloc: Global) -> Result<Vec<Entry>, AllocError>
        ensures { IfOk result (λ list. list.items ≡ model.memory self.now) }
    {
        let source = self.in_memory(alloc)?;
        Ok(source.entries)
    }

    /// All changes, the oldest first.
    pub fn changes(&self, alloc: Global) -> Result<Vec<Change>, AllocError>
        ensures { IfOk result (λ list. map change_of list.items ≡ model.changes_of self.now) }
    {
        let mut list = oldest_first(alloc, self.tables.as_slice())?;
        push_changes(self.log.as_slice(), &mut list)?;
        Ok(list)
    }

    /// The sorted map that the state is.
    pub fn map(&self, alloc: Global) -> Result<PlainMap, AllocError>
        ensures { IfOk result (λ map. map ≡ model.state_map self.now) }
    {
        let changes = self.changes(alloc)?;
        let mut map = PlainMap::new(alloc);
        for change in changes.as_slice() {
            make(&mut map, change)?;
        }
        Ok(map)
    }
}

// Makes a change to a map.
fn make(map: &mut PlainMap, change: &Change) -> Result<(), AllocError>
    ensures { OnOk result (map.new ≡ map_changed_by map.old (change_of change.now)) }
{
    match change {
        Change::Sets(entry) => set(map, entry),
        Change::Clears(range) => {
            map.clear(range.lo(), range.hi());
            Ok(())
        }
    }
}

fn set(map: &mut PlainMap, entry: &Entry) -> Result<(), AllocError>
    ensures { OnOk result (map.new ≡ changed map.old entry.now) }
{
    match entry.value() {
        Some(value) => map.put(entry.key(), value),
        None => {
            map.del(entry.key());
            Ok(())
        }
    }
}
