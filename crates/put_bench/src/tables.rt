//! What keeps the newest entry of each key in memory.
ghost use Rattle.std.specs.List.{AllByRecursion};
ghost use Rattle.range_model.specs.Sources.{ClearsKeys};

use crate::records::Records;
use anyhow::Result;
use entry_list::{Change, ChangeKind};
use mem_table::MemTable;
use real_outside::FileOutside;
use std::alloc::{AllocError, AllocFailed, Global};
use std::boxed::BoxedSlice;
use std::collections::BTreeMap;

/// What keeps the entries that a log sets.
pub trait Keeper: Sized + Drop {
    /// With no entry.
    fn new(alloc: Global) -> Self;

    /// From the changes of a log, which set entries.
    fn filled(alloc: Global, changes: Vec<Change>) -> Result<Self>
        requires { AllByRecursion ClearsKeys changes.items };

    /// Writes a record, and then sets it.
    fn put(
        &mut self,
        alloc: Global,
        records: &mut Records,
        disk: &mut FileOutside,
        key: &[u8],
        value: &[u8],
    ) -> Result<()>;

    /// Sets a value without a record.
    fn set(&mut self, alloc: Global, key: &[u8], value: &[u8]) -> Result<()>;

    /// The bytes of the key's value, none where it has no value.
    fn look_up(&self, key: &[u8]) -> usize;

    /// How many keys it keeps.
    fn len(&self) -> usize;
}

/// The memory table.
#[derive(Drop)]
pub struct Ours {
    table: MemTable,
}

impl Keeper for Ours {
    fn new(alloc: Global) -> Ours {
        Ours {
            table: MemTable::new(alloc),
        }
    }

    fn filled(_: Global, changes: Vec<Change>) -> Result<Ours> {
        let table = MemTable::fill(changes)?;
        Ok(Ours { table })
    }

    fn put(
        &mut self,
        _: Global,
        records: &mut Records,
        disk: &mut FileOutside,
        key: &[u8],
        value: &[u8],
    ) -> Result<()> {
        let entry = self.table.reserve_for(key, Some(value))?;
        records.append(disk, key, value)?;
        self.table.set(entry);
        Ok(())
    }

    fn set(&mut self, _: Global, key: &[u8], value: &[u8]) -> Result<()> {
        let entry = self.table.reserve_for(key, Some(value))?;
        self.table.set(entry);
        Ok(())
    }

    fn look_up(&self, key: &[u8]) -> usize {
        match self.table.get(key) {
            Some(Some(value)) => value.len(),
            _ => 0,
        }
    }

    fn len(&self) -> usize {
        self.table.len()
    }
}

type Bytes = BoxedSlice<u8>;

/// The map of std.
#[derive(Drop)]
pub struct Theirs {
    map: BTreeMap<Bytes, Option<Bytes>>,
}

impl Theirs {
    fn insert(&mut self, key: Bytes, value: Option<Bytes>) -> Result<(), AllocError> {
        match self.map.insert(key, value) {
            Ok(_) => Ok(()),
            Err(AllocFailed { value: _ }) => Err(AllocError),
        }
    }
}

impl Keeper for Theirs {
    fn new(alloc: Global) -> Theirs {
        Theirs {
            map: BTreeMap::new(alloc),
        }
    }

    fn filled(alloc: Global, changes: Vec<Change>) -> Result<Theirs> {
        let mut theirs = Theirs {
            map: BTreeMap::new(alloc),
        };
        for change in changes {
            if let ChangeKind::Sets(entry) = change.into_kind() {
                let (key, value) = entry.into_parts();
                theirs.insert(key, value)?;
            }
        }
        Ok(theirs)
    }

    fn put(
        &mut self,
        alloc: Global,
        records: &mut Records,
        disk: &mut FileOutside,
        key: &[u8],
        value: &[u8],
    ) -> Result<()> {
        let copy = BoxedSlice::from_slice(alloc, key)?;
        let copy_of_value = BoxedSlice::from_slice(alloc, value)?;
        records.append(disk, key, value)?;
        self.insert(copy, Some(copy_of_value))?;
        Ok(())
    }

    fn set(&mut self, alloc: Global, key: &[u8], value: &[u8]) -> Result<()> {
        let copy = BoxedSlice::from_slice(alloc, key)?;
        let copy_of_value = BoxedSlice::from_slice(alloc, value)?;
        self.insert(copy, Some(copy_of_value))?;
        Ok(())
    }

    fn look_up(&self, key: &[u8]) -> usize {
        match self.map.get(key) {
            Some(Some(value)) => value.len(),
            _ => 0,
        }
    }

    fn len(&self) -> usize {
        self.map.len()
    }
}
