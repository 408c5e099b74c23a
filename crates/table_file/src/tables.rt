//! The tables of a version.
ghost use Rattle.std.specs.Prelude.{◌≡◌, ◌≤◌, ◌<◌, ◌+◌, ◌==◌, [], length, slice_get, Some, OnOk};
ghost use Rattle.std.specs.List.{insert as inserted, remove as removed};

use crate::table::Table;
use filter_api::RangeFilter;
use std::alloc::{AllocError, Global};
use std::marker::Model;

/// The tables of a version in the order of its state: those of level 0 first, the newest of them first, then the deeper
/// levels by rising keys. Seen as these tables, and for how many there is room.
///
/// Whoever changes them keeps the order. A table goes in without memory once room was reserved.
#[derive(Drop)]
pub struct Tables<F: RangeFilter> {
    tables: Vec<Table<F>>,
}

impl<F: RangeFilter> Model for Tables<F> {
    ghost use Rattle.std.specs.Prelude.{vec_capacity};
    ghost use Rattle.table_file.specs.TableLists.{TableList};

    ghost Value = { TableList };

    ghost view = { λ t. record { tables = t.tables.items; room = vec_capacity t.tables } };
}

impl<F: RangeFilter> Tables<F> {
    /// No table, and no memory taken.
    pub fn new(alloc: Global) -> Self
        ensures { result.tables ≡ [] }
    {
        Tables {
            tables: Vec::new(alloc),
        }
    }

    /// Makes room for a given number of more. Without memory all stays as it was.
    pub fn reserve(&mut self, more: usize) -> Result<(), AllocError>
        ensures tables { self.new.tables ≡ self.old.tables }
        ensures room { OnOk result (length self.old.tables + more ≤ self.new.room) }
    {
        self.tables.reserve(more)
    }

    /// Puts a table before the one at a place, or after all, where there is room for it.
    pub fn insert(&mut self, place: usize, table: Table<F>)
        requires there { place ≤ length self.old.tables }
        requires room { length self.old.tables < self.old.room }
        ensures tables { self.new.tables ≡ inserted self.old.tables place table }
        ensures room { self.old.room ≤ self.new.room }
    {
        match self.tables.insert(place, table) {
            Ok(()) => {}
            Err(_) => unreachable!(),
        }
    }

    /// Takes the table at a place out.
    pub fn remove(&mut self, place: usize) -> Table<F>
        requires { place < length self.old.tables }
        ensures taken { slice_get self.old.tables place ≡ Some result }
        ensures tables { self.new.tables ≡ removed self.old.tables place }
        ensures room { self.old.room ≤ self.new.room }
    {
        self.tables.remove(place)
    }

    /// The table at a place, from 0.
    pub fn get(&self, place: usize) -> &Table<F>
        requires { place < length self.now.tables }
        ensures { slice_get self.now.tables place ≡ Some result.now }
    {
        &self.tables[place]
    }

    /// All of them, in their order.
    pub fn as_slice(&self) -> &[Table<F>]
        ensures { result.now ≡ self.now.tables }
    {
        self.tables.as_slice()
    }

    /// How many they are.
    pub fn len(&self) -> usize
        ensures { result ≡ length self.now.tables }
    {
        self.tables.len()
    }

    /// Whether there is none.
    pub fn is_empty(&self) -> bool
        ensures { result ≡ (length self.now.tables == 0) }
    {
        self.tables.is_empty()
    }
}
