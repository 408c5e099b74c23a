//! One entry: a key with its value, or with the word that it has none any more.
ghost use Rattle.std.specs.Prelude.{◌≡◌, ◌↔◌, IfOk, IsTrue, Some};
ghost use Rattle.std.specs.Option.{option_map};
ghost use Rattle.std.specs.Box.{boxed_slice_items};
ghost use Rattle.entry_model.specs.Entries.{IsEntry, IsLogged, bytes_of, entry_of};
ghost use Rattle.map_model.specs.SortedMap.{byte_order};

use key_base::{MAX_KEY_BYTES, MAX_LOGGED_VALUE_BYTES, MAX_VALUE_BYTES};
use std::alloc::{AllocError, Global};
use std::boxed::BoxedSlice;
use std::cmp::Ordering;
use std::marker::Model;

/// A key with its value, or without: then it is a tombstone.
#[derive(Drop)]
pub struct Entry {
    key: BoxedSlice<u8>,
    value: Option<BoxedSlice<u8>>,
}

impl Model for Entry {
    ghost use Rattle.std.specs.Option.{option_map};
    ghost use Rattle.std.specs.Box.{boxed_slice_items};
    ghost use Rattle.entry_model.specs.Entries as model;

    ghost Value = { model.Entry };

    ghost view = { λ e. record { key = boxed_slice_items e.key; value = option_map boxed_slice_items e.value } };
}

impl Entry {
    /// A copy of the key and of the value, if there is one. It takes their bytes of memory.
    pub fn new(alloc: Global, key: &[u8], value: Option<&[u8]>) -> Result<Entry, AllocError>
        ensures { IfOk result (λ e. e ≡ entry_of key.now (option_map (λ v. v.now) value.entry)) }
    {
        let key = BoxedSlice::from_slice(alloc, key)?;
        match value {
            Some(bytes) => {
                let copy = BoxedSlice::from_slice(alloc, bytes)?;
                Ok(Entry {
                    key,
                    value: Some(copy),
                })
            }
            None => Ok(Entry { key, value: None }),
        }
    }

    /// Its key.
    pub fn key(&self) -> &[u8]
        ensures { result.now ≡ self.now.key }
    {
        self.key.as_slice()
    }

    /// How its key stands to this one, byte by byte.
    pub fn compare(&self, key: &[u8]) -> Ordering
        ensures { result ≡ byte_order self.now.key key.now }
    {
        self.key.as_slice().cmp(key)
    }

    /// Its value, `None` for a tombstone.
    pub fn value(&self) -> Option<&[u8]>
        ensures { option_map (λ v. v.now) result ≡ self.now.value }
    {
        match &self.value {
            Some(bytes) => Some(bytes.as_slice()),
            None => None,
        }
    }

    /// Whether the key has 1 to 1,024 bytes and the value at most 1,048,576.
    pub fn is_sound(&self) -> bool
        ensures { IsTrue result ↔ IsEntry self.now }
    {
        keeps_limits(self.key(), self.value_bytes())
    }

    /// Whether a log takes it: it is sound, and its value has at most 65,536 bytes.
    pub fn is_logged(&self) -> bool
        ensures { IsTrue result ↔ IsLogged self.now }
    {
        self.is_sound() && self.value_bytes().len() <= MAX_LOGGED_VALUE_BYTES
    }

    // The bytes of its value, none of a tombstone.
    fn value_bytes(&self) -> &[u8]
        ensures { result.now ≡ bytes_of self.now.value }
    {
        match &self.value {
            Some(bytes) => bytes.as_slice(),
            None => &[],
        }
    }

    /// Its key and its value, moved.
    pub fn into_parts(self) -> (BoxedSlice<u8>, Option<BoxedSlice<u8>>)
        ensures key { boxed_slice_items result.0 ≡ self.key }
        ensures value { option_map boxed_slice_items result.1 ≡ self.value }
    {
        let Entry { key, value } = self;
        (key, value)
    }

    /// The same entry again.
    pub fn copy(&self, alloc: Global) -> Result<Entry, AllocError>
        ensures { IfOk result (λ e. e ≡ self.now) }
    {
        Entry::new(alloc, self.key(), self.value())
    }
}

// Whether a key and a value keep the limits of an entry.
fn keeps_limits(key: &[u8], value: &[u8]) -> bool
    ensures { IsTrue result ↔ IsEntry (entry_of key.now (Some value.now)) }
{
    !key.is_empty() && key.len() <= MAX_KEY_BYTES && value.len() <= MAX_VALUE_BYTES
}
