//! What the store says of a key.
ghost use Rattle.std.specs.Prelude.{◌≡◌, ◌≢◌, ◌<◌, is_some, Some, None, IsTrue, IfOk, IfSome};
ghost use Rattle.std.specs.Option.{option_map};
ghost use Rattle.std.specs.Borrow.{sem};
ghost use Rattle.disk_trait.specs.World.{ReadMoves};
ghost use Rattle.entry_model.specs.Entries.{live};
ghost use Rattle.entry_model.specs.Newest.{lookup};
ghost use Rattle.line_model.specs.Limits.{key_limit};
ghost use Rattle.map_model.specs.SortedMap.{Bytes, get};
ghost use Rattle.state_model.specs.State.{State};
ghost use Rattle.state_model.specs.View.{state_map, view};
ghost use Rattle.store_core.specs.Getting.{IsPlaceIn, said_at};
ghost use Rattle.store_search.specs.Searching.{IsSpotIn, said_in};
ghost use Rattle.store_core.specs.StoreValue.{StoreValue};
ghost use Rattle.store_core.specs.Represents.{Represents};
ghost use Rattle.table_model.specs.Tables.{filter_bytes_of};

use crate::error::StoreError;
use crate::limits::check_key;
use crate::store::Store;
use block_format::Block;
use disk_trait::Disk;
use filter_api::RangeFilter;
use store_search::{Spot, look_and_keep};

// Where the newest entry of a key is.
#[derive(Clone, Copy)]
pub(crate) enum Place {
    Nowhere,
    InMemory,
    InTable(Spot),
}

// The place of what was found in tables.
fn place_of(found: Option<Spot>) -> Place
    ensures place { (buffer : Bytes) → IfSome found (λ spot. IsSpotIn spot buffer) → IsPlaceIn result buffer }
    ensures said { (store : StoreValue) (key : Bytes) → said_at result store key ≡ said_in found store.buffer store.blocks.kept key }
{
    match found {
        Some(spot) => Place::InTable(spot),
        None => Place::Nowhere,
    }
}

impl<F: RangeFilter> Store<F> {
    ghost use Rattle.store_core.specs.Lends.{store_ends};
    ghost use Rattle.store_core.specs.Getting.{Asked, GetsKey};
    ghost use Rattle.store_core.specs.Looking.{GivesLooked, SaysLooked};

    /// The value of a key, or `None` where it was never put or was deleted last.
    ///
    /// At most one block is read of each table whose filter admits the key and whose keys enclose it, newest first, until
    /// an entry of the key is found; and none that is kept. The last block that was read is kept, of 64 those that were asked
    /// for last, where there is memory; else nothing is lost. No memory that could be refused, no write.
    ///
    /// Whatever the device holds, each block that was read is sound where it answers, and the answer is what memory, the kept
    /// blocks and these say.
    pub fn get<D: Disk>(&mut self, disk: &mut D, key: &[u8]) -> Result<Option<&[u8]>, StoreError>
        ensures* after { sem 𝓛 (store_ends F.row F.RangeFilter self.entry (λ s. Asked F.spelling (filter_bytes_of F.spelling F.built_cutoff) D.tells self.old s (D.world disk.old) (D.world disk.new))) }
        ensures answer { (s : State) → IsTrue D.tells → Represents F.spelling (filter_bytes_of F.spelling F.built_cutoff) self.old s (D.world disk.old)
            → IfOk result (λ found. option_map (λ v. v.now) found ≡ get (state_map s) key.now) }
        ensures looked { IsTrue D.tells → IfOk result (λ found. GivesLooked self.old key.now (D.world disk.old).seen.held (option_map (λ v. v.now) found)) }
        ensures gets { GetsKey F.spelling (filter_bytes_of F.spelling F.built_cutoff) D.tells self.old key.now result (D.world disk.old) (D.world disk.new) }
        ensures limited { key_limit key.now ≢ None → ReadMoves 0 (D.world disk.old) (D.world disk.new) }
        ensures in_memory { lookup self.old.memory.entries key.now ≢ None → ReadMoves 0 (D.world disk.old) (D.world disk.new) }
    {
        let place = self.look_for(disk, key)?;
        Ok(self.value_at(place, key))
    }

    // Where the newest entry of a key is.
    fn look_for<D: Disk>(&mut self, disk: &mut D, key: &[u8]) -> Result<Place, StoreError>
        ensures asked { Asked F.spelling (filter_bytes_of F.spelling F.built_cutoff) D.tells self.old self.new (D.world disk.old) (D.world disk.new) }
        ensures place { IfOk result (λ place. IsPlaceIn place self.new.buffer) }
        ensures answer { (s : State) → IsTrue D.tells → Represents F.spelling (filter_bytes_of F.spelling F.built_cutoff) self.old s (D.world disk.old)
            → IfOk result (λ place. said_at place self.new key.now ≡ view s key.now) }
        ensures looked { IsTrue D.tells → IfOk result (λ place. SaysLooked self.old key.now (D.world disk.old).seen.held (said_at place self.new key.now)) }
        ensures gets { GetsKey F.spelling (filter_bytes_of F.spelling F.built_cutoff) D.tells self.old key.now result (D.world disk.old) (D.world disk.new) }
        ensures limited { key_limit key.now ≢ None → ReadMoves 0 (D.world disk.old) (D.world disk.new) }
        ensures in_memory { lookup self.old.memory.entries key.now ≢ None → ReadMoves 0 (D.world disk.old) (D.world disk.new) }
    {
        if self.stopped {
            return Err(StoreError::Stopped);
        }
        check_key(key)?;
        if self.memory.get(key).is_some() {
            return Ok(Place::InMemory);
        }
        let alloc = *self.buffer.allocator();
        let tables = self.tables.as_slice();
        let found = look_and_keep(alloc, tables, &mut self.blocks, disk, key, &mut self.buffer)?;
        Ok(place_of(found))
    }

    // The value there, if the entry is no tombstone.
    fn value_at(&self, place: Place, key: &[u8]) -> Option<&[u8]>
        requires { IsPlaceIn place self.now.buffer }
        ensures { option_map (λ v. v.now) result ≡ live (said_at place self.now key.now) }
    {
        let found = match place {
            Place::Nowhere => None,
            Place::InMemory => self.memory.get(key),
            Place::InTable(Spot::InBuffer(size)) => {
                Block::find_in_sound(&self.buffer[..size], key)
            }
            Place::InTable(Spot::InCache(number, block)) => self.blocks.find(number, block, key),
        };
        match found {
            Some(value) => value,
            None => None,
        }
    }
}
