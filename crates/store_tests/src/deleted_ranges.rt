//! Deleted ranges in a state that is played: its map beside a plain one.
use crate::asserts::check_that_at;
use entry_list::Entry;
use plain_filter::PlainFilter;
use plain_map::PlainMap;
use plain_store::{Change, DeletedRange, State, compacted, flushed, merged, written};
use std::alloc::{AllocError, Global};
use std::test::Fail;
use test_kit::Numbers;
use test_stores::new_state;

// Keys of which some begin with others.
const KEYS: [&[u8]; 8] = [b"\0", b"a", b"a\0", b"ab", b"b", b"ba", b"c", b"d"];

// The played state, and the map that it has to be.
#[derive(Drop)]
struct Beside {
    state: Box<State>,
    map: PlainMap,
}

fn drawn_key(numbers: &mut Numbers) -> &'static [u8] {
    KEYS.get(numbers.draw_below(8)).copied().unwrap_or(b"")
}

impl Beside {
    // Makes the change in both, or in neither where the state refuses it.
    fn write(&mut self, alloc: Global, change: &Change) -> Result<(), AllocError> {
        let Ok(state) = written::<PlainFilter>(alloc, &self.state, change)? else {
            return Ok(());
        };
        *self.state = state;
        match change {
            Change::Sets(entry) => match entry.value() {
                Some(value) => self.map.put(entry.key(), value)?,
                None => self.map.del(entry.key()),
            },
            Change::Clears(range) => self.map.clear(range.lo(), range.hi()),
        }
        Ok(())
    }

    // A flush, a compaction or a merge, which the map does not show.
    fn tidy(&mut self, alloc: Global, which: usize) -> Result<(), AllocError> {
        let after = match which {
            0 => compacted::<PlainFilter>(alloc, &self.state)?,
            1 => Ok(merged::<PlainFilter>(alloc, &self.state)?),
            _ => flushed::<PlainFilter>(alloc, &self.state)?,
        };
        if let Ok(state) = after {
            *self.state = state;
        }
        Ok(())
    }

    // Whether what the state says of this key is the map's, and its map has as many pairs.
    fn agree(&self, alloc: Global, key: &[u8]) -> Result<bool, AllocError> {
        let found = self.state.view(alloc, key)?.flatten();
        let map = self.state.map(alloc)?;
        let kept = map.get(key);
        Ok(found.as_deref() == kept && kept == self.map.get(key) && map.len() == self.map.len())
    }
}

fn drawn_change(alloc: Global, numbers: &mut Numbers) -> Result<Change, AllocError> {
    let key = drawn_key(numbers);
    match numbers.draw_below(4) {
        0 => Ok(Change::Clears(DeletedRange::new(alloc, key, drawn_key(numbers))?)),
        1 => Ok(Change::Sets(Entry::new(alloc, key, None)?)),
        _ => {
            let value = [numbers.draw_to(255) as u8];
            Ok(Change::Sets(Entry::new(alloc, key, Some(&value))?))
        }
    }
}

// Plays a number of steps, and answers the first after which the two differ.
fn first_difference(alloc: Global, seed: u64) -> Result<Option<u64>, AllocError> {
    let mut numbers = Numbers::new(seed);
    let mut beside = Beside {
        state: new_state(alloc, 512)?,
        map: PlainMap::new(alloc),
    };
    for step in 0..40 {
        match numbers.draw_below(24) {
            which @ 0..6 => beside.tidy(alloc, which)?,
            _ => {
                let change = drawn_change(alloc, &mut numbers)?;
                beside.write(alloc, &change)?;
            }
        }
        if !beside.agree(alloc, drawn_key(&mut numbers))? {
            return Ok(Some(step));
        }
    }
    Ok(None)
}

// Crossed bounds too, which delete nothing.
#[test]
fn a_state_with_deleted_ranges_is_the_plain_map(rt: HostRuntime) -> Result<(), Fail> {
    for seed in 0..32 {
        let difference = first_difference(rt.alloc(), seed)?;
        check_that_at(&rt, &(seed, difference), difference.is_none());
    }
    Ok(())
}
