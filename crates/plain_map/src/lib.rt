//! The sorted map as a plain program: a sorted vector of pairs, and a loop for each call.
//!
//! A [`PlainMap`] is seen as the map of `map_model`, and each of its calls answers by the definition of that name
//! there. Each looks at pair after pair, so it takes time of the number of pairs; `put` and `slice` copy. It stands
//! for the store where a test wants answers that are plainly right. Do not use it for many pairs: take a map of
//! std, or the store.
//!
//! ```text
//! let mut map = PlainMap::new(alloc);
//! map.put(b"b", b"1")?;
//! map.put(b"a", b"2")?;
//! map.get(b"a")                       // Some(b"2")
//! map.count(b"", Some(b"a"))          // 1
//! map.seek(b"ab", None)               // the pair of b
//! ```
#![tactic(auto)]

mod map;
mod pair;

pub use map::PlainMap;
pub use pair::Pair;
