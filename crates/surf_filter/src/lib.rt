//! The succinct filter: a trie of the stubs of its keys, with the hash bits and real bits of each.
//!
//! A [`SurfFilter`] answers as every filter of the same leaves does, by ways down its trie: `may_hold` looks at one node for
//! each byte of the key that leads on and then at one suffix, and no call but `build` and `decode` goes over all leaves. It
//! takes the bits of its image, some 10 for each label of a sparse level and those of the suffixes, and some hundredths of
//! that more for counts and sums (`docs/PERFORMANCE.md`): `image_bytes` and `memory_bits` say how many. Its spelling is the
//! image (`docs/FORMATS.md`), and as many of its upper levels are dense as the settings' ratio allows.
//!
//! It may be built of a trie that is there ([`SurfFilter::of`]) and decoded into memory of any allocator
//! ([`SurfFilter::decode_in`]); [`RangeFilter`](filter_api::RangeFilter), by which a store knows filters, is for the
//! global one. Do not use it for a handful of keys, where a list of leaves is smaller and as fast.
//!
//! ```text
//! keys               far   fast   s   top   toy
//! let filter = SurfFilter::build(alloc, &keys, settings)?;
//! filter.may_hold(b"fasten")            // true: the leaf fas fits it
//! filter.may_hold(b"fa")                // false
//! filter.encode(&mut bytes)?;
//! let again = SurfFilter::decode_in(heap, bytes.as_slice())?;
//! ```
#![tactic(auto)]

mod building;
mod difference;
mod filter;
mod interface;
mod point;

pub use filter::SurfFilter;
