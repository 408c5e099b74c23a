//! Tests of the filters' room: levels of tries from the keys themselves; the halves of a trie, cut at each level, against
//! plain loops over its branches; ranges over tries and succinct filters against plain filters of the same keys; and the
//! images of tries against a slow judge.
//!
//! Nothing is exported. What the tests show at some keys their crates prove at all; here keys, their stubs, the plan of
//! their trie and its cutoff come together, and sets of keys, the nodes of their trie, its calls and its image.
#![tactic(auto)]

#[cfg(test)]
mod allocations;
#[cfg(test)]
mod bits;
#[cfg(test)]
mod bounds;
#[cfg(test)]
mod changed;
#[cfg(test)]
mod codec;
#[cfg(test)]
mod cursors;
#[cfg(test)]
mod cutoffs;
#[cfg(test)]
mod differences;
#[cfg(test)]
mod examples;
#[cfg(test)]
mod filter_examples;
#[cfg(test)]
mod filter_images;
#[cfg(test)]
mod filter_sets;
#[cfg(test)]
mod filters;
#[cfg(test)]
mod halves;
#[cfg(test)]
mod heaps;
#[cfg(test)]
mod images;
#[cfg(test)]
mod judge;
#[cfg(test)]
mod keys;
#[cfg(test)]
mod knots;
#[cfg(test)]
mod leaf_lists;
#[cfg(test)]
mod leaves;
#[cfg(test)]
mod levels;
#[cfg(test)]
mod many;
#[cfg(test)]
mod places;
#[cfg(test)]
mod plain;
#[cfg(test)]
mod ranges;
#[cfg(test)]
mod sections;
#[cfg(test)]
mod sets;
#[cfg(test)]
mod suffixes;
#[cfg(test)]
mod sums;
#[cfg(test)]
mod tries;
#[cfg(test)]
mod walks;
#[cfg(test)]
mod whole_images;
#[cfg(test)]
mod whole_ranges;
