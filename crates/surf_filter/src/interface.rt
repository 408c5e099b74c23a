//! The interface of a filter, for the global allocator.

use crate::building::trie_of_keys;
use crate::difference::first_difference;
use crate::filter::SurfFilter;
use filter_api::{DecodeError, RangeFilter, Settings};
use key_base::KeyList;
use std::alloc::{AllocError, Global};

impl RangeFilter for SurfFilter<Global> {
    ghost use Rattle.filter_model.specs.Image.{image};
    ghost use Rattle.surf_filter.specs.Cutoffs.{rule_cutoff};
    ghost use Rattle.surf_filter.specs.Faults.{first_image_fault};
    ghost use Rattle.surf_filter.specs.ImageLaws.{one_list, told_of_any};

    ghost hash_bits = { λ f. f.hash_bits };

    ghost real_bits = { λ f. f.real_bits };

    ghost leaf_list = { λ f. f.leaves };

    ghost spelling = { image };

    ghost first_fault = { first_image_fault };

    ghost built_cutoff = { rule_cutoff };

    ghost cutoff = { λ f. f.cutoff };

    fn build(alloc: Global, keys: &KeyList, settings: Settings) -> Result<Self, AllocError> {
        let trie = trie_of_keys(alloc, keys, settings)?;
        Ok(SurfFilter::of(trie))
    }

    fn may_hold(&self, key: &[u8]) -> bool {
        SurfFilter::may_hold(self, key)
    }

    fn may_hold_range(&self, lo: &[u8], hi: &[u8]) -> bool {
        SurfFilter::may_hold_range(self, lo, hi)
    }

    fn seek(&self, lo: &[u8]) -> Option<u32> {
        SurfFilter::seek(self, lo)
    }

    fn tally(&self, lo: &[u8], hi: &[u8]) -> u32 {
        SurfFilter::tally(self, lo, hi)
    }

    fn leaves(&self) -> u32 {
        SurfFilter::leaves(self)
    }

    fn widths(&self) -> (u8, u8) {
        SurfFilter::widths(self)
    }

    fn least_of(&self, n: u32, out: &mut Vec<u8>) -> Result<(), AllocError> {
        SurfFilter::least_of(self, n, out)
    }

    fn first_difference(&self, alloc: Global, other: &Self) -> Result<Option<u32>, AllocError> {
        first_difference(alloc, self, other)
    }

    fn encode(&self, out: &mut Vec<u8>) -> Result<(), AllocError> {
        SurfFilter::encode(self, out)
    }

    fn decode(alloc: Global, bytes: &[u8]) -> Result<Self, DecodeError> {
        SurfFilter::decode_in(alloc, bytes)
    }

    ghost spells_one = { one_list };

    ghost decided = { told_of_any };
}
