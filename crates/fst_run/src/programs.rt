//! Both programs, for whoever runs them.

use crate::build::fst_build;
use crate::serve::fst_serve;
use map_run_model::MapPrograms;
use outside::Outside;
use std::alloc::Global;

/// The programs of a static map whose keys are a trie.
#[derive(Drop)]
pub struct FstPrograms;

impl<W: Outside> MapPrograms<W> for FstPrograms {
    fn build(alloc: Global, out: &mut W) -> u8 {
        fst_build(alloc, out)
    }

    fn serve(alloc: Global, out: &mut W) -> u8 {
        fst_serve(alloc, out)
    }
}
