//! Programs of a static map that have no memory for one.

use lines_in::{Status, say_last};
use map_run_model::MapPrograms;
use outside::Outside;
use std::alloc::Global;

/// Each says one line: `taken` where a map is to be built and one is there, else `memory`. So a run shows that it hands its device
/// and its streams to the programs, whatever they do.
#[derive(Drop)]
pub struct NoMaps;

impl<W: Outside> MapPrograms<W> for NoMaps {
    fn build(_alloc: Global, out: &mut W) -> u8 {
        let mut gate = [0u8];
        match out.read(0, &mut gate) {
            Ok(()) => {}
            Err(_) => return say_last(out, b"device\n", Status::Device as u8),
        }
        if gate[0] == 1 {
            return say_last(out, b"taken\n", Status::Store as u8);
        }
        say_last(out, b"memory\n", Status::Memory as u8)
    }

    fn serve(_alloc: Global, out: &mut W) -> u8 {
        say_last(out, b"memory\n", Status::Memory as u8)
    }
}
