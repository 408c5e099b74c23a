//! Why there is no map, and why a pair is refused.

use map_parts::MapFault;
use std::alloc::AllocError;

/// Why bytes could not be read as a map.
#[derive(Clone, Copy, Debug, PartialEq, Eq)]
pub enum FstError {
    /// There was no memory; the bytes may be a map.
    Memory,
    /// The bytes are no map.
    Fault(MapFault),
}

impl From<AllocError> for FstError {
    ghost use Rattle.std.specs.Prelude.{◌≡◌};
    ghost use Rattle.fst_map.specs.declared.error.FstError.{FstError};
    ghost use Rattle.fst_map.specs.declared.error.FstError.TheVariants.{Memory};

    ghost from_gives = { λ _ e. e ≡ Memory };

    fn from(_error: AllocError) -> Self {
        FstError::Memory
    }
}

/// Why a pair could not be added to a map that is built.
#[derive(Clone, Copy, Debug, PartialEq, Eq)]
pub enum AddError {
    /// There was no memory.
    Memory,
    /// The key has so many bytes: none, or more than 1,024.
    Key(usize),
    /// The value has so many bytes, more than 65,536.
    Value(usize),
    /// The key is not above the last one.
    Order,
    /// There are 1,000,000 pairs.
    Many,
}

impl From<AllocError> for AddError {
    ghost use Rattle.std.specs.Prelude.{◌≡◌};
    ghost use Rattle.fst_map.specs.declared.error.AddError.{AddError};
    ghost use Rattle.fst_map.specs.declared.error.AddError.TheVariants.{Memory};

    ghost from_gives = { λ _ e. e ≡ Memory };

    fn from(_error: AllocError) -> Self {
        AddError::Memory
    }
}
