//! Why no body is written.

use std::alloc::AllocError;

/// Why a map's body was not written.
#[derive(Clone, Copy, Debug, PartialEq, Eq)]
pub enum FinishError {
    /// There was no memory.
    Memory,
    /// There is no pair.
    NoKeys,
    /// The body would have so many bytes, more than 2^31.
    Large(u64),
}

impl From<AllocError> for FinishError {
    ghost use Rattle.std.specs.Prelude.{◌≡◌};
    ghost use Rattle.map_writer.specs.declared.error.FinishError.{FinishError};
    ghost use Rattle.map_writer.specs.declared.error.FinishError.TheVariants.{Memory};

    ghost from_gives = { λ _ e. e ≡ Memory };

    fn from(_error: AllocError) -> Self {
        FinishError::Memory
    }
}
