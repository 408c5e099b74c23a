//! Why bytes are no filter.

use std::alloc::AllocError;

/// The first rule of its format that bytes break, and the place of the byte that breaks it; the number of the bytes where
/// there are too few.
#[derive(Clone, Copy, Debug, PartialEq, Eq)]
pub struct FilterFault {
    pub place: u64,
    pub rule: u8,
}

/// Why bytes could not be read as a filter.
#[derive(Clone, Copy, Debug, PartialEq, Eq)]
pub enum DecodeError {
    /// There was no memory; the bytes may be a filter.
    Memory,
    /// The bytes are no filter.
    Fault(FilterFault),
}

impl From<AllocError> for DecodeError {
    ghost use Rattle.std.specs.Prelude.{◌≡◌};
    ghost use Rattle.filter_api.specs.declared.errors.DecodeError.{DecodeError};
    ghost use Rattle.filter_api.specs.declared.errors.DecodeError.TheVariants.{Memory};

    ghost from_gives = { λ _ e. e ≡ Memory };

    fn from(_error: AllocError) -> Self {
        DecodeError::Memory
    }
}
