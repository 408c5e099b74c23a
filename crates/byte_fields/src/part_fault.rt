//! Why the bytes of a part are not read.
ghost use Rattle.std.specs.Prelude.{◌≡◌};
ghost use Rattle.byte_fields.specs.declared.part_fault.PartFault.TheVariants.{Memory};

use std::alloc::{AllocError, AllocFailed};

/// Why the bytes of a part are not read.
#[derive(Clone, Copy, Debug, PartialEq, Eq)]
pub enum PartFault {
    /// There is no memory for what they hold.
    Memory,
    /// The bytes break the rule of their format with this number, at this place.
    Shape { place: usize, rule: u8 },
}

impl From<AllocError> for PartFault {
    ghost from_gives = { λ _ fault. fault ≡ Memory };

    fn from(_: AllocError) -> PartFault {
        PartFault::Memory
    }
}

impl<T: Drop> From<AllocFailed<T>> for PartFault {
    ghost from_gives = { λ _ fault. fault ≡ Memory };

    fn from(_: AllocFailed<T>) -> PartFault {
        PartFault::Memory
    }
}
