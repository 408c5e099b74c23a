//! Why the manifest of a store is not read or written.
ghost use Rattle.std.specs.Prelude.{◌≡◌};
ghost use Rattle.manifest.specs.declared.fault.ManifestFault.TheVariants.{Memory, Device};

use byte_fields::Damage;
use disk_trait::DiskFault;
use std::alloc::AllocError;

/// Why a manifest is not read or written.
#[derive(Clone, Copy, Debug, PartialEq, Eq)]
pub enum ManifestFault {
    /// There is no memory for a body or its rows.
    Memory,
    /// The device failed.
    Device(DiskFault),
    /// No slot is open: the device holds no store.
    NotAStore,
    /// A slot is open: the device holds a store already.
    AlreadyAStore,
    /// There were 2^64 - 1 versions, and no epoch is left.
    Epoch,
    /// An open slot is damaged.
    Damaged(Damage),
}

impl From<AllocError> for ManifestFault {
    ghost from_gives = { λ _ fault. fault ≡ Memory };

    fn from(_: AllocError) -> ManifestFault {
        ManifestFault::Memory
    }
}

impl From<DiskFault> for ManifestFault {
    ghost from_gives = { λ cause fault. fault ≡ Device cause };

    fn from(cause: DiskFault) -> ManifestFault {
        ManifestFault::Device(cause)
    }
}
