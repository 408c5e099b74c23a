//! Why a call of the store is refused.
ghost use Rattle.std.specs.Prelude.{◌≡◌};
ghost use Rattle.store_core.specs.Answers.{stops};
ghost use Rattle.store_core.specs.Faults.{of_job_fault, of_log_fault, of_manifest_fault, of_table_fault};
ghost use Rattle.store_core.specs.declared.error.StoreError.TheVariants.{BadSettings as bad_settings, Device, Memory};

use byte_fields::{Damage, Part};
use disk_trait::{DiskFault, Op};
use filter_api::{BadSettings, Field};
use gate_log::LogFault;
use level_merge::JobFault;
use manifest::ManifestFault;
use std::alloc::AllocError;
use table_file::TableFault;

/// A limit that a call would break.
#[derive(Clone, Copy, Debug, PartialEq, Eq)]
pub enum Limit {
    /// The key has a given number of bytes: none, or more than 1,024.
    Key(u64),
    /// The value has a given number of bytes, more than 1,048,576.
    Value(u64),
    /// The version has 1,024 tables.
    Tables,
    /// There were 2^64 - 1 versions.
    Epoch,
}

/// Why a call of the store is refused. But for `Device` after a write or a sync, the map is as before, and the call may be
/// made again.
#[derive(Clone, Copy, Debug, PartialEq, Eq)]
pub enum StoreError {
    /// There is no memory.
    Memory,
    /// The device failed. After a write or a sync the store is stopped.
    Device(DiskFault),
    /// A write or a sync failed before, and the store has not been opened since.
    Stopped,
    /// A limit is broken.
    Limit(Limit),
    /// A table needs `need` pages, and the largest gap has fewer.
    Full { need: u64, gap: u64 },
    /// A part of the device that was read is damaged.
    Damaged(Damage),
    /// The device holds no store.
    NotAStore,
    /// The device holds a store already.
    AlreadyAStore,
    /// This number is out of range: of a new store, of other settings, or of more pages.
    BadSettings(Field),
}

// Whether a refusal stops the store: a write or a sync failed.
pub(crate) fn stops_store(why: &StoreError) -> bool
    ensures { result ≡ stops why.now }
{
    match why {
        StoreError::Device(fault) => fault.op != Op::Read,
        _ => false,
    }
}

impl From<AllocError> for StoreError {
    ghost from_gives = { λ _ error. error ≡ Memory };

    fn from(_: AllocError) -> StoreError {
        StoreError::Memory
    }
}

impl From<DiskFault> for StoreError {
    ghost from_gives = { λ cause error. error ≡ Device cause };

    fn from(cause: DiskFault) -> StoreError {
        StoreError::Device(cause)
    }
}

impl From<TableFault> for StoreError {
    ghost from_gives = { λ fault error. error ≡ of_table_fault fault };

    fn from(fault: TableFault) -> StoreError {
        match fault {
            TableFault::Memory => StoreError::Memory,
            TableFault::Device(cause) => StoreError::Device(cause),
            TableFault::Damaged(damage) => StoreError::Damaged(damage),
        }
    }
}

impl From<ManifestFault> for StoreError {
    ghost from_gives = { λ fault error. error ≡ of_manifest_fault fault };

    fn from(fault: ManifestFault) -> StoreError {
        match fault {
            ManifestFault::Memory => StoreError::Memory,
            ManifestFault::Device(cause) => StoreError::Device(cause),
            ManifestFault::NotAStore => StoreError::NotAStore,
            ManifestFault::AlreadyAStore => StoreError::AlreadyAStore,
            ManifestFault::Epoch => StoreError::Limit(Limit::Epoch),
            ManifestFault::Damaged(damage) => StoreError::Damaged(damage),
        }
    }
}

impl From<LogFault> for StoreError {
    ghost from_gives = { λ fault error. error ≡ of_log_fault fault };

    fn from(fault: LogFault) -> StoreError {
        match fault {
            LogFault::Memory => StoreError::Memory,
            LogFault::Device(cause) => StoreError::Device(cause),
            LogFault::Shape { at, rule } => StoreError::Damaged(Damage::Shape {
                part: Part::Log,
                at,
                rule,
            }),
        }
    }
}

impl From<BadSettings> for StoreError {
    ghost from_gives = { λ bad error. error ≡ bad_settings bad.0 };

    fn from(bad: BadSettings) -> StoreError {
        StoreError::BadSettings(bad.0)
    }
}

impl From<JobFault> for StoreError {
    ghost from_gives = { λ fault error. error ≡ of_job_fault fault };

    fn from(fault: JobFault) -> StoreError {
        match fault {
            JobFault::Memory => StoreError::Memory,
            JobFault::Device(cause) => StoreError::Device(cause),
            JobFault::Damaged(damage) => StoreError::Damaged(damage),
            JobFault::Full { need, gap } => StoreError::Full { need, gap },
        }
    }
}
