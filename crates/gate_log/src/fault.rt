//! Why a log is not read.
ghost use Rattle.std.specs.Prelude.{◌≡◌};
ghost use Rattle.gate_log.specs.declared.fault.LogFault.TheVariants.{Memory, Device};

use disk_trait::DiskFault;
use std::alloc::AllocError;

/// Why a log is not replayed.
#[derive(Clone, Copy, Debug, PartialEq, Eq)]
pub enum LogFault {
    /// There is no memory for the area's bytes or its entries.
    Memory,
    /// The device failed to read.
    Device(DiskFault),
    /// The record whose gate is at byte `at` of the device breaks this rule of the format, and all before it are whole.
    Shape { at: u64, rule: u8 },
}

impl From<AllocError> for LogFault {
    ghost from_gives = { λ _ fault. fault ≡ Memory };

    fn from(_: AllocError) -> LogFault {
        LogFault::Memory
    }
}

impl From<DiskFault> for LogFault {
    ghost from_gives = { λ cause fault. fault ≡ Device cause };

    fn from(cause: DiskFault) -> LogFault {
        LogFault::Device(cause)
    }
}
