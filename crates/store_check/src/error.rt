//! Why a check ends before all is looked at.
ghost use Rattle.std.specs.Prelude.{◌≡◌, IfOk, IfErr};
ghost use Rattle.store_check.specs.Causes.{IsErrorOf, IsFree};
ghost use Rattle.store_check.specs.declared.error.CheckError.TheVariants.{Device, Memory};

use byte_fields::Damage;
use disk_trait::DiskFault;
use std::alloc::AllocError;
use table_file::TableFault;

/// What ends a check.
#[derive(Clone, Copy, Debug, PartialEq, Eq)]
pub enum CheckError {
    /// There is no memory.
    Memory,
    /// The device failed to read.
    Device(DiskFault),
    /// No slot is open: the device holds no store.
    NotAStore,
}

impl From<AllocError> for CheckError {
    ghost from_gives = { λ _ error. error ≡ Memory };

    fn from(_: AllocError) -> CheckError {
        CheckError::Memory
    }
}

impl From<DiskFault> for CheckError {
    ghost from_gives = { λ cause error. error ≡ Device cause };

    fn from(cause: DiskFault) -> CheckError {
        CheckError::Device(cause)
    }
}

/// The damage that a fault of reading says. Out of memory, or where the device fails, the check ends.
pub(crate) fn damage_in(fault: TableFault) -> Result<Damage, CheckError>
    ensures damage { IfOk result (λ damage. fault ≡ TableFault.Damaged damage) }
    ensures error { IfErr result (IsErrorOf fault) }
    ensures free { IfErr result IsFree }
{
    match fault {
        TableFault::Memory => Err(CheckError::Memory),
        TableFault::Device(cause) => Err(CheckError::Device(cause)),
        TableFault::Damaged(damage) => Ok(damage),
    }
}
