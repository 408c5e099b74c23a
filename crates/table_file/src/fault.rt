//! Why a table is not opened, or not read.
ghost use Rattle.std.specs.Prelude.{◌≡◌};
ghost use Rattle.table_file.specs.declared.fault.TableFault.TheVariants.{Device, Memory as want_of_memory};

use byte_fields::Damage;
use disk_trait::DiskFault;
use std::alloc::AllocError;

/// What ends an opening or a read: lack of memory, the device, or damage.
#[derive(Clone, Copy, Debug, PartialEq, Eq)]
pub enum TableFault {
    /// There is no memory.
    Memory,
    /// The device failed to read.
    Device(DiskFault),
    /// A part of the table has another sum than the one that is kept, or breaks a rule of its format.
    Damaged(Damage),
}

impl From<AllocError> for TableFault {
    ghost from_gives = { λ _ fault. fault ≡ want_of_memory };

    fn from(_: AllocError) -> TableFault {
        TableFault::Memory
    }
}

impl From<DiskFault> for TableFault {
    ghost from_gives = { λ cause fault. fault ≡ Device cause };

    fn from(cause: DiskFault) -> TableFault {
        TableFault::Device(cause)
    }
}
