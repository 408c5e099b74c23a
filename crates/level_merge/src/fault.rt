//! What a merge slice is answered.
ghost use Rattle.std.specs.Prelude.{◌≡◌};
ghost use Rattle.level_merge.specs.Faults.{of_gap, of_table_fault};
ghost use Rattle.level_merge.specs.declared.fault.JobFault.TheVariants.{Device, Memory};

use byte_fields::Damage;
use disk_trait::DiskFault;
use extent_map::NoGap;
use std::alloc::AllocError;
use table_file::TableFault;

/// How far a merge is after a merge slice.
#[derive(Clone, Copy, Debug, PartialEq, Eq)]
pub enum Sliced {
    /// A block was read or an output was written, and something is left to read or to write.
    Working,
    /// Nothing is left: its tables may be installed.
    Ready,
}

/// Why a merge slice is refused. The merge can only be dropped then.
#[derive(Clone, Copy, Debug, PartialEq, Eq)]
pub enum JobFault {
    /// There is no memory.
    Memory,
    /// The device failed.
    Device(DiskFault),
    /// A block that was read is damaged.
    Damaged(Damage),
    /// An output needs `need` pages, and the largest gap has fewer.
    Full { need: u64, gap: u64 },
}

impl From<AllocError> for JobFault {
    ghost from_gives = { λ _ fault. fault ≡ Memory };

    fn from(_: AllocError) -> JobFault {
        JobFault::Memory
    }
}

impl From<DiskFault> for JobFault {
    ghost from_gives = { λ cause fault. fault ≡ Device cause };

    fn from(cause: DiskFault) -> JobFault {
        JobFault::Device(cause)
    }
}

impl From<TableFault> for JobFault {
    ghost from_gives = { λ fault given. given ≡ of_table_fault fault };

    fn from(fault: TableFault) -> JobFault {
        match fault {
            TableFault::Memory => JobFault::Memory,
            TableFault::Device(cause) => JobFault::Device(cause),
            TableFault::Damaged(damage) => JobFault::Damaged(damage),
        }
    }
}

impl From<NoGap> for JobFault {
    ghost from_gives = { λ none fault. fault ≡ of_gap none };

    fn from(none: NoGap) -> JobFault {
        JobFault::Full {
            need: none.need,
            gap: none.largest,
        }
    }
}
