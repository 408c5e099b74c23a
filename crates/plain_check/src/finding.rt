//! What is found.
use byte_fields::Part;
use std::alloc::AllocError;

/// What is wrong.
#[derive(Clone, Copy, Debug, PartialEq, Eq)]
pub enum What {
    /// A part has another sum than the one that is kept of it.
    OtherSum { kept: u64, seen: u64 },
    /// A part breaks the rule of its format with this number.
    BrokenRule { rule: u8 },
    /// A block has other keys than its index says, or they do not rise from the block before.
    WrongKeys,
    /// The blocks of a table have another number of entries than its row says.
    WrongCount,
    /// The leaf of a filter with this number, from 0, is not the one of the table's keys.
    WrongLeaf { number: u64 },
}

/// One thing that is wrong: in which part, and at which byte of the device.
#[derive(Clone, Copy, Debug, PartialEq, Eq)]
pub struct Finding {
    pub part: Part,
    pub at: u64,
    pub what: What,
}

/// Why a part is not read. A place is one in the part.
#[derive(Clone, Copy)]
pub(crate) enum Stop {
    /// There is no memory.
    Memory,
    /// It has another sum than the one that is kept.
    Sum { kept: u64, seen: u64 },
    /// It breaks this rule.
    Rule { place: u64, rule: u8 },
}

impl From<AllocError> for Stop {
    fn from(_: AllocError) -> Stop {
        Stop::Memory
    }
}

/// Stops where a rule is broken.
pub(crate) fn refuse(broken: bool, place: u64, rule: u8) -> Result<(), Stop> {
    if broken {
        return Err(Stop::Rule { place, rule });
    }
    Ok(())
}

/// Stops where a part has another sum than the one that is kept.
pub(crate) fn refuse_sum(kept: u64, seen: u64) -> Result<(), Stop> {
    if kept != seen {
        return Err(Stop::Sum { kept, seen });
    }
    Ok(())
}

/// What stopped the reading of a part that begins at this byte of the device.
pub(crate) fn found(part: Part, at: u64, why: Stop) -> Result<Finding, AllocError> {
    match why {
        Stop::Memory => Err(AllocError),
        Stop::Sum { kept, seen } => Ok(Finding {
            part,
            at,
            what: What::OtherSum { kept, seen },
        }),
        Stop::Rule { place, rule } => Ok(Finding {
            part,
            at: at.saturating_add(place),
            what: What::BrokenRule { rule },
        }),
    }
}
