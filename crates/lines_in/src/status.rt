//! The exit statuses of a run.

/// How a run ended; its number is the exit status.
#[derive(Clone, Copy, Debug, PartialEq, Eq)]
pub enum Status {
    /// All was done, and said.
    Done = 0,
    /// Wrong words.
    WrongWords = 2,
    /// The input failed.
    Input = 3,
    /// The device failed.
    Device = 4,
    /// What was read of the device is damaged.
    Damaged = 5,
    /// The output failed.
    Output = 6,
    /// Out of memory.
    Memory = 7,
    /// Not a store, already a store, a number out of range.
    Store = 8,
    /// 2^40 bytes were taken.
    Limit = 9,
    /// The last epoch.
    LastEpoch = 10,
    /// A check found something wrong.
    Findings = 12,
}
