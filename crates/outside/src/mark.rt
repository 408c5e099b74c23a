//! Moments of a run.

/// A say that was done: how many calls the disk had had, and how many bytes had been said with it.
#[derive(Clone, Copy)]
pub struct Mark {
    pub calls: usize,
    pub said: usize,
}
