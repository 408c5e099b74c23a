//! Numbers of a store that a run changes.
use filter_api::Settings;

/// What a store is to have from then on.
#[derive(Clone, Copy, Debug, PartialEq, Eq)]
pub enum NewNumbers {
    /// These settings, for new tables.
    Settings(Settings),
    /// A given number of pages.
    Pages(u64),
}
