//! The parts of a device's bytes, what is found wrong with one, and the numbers of a table.

/// A part of the device's bytes that is read as a whole.
#[derive(Clone, Copy, Debug, PartialEq, Eq)]
pub enum Part {
    Manifest,
    Log,
    Index,
    Filter,
    Block,
}

/// What is wrong with a part. `at` is a byte place on the device.
#[derive(Clone, Copy, Debug, PartialEq, Eq)]
pub enum Damage {
    /// The part has another sum than the one that is kept for it.
    Sum {
        part: Part,
        at: u64,
        kept: u64,
        seen: u64,
    },
    /// The part breaks the rule of its format with this number.
    Shape {
        part: Part,
        at: u64,
        rule: u8,
    },
}

/// The numbers of one table in the manifest.
#[derive(Clone, Copy, Debug, PartialEq, Eq)]
pub struct Row {
    /// The level of the table, 0 the newest.
    pub level: u8,
    /// The page at which the table begins.
    pub first_page: u32,
    /// How many pages its blocks take.
    pub data_pages: u32,
    /// How many pages its index takes.
    pub index_pages: u32,
    /// How many pages its filter takes.
    pub filter_pages: u32,
    /// How many entries it has.
    pub entries: u32,
    /// The bytes of its index, without padding.
    pub index_len: u64,
    /// The bytes of its filter, without padding.
    pub filter_len: u64,
    /// The sum that is kept of its index.
    pub index_sum: u64,
    /// The sum that is kept of its filter.
    pub filter_sum: u64,
    /// The bits of a key's hash that its filter keeps.
    pub hash_bits: u8,
    /// The bits of a key that its filter keeps after the stub.
    pub real_bits: u8,
    /// The ratio by which its filter's cutoff was chosen. No byte of the filter shows it.
    pub ratio: u16,
}
