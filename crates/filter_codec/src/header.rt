//! The numbers of an image's header, and the places of its sections.

/// The numbers of a header.
#[derive(Clone, Copy)]
pub(crate) struct Header {
    pub(crate) hash_bits: u8,
    pub(crate) real_bits: u8,
    pub(crate) cutoff: u16,
    pub(crate) height: u16,
    pub(crate) leaves: u32,
    pub(crate) dense: u64,
    pub(crate) sparse: u64,
    pub(crate) labels: u64,
}

/// Where the sections begin that stand behind the first.
#[derive(Clone, Copy)]
pub(crate) struct Places {
    pub(crate) dense_children: usize,
    pub(crate) dense_ends: usize,
    pub(crate) labels: usize,
    pub(crate) children: usize,
    pub(crate) louds: usize,
    pub(crate) suffixes: usize,
}
