//! Byte strings in one array.
use anyhow::Result;
use bench_kit::boxed;
use key_base::compare;
use std::alloc::{AllocError, Global};

/// As many halvings as lead to one of any number of strings.
pub(crate) const HALVINGS: u32 = 64;

/// Byte strings one behind the other, and the place at which each begins.
#[derive(Drop)]
pub struct Texts {
    bytes: Vec<u8>,
    starts: Vec<u32>,
}

impl Texts {
    /// No string yet.
    pub fn new(alloc: Global) -> Result<Texts, AllocError> {
        let mut starts = Vec::new(alloc);
        starts.push(0)?;
        Ok(Texts {
            bytes: Vec::new(alloc),
            starts,
        })
    }

    /// No string yet, in a box.
    pub fn in_box(alloc: Global) -> Result<Box<Texts>, AllocError> {
        boxed(alloc, Texts::new(alloc)?)
    }

    /// Adds a string at the end. Fails at 2^32 bytes in all.
    pub fn push(&mut self, text: &[u8]) -> Result<()> {
        let end = u32::try_from(self.bytes.len().saturating_add(text.len()))?;
        self.bytes.extend_from_slice(text)?;
        self.starts.push(end)?;
        Ok(())
    }

    /// How many strings there are.
    pub fn len(&self) -> usize {
        self.starts.len().saturating_sub(1)
    }

    /// The string number `i`, or the empty one where there are not so many.
    #[inline]
    pub fn get(&self, i: usize) -> &[u8] {
        match self
            .bytes
            .get(self.start(i)..self.start(i.saturating_add(1)))
        {
            Some(text) => text,
            None => &[],
        }
    }

    /// The number of the first string above this one, or how many there are, where they stand in rising order.
    #[inline]
    pub fn first_above(&self, text: &[u8]) -> usize {
        let mut low = 0;
        let mut high = self.len();
        for _ in 0..HALVINGS {
            if low >= high {
                return low;
            }
            let middle = low + (high - low) / 2;
            if compare(self.get(middle), text).is_gt() {
                high = middle;
            } else {
                low = middle + 1;
            }
        }
        low
    }

    // The place at which the string number `i` begins.
    #[inline]
    fn start(&self, i: usize) -> usize {
        self.starts.get(i).copied().unwrap_or(0) as usize
    }

    /// The bits that it keeps.
    pub fn bits(&self) -> usize {
        let bytes = self.bytes.len().saturating_mul(8);
        bytes.saturating_add(self.starts.len().saturating_mul(32))
    }
}
