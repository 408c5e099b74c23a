//! The pairs of a table, and the keys that it is asked for.
use anyhow::{Result, bail};
use bench_kit::{Numbers, Options};
use key_base::MAX_KEY_BYTES;
use std::alloc::{AllocError, Global};

// The bytes of a number.
const NUMBER_BYTES: usize = 8;

/// What a table has, and how often it is asked.
#[derive(Drop)]
pub struct Load {
    pub pairs: u32,
    /// The bytes of a key, and those of a value.
    pub key: usize,
    pub value: usize,
    pub calls: usize,
    pub seed: u64,
}

impl Load {
    /// The load that the options of the bench ask for.
    pub fn new(options: Options<'_>) -> Result<Load> {
        Ok(Load {
            pairs: u32::try_from(options.count)?,
            key: options.key_bytes as usize,
            value: options.value_bytes as usize,
            calls: options.calls as usize,
            seed: options.seed,
        })
    }

    /// Whether there are pairs, whose keys are long enough to differ, and short enough.
    pub fn check(&self) -> Result<()> {
        if self.pairs == 0 || self.calls == 0 {
            bail!("no pairs, or no calls");
        }
        if self.key < NUMBER_BYTES || self.key > MAX_KEY_BYTES {
            bail!("a key has 8 to 1024 bytes");
        }
        Ok(())
    }
}

/// Makes `key` the last `width` bytes of a number, highest first. The pairs have the even numbers from 0 on.
pub fn write_key(number: u64, key: &mut Vec<u8>, width: usize) -> Result<(), AllocError> {
    let bytes = number.to_be_bytes();
    key.clear();
    for _ in bytes.len()..width {
        key.push(0)?;
    }
    key.extend_from_slice(&bytes[bytes.len().saturating_sub(width)..])
}

/// Keys of random pairs, each with so much added to its number: 0 for keys that are there, 1 for others between them.
pub fn random_keys(alloc: Global, load: &Load, added: u64) -> Result<Vec<Vec<u8>>, AllocError> {
    let mut numbers = Numbers::new(load.seed);
    let mut keys = Vec::with_capacity(alloc, load.calls)?;
    for _ in 0..load.calls {
        let place = numbers.draw_to(u64::from(load.pairs.max(1) - 1));
        let mut key = Vec::with_capacity(alloc, load.key)?;
        write_key(2 * place + added.min(1), &mut key, load.key)?;
        keys.push(key)?;
    }
    Ok(keys)
}
