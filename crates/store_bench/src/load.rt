//! What a store has, and what is asked of it.
use crate::kinds::Kind;
use anyhow::{Result, bail};
use bench_kit::Options;
use filter_api::Settings;

/// What is wanted.
#[derive(Clone, Copy, PartialEq, Eq)]
pub enum Wanted {
    /// What the calls take, each beside its floor.
    Times,
    /// What the calls find.
    Counts,
    /// What a merge takes beside its floor.
    Merge,
    /// What puts and their merge slices write, the longest merge slice, and what a compacted store reads for what is
    /// not there.
    Puts,
    /// How many pages the pairs take in a compacted store.
    Sizes,
    /// What a check of a compacted store takes beside its floor.
    Check,
}

/// What a store has, and what is asked of it.
#[derive(Clone, Copy)]
pub struct Load {
    pub wanted: Wanted,
    pub pairs: usize,
    /// How many tables of level 0 there are.
    pub tables: usize,
    pub settings: Settings,
    /// The bytes of each value.
    pub value_bytes: usize,
    /// How often the store is asked, merged or checked.
    pub calls: usize,
    pub seed: u64,
    /// What keys are like, where that is asked.
    pub kind: Option<Kind>,
}

impl Load {
    /// The load that the options of the bench ask for.
    pub fn new(options: Options<'_>) -> Result<Load> {
        Ok(Load {
            wanted: parse_wanted(options.measure)?,
            pairs: options.count as usize,
            tables: options.tables as usize,
            settings: Settings {
                hash_bits: u8::try_from(options.hash_bits)?,
                real_bits: u8::try_from(options.real_bits)?,
                ratio: u16::try_from(options.ratio)?,
            },
            value_bytes: options.value_bytes as usize,
            calls: options.calls as usize,
            seed: options.seed,
            kind: Kind::named(options.keys),
        })
    }
}

fn parse_wanted(word: &str) -> Result<Wanted> {
    match word {
        "times" => Ok(Wanted::Times),
        "counts" => Ok(Wanted::Counts),
        "merge" => Ok(Wanted::Merge),
        "puts" => Ok(Wanted::Puts),
        "sizes" => Ok(Wanted::Sizes),
        "check" => Ok(Wanted::Check),
        _ => bail!("no such measure: see --help"),
    }
}
