//! The filters of the tables that a merge has left, built apart.
use crate::outputs::Output;
use anyhow::{Result, bail};
use bench_kit::Watch;
use filter_api::{RangeFilter, Settings};
use filter_model::are_keys;
use key_base::KeyList;
use std::alloc::Global;
use std::time::{CpuClock, Duration};

/// What it takes to build and spell the filters of tables, of which each has the next of the rising keys.
pub fn filter_times<F: RangeFilter>(
    rt: &impl CpuClock,
    alloc: Global,
    settings: Settings,
    outputs: &[Output],
    keys: &[u64],
) -> Result<Duration> {
    let mut time = Duration::ZERO;
    let mut rest = keys;
    for output in outputs {
        let (own, others) = rest.split_at(output.entries.min(rest.len()));
        time = time.saturating_add(filter_time::<F>(rt, alloc, settings, own)?);
        rest = others;
    }
    Ok(time)
}

// What it takes to build and spell the filter of these keys.
fn filter_time<F: RangeFilter>(
    rt: &impl CpuClock,
    alloc: Global,
    settings: Settings,
    keys: &[u64],
) -> Result<Duration> {
    let mut list = KeyList::new(alloc);
    for key in keys {
        list.push(&key.to_be_bytes())?;
    }
    if !are_keys(&list) || settings.check().is_err() {
        bail!("a table without keys, or settings out of range");
    }
    let watch = Watch::start(rt)?;
    let filter = F::build(alloc, &list, settings)?;
    let mut bytes = Vec::new(alloc);
    filter.encode(&mut bytes)?;
    Ok(watch.stop(rt)?)
}
