//! A log that records are added to.
use anyhow::{Result, bail};
use bench_kit::boxed;
use gate_log::{BUFFER_BYTES, Log, record_need};
use key_base::{MAX_KEY_BYTES, MAX_LOGGED_VALUE_BYTES};
use real_outside::FileOutside;
use std::alloc::Global;

/// The log in the first area of a device, begun anew.
#[derive(Drop)]
pub struct Records {
    log: Log,
    buffer: Vec<u8>,
}

impl Records {
    /// Begins the log, and takes a buffer for the longest record.
    pub fn start(alloc: Global, disk: &mut FileOutside) -> Result<Box<Records>> {
        let Ok(log) = Log::start(disk, 0) else {
            bail!("the log cannot be begun");
        };
        let buffer = vec![in alloc; 0; BUFFER_BYTES]?;
        Ok(boxed(alloc, Records { log, buffer })?)
    }

    /// Adds a put, where it fits.
    pub fn append(&mut self, disk: &mut FileOutside, key: &[u8], value: &[u8]) -> Result<()> {
        let sound = !key.is_empty()
            && key.len() <= MAX_KEY_BYTES
            && value.len() <= MAX_LOGGED_VALUE_BYTES;
        if !sound
            || self.buffer.len() < BUFFER_BYTES
            || !self.log.fits(record_need(key, Some(value)))
        {
            bail!("the log is full");
        }
        match self.log.append(disk, &mut self.buffer, key, Some(value)) {
            Ok(()) => Ok(()),
            Err(_) => bail!("the device failed"),
        }
    }
}
