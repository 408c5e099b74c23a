//! Writes and syncs with nothing around them.
use std::fs::{File, OpenOptions};
use std::io;
use std::os::unix::fs::FileExt;

// Behind both log areas.
const AT: u64 = 1 << 20;

/// A file that is written and synced, and nothing else.
#[derive(Drop)]
pub struct BareFile {
    file: File,
}

impl BareFile {
    /// The file at the path, made if it is not there.
    pub fn open(rt: &HostRuntime, path: &str) -> io::Result<BareFile> {
        let file = OpenOptions::new()
            .read(true)
            .write(true)
            .create(true)
            .open(rt, path)?;
        Ok(BareFile { file })
    }

    /// A write of as many bytes as a record's body and gate, a sync, a write of one byte and a sync.
    pub fn two_pairs(&self) -> io::Result<()> {
        self.file.write_at(&[1; 48], AT + 1)?;
        self.file.sync_data()?;
        self.file.write_at(&[1], AT)?;
        self.file.sync_data()
    }
}
