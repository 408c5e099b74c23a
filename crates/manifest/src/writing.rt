//! The bytes of a version's body.
ghost use Rattle.std.specs.Prelude.{◌≡◌, ◌≤◌, ◌++◌, length, OnOk, IfOk};
ghost use Rattle.key_base.specs.Limits.{max_tables};
ghost use Rattle.manifest_model.specs.Version.{body_bytes, prefix_bytes, head_bytes};

use crate::version::Version;
use byte_fields::{fnv1a, push_fields, push_number};
use key_base::LOG_PAGES;
use manifest_model::push_row;
use std::alloc::{AllocError, Global};

/// The bytes of a body's head.
pub const HEAD_BYTES: usize = 64;

/// The bytes of each row behind it.
pub const ROW_BYTES: usize = 64;

/// The bytes of the sum behind these.
pub(crate) const SUM_BYTES: usize = 8;

const HEAD_WIDTHS: [usize; 14] = [4, 2, 2, 8, 4, 1, 1, 2, 4, 4, 8, 8, 8, 8];

/// `SRFM`.
pub(crate) const MAGIC: u32 = 0x4D465253;

/// The format that is written: in it each row has its own settings.
pub(crate) const FORMAT: u16 = 2;

/// The other one that is read: in it each row has the settings of the head.
pub(crate) const FIRST_FORMAT: u16 = 1;

/// The bytes of a version's body, with this epoch in the place of its own.
#[tactic(auto, unfolding(manifest_model::specs::Version::prefix_bytes, manifest_model::specs::Version::body_bytes))]
pub(crate) fn body_of(alloc: Global, version: &Version, epoch: u64) -> Result<Vec<u8>, AllocError>
    requires { length version.now.version.rows ≤ max_tables }
    ensures { IfOk result (λ bytes. bytes.items ≡ body_bytes 2 (record version.now.version { epoch = epoch })) }
{
    let rows = version.rows.as_slice();
    let mut out = Vec::with_capacity(alloc, HEAD_BYTES + ROW_BYTES * rows.len() + SUM_BYTES)?;
    push_head(version, epoch, &mut out)?;
    for row in rows {
        push_row(FORMAT, row, &mut out)?;
    }
    let sum = fnv1a(out.as_slice());
    push_number(sum, SUM_BYTES, &mut out)?;
    Ok(out)
}

#[tactic(auto, unfolding(manifest_model::specs::Version::head_bytes))]
fn push_head(version: &Version, epoch: u64, out: &mut Vec<u8>) -> Result<(), AllocError>
    ensures { OnOk result (out.new.items ≡ out.old.items ++ head_bytes 2 (record version.now.version { epoch = epoch })) }
{
    let numbers = [
        u64::from(MAGIC),
        u64::from(FORMAT),
        version.rows.len() as u64,
        epoch,
        u64::from(version.pages),
        u64::from(version.settings.hash_bits),
        u64::from(version.settings.real_bits),
        u64::from(version.settings.ratio),
        u64::from(LOG_PAGES) * (u64::from(version.log_area) + 1),
        u64::from(LOG_PAGES),
        0,
        0,
        0,
        0,
    ];
    push_fields(&HEAD_WIDTHS, &numbers, out)
}
