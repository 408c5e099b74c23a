//! A version as a plain value, and the bytes of its body.
ghost use Rattle.std.specs.Prelude.{◌≡◌, ◌++◌, OnOk, IfOk};
ghost use Rattle.manifest_model.specs.Version.{body_bytes, by_format, prefix_bytes, head_bytes, row_bytes};

use byte_fields::{Row, fnv1a, push_fields, push_number};
use key_base::LOG_PAGES;
use std::alloc::{AllocError, Global};
use std::marker::Model;

/// What a manifest says of a store.
#[derive(Drop)]
pub struct Version {
    /// The bits of a key's hash that the filter of a new table keeps.
    pub hash_bits: u8,
    /// The bits of a key that it keeps after the stub.
    pub real_bits: u8,
    /// The ratio by which its cutoff is chosen.
    pub ratio: u16,
    /// The pages of the device.
    pub pages: u32,
    /// How many versions there were, this one included.
    pub epoch: u64,
    /// The first page of the log area in use.
    pub log_page: u32,
    /// The tables: by level, in level 0 the newest first, in a deeper level by rising keys.
    pub rows: Vec<Row>,
}

impl Model for Version {
    ghost use Rattle.manifest_model.specs.Version as spec;

    ghost Value = { spec.Version };

    ghost view = { λ v. record {
      hash_bits = v.hash_bits;
      real_bits = v.real_bits;
      ratio = v.ratio;
      pages = v.pages;
      epoch = v.epoch;
      log_page = v.log_page;
      rows = v.rows.items;
    } };
}

const HEAD_WIDTHS: [usize; 14] = [4, 2, 2, 8, 4, 1, 1, 2, 4, 4, 8, 8, 8, 8];

const ROW_WIDTHS: [usize; 15] = [1, 3, 4, 4, 4, 4, 4, 8, 8, 8, 8, 1, 1, 2, 4];

// `SRFM`.
const MAGIC: u64 = 0x4D465253;

/// The bytes of a version's body in one of its two formats, 1 or 2: the head, a row for each table, and the sum of these.
///
/// In format 1 a row names no settings, so a version is read again from it only where its tables have those of new ones.
#[tactic(auto, unfolding(crate::specs::Version::prefix_bytes, crate::specs::Version::body_bytes))]
pub fn body_bytes(alloc: Global, format: u16, version: &Version) -> Result<Vec<u8>, AllocError>
    ensures { IfOk result (λ bytes. bytes.items ≡ body_bytes format version.now) }
{
    let mut out = Vec::new(alloc);
    push_head(format, version, &mut out)?;
    for row in version.rows.as_slice() {
        push_row(format, row, &mut out)?;
    }
    let sum = fnv1a(out.as_slice());
    push_number(sum, 8, &mut out)?;
    Ok(out)
}

#[tactic(auto, unfolding(crate::specs::Version::head_bytes))]
fn push_head(format: u16, version: &Version, out: &mut Vec<u8>) -> Result<(), AllocError>
    ensures { OnOk result (out.new.items ≡ out.old.items ++ head_bytes format version.now) }
{
    let numbers = [
        MAGIC,
        u64::from(format),
        version.rows.len() as u64,
        version.epoch,
        u64::from(version.pages),
        u64::from(version.hash_bits),
        u64::from(version.real_bits),
        u64::from(version.ratio),
        u64::from(version.log_page),
        u64::from(LOG_PAGES),
        0,
        0,
        0,
        0,
    ];
    push_fields(&HEAD_WIDTHS, &numbers, out)
}

// A number of a row's settings as it is spelled: 0 in format 1.
fn spelled(format: u16, number: u16) -> u64
    ensures { result ≡ by_format format 0 number }
{
    if format == 1 { 0 } else { u64::from(number) }
}

/// Appends the bytes of a row in a format, 1 or 2.
#[tactic(auto, unfolding(crate::specs::Version::row_bytes))]
pub fn push_row(format: u16, row: &Row, out: &mut Vec<u8>) -> Result<(), AllocError>
    ensures { OnOk result (out.new.items ≡ out.old.items ++ row_bytes format row.now) }
{
    let numbers = [
        u64::from(row.level),
        0,
        u64::from(row.first_page),
        u64::from(row.data_pages),
        u64::from(row.index_pages),
        u64::from(row.filter_pages),
        u64::from(row.entries),
        row.index_len,
        row.filter_len,
        row.index_sum,
        row.filter_sum,
        spelled(format, u16::from(row.hash_bits)),
        spelled(format, u16::from(row.real_bits)),
        spelled(format, row.ratio),
        0,
    ];
    push_fields(&ROW_WIDTHS, &numbers, out)
}
