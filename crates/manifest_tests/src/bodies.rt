//! The bytes of a version's body, as the format has them.
use crate::asserts::{check_same, check_that};
use byte_fields::Row;
use manifest_model::{Version, body_bytes};
use std::alloc::Global;
use std::test::Fail;

fn formatted(alloc: Global) -> Version {
    Version {
        hash_bits: 0,
        real_bits: 0,
        ratio: 64,
        pages: 512,
        epoch: 1,
        log_page: 64,
        rows: Vec::new(alloc),
    }
}

#[test]
fn the_body_after_a_format(rt: HostRuntime) -> Result<(), Fail> {
    let bytes = body_bytes(rt.alloc(), 2, &formatted(rt.alloc()))?;
    let front = [
        0x53, 0x52, 0x46, 0x4D, 2, 0, 0, 0, 1, 0, 0, 0, 0, 0, 0, 0, 0, 2, 0, 0, 0, 0, 0x40, 0,
        0x40, 0, 0, 0, 0x40, 0, 0, 0,
    ];
    check_same(&rt, &bytes.len(), &72);
    check_that(&rt, bytes.as_slice().starts_with(front.as_slice()));
    check_that(
        &rt,
        bytes.as_slice().ends_with([0xF8, 0x2D, 0xC8, 0xE6, 0x65, 0x4F, 0xF8, 0x95].as_slice()),
    );
    Ok(())
}

// Settings of new tables: four hash bits, three real bits and the ratio 16.
#[test]
fn the_head_of_another_variant(rt: HostRuntime) -> Result<(), Fail> {
    let mut version = formatted(rt.alloc());
    version.hash_bits = 4;
    version.real_bits = 3;
    version.ratio = 16;
    let bytes = body_bytes(rt.alloc(), 2, &version)?;
    check_same(
        &rt,
        &bytes.as_slice().get(20..24),
        &Some([4, 3, 0x10, 0].as_slice()),
    );
    check_that(
        &rt,
        bytes.as_slice().ends_with([0x8D, 0x46, 0x42, 0xEF, 0x05, 0xFD, 0x8D, 0x77].as_slice()),
    );
    Ok(())
}

// A table of level 1 with eight hash bits, three real bits and the ratio 7.
fn merged() -> Row {
    Row {
        level: 1,
        first_page: 204,
        data_pages: 1,
        index_pages: 1,
        filter_pages: 1,
        entries: 4,
        index_len: 27,
        filter_len: 45,
        index_sum: 0x0102_0304_0506_0708,
        filter_sum: 9,
        hash_bits: 8,
        real_bits: 3,
        ratio: 7,
    }
}

#[test]
fn a_row_of_a_merged_table(rt: HostRuntime) -> Result<(), Fail> {
    let mut version = formatted(rt.alloc());
    version.epoch = 6;
    version.log_page = 128;
    version.rows.push(merged())?;
    let bytes = body_bytes(rt.alloc(), 2, &version)?;
    let front = [0x53, 0x52, 0x46, 0x4D, 2, 0, 1, 0, 6, 0, 0, 0, 0, 0, 0, 0];
    check_same(&rt, &bytes.len(), &136);
    check_that(&rt, bytes.as_slice().starts_with(front.as_slice()));
    check_same(&rt, &bytes.as_slice().get(68), &Some(&204));
    check_that(
        &rt,
        bytes.as_slice().ends_with([
            8, 3, 7, 0, 0, 0, 0, 0, 0xFF, 0x5B, 0x42, 0xD1, 0x63, 0x8F, 0x7D, 0x6E,
        ]
        .as_slice()),
    );
    Ok(())
}
