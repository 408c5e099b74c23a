//! Deleted ranges that no command writes yet, put into the log of a store and into the index of its table.
use crate::asserts::{check_same, check_same_at};
use crate::both::{Succinct, checked};
use crate::changes::{mend, put_bytes};
use filter_api::Settings;
use plain_check::{Checked, KeptSum, plain_check};
use std::alloc::Global;
use std::process::Abort;
use std::test::Fail;
use store_core::Store;
use test_kit::{boxed, new_disk};

const BASE: Settings = Settings {
    hash_bits: 0,
    real_bits: 0,
    ratio: 64,
};

// Where the first log area begins, and the second.
const LOG: u64 = 262_144;

const LOG_END: usize = 524_288;

// Where the index of the first table begins, the length of it in the row of slot B, and the sums of index and slot.
const INDEX: u64 = 790_528;

const INDEX_LENGTH: u64 = 131_168;

const INDEX_SUM: u64 = 131_184;

const SLOT: u64 = 131_080;

const SLOT_SUM: u64 = 131_208;

// The bytes that an index of the keys a and d has before its ranges, and the most that it has with them.
const BEFORE: u64 = 26;

// Two ranges: from a up to c, and from d up to e.
const RANGES: [u8; 16] = [2, 0, 0, 0, 1, 0, 0x61, 1, 0, 0x63, 1, 0, 0x64, 1, 0, 0x65];

// Checks that both programs say the same of some bytes. Whether something is wrong with them.
fn is_wrong(rt: &impl Abort, alloc: Global, row: usize, bytes: &[u8]) -> Result<bool, Fail> {
    let found = checked(alloc, bytes)?;
    check_same_at(rt, &row, &found, &plain_check(alloc, bytes)?);
    Ok(matches!(found, Checked::Wrong(_)))
}

// The bytes of a new store, up to the end of its first log area.
fn new_store(alloc: Global) -> Result<Vec<u8>, Fail> {
    let mut disk = new_disk(alloc)?;
    Store::<Succinct>::format(alloc, &mut *disk, BASE, 512)?;
    let mut bytes = Vec::from_slice(alloc, disk.bytes())?;
    bytes.resize(LOG_END, 0)?;
    Ok(bytes)
}

// The bytes of a store with one table, of the keys a and d.
fn flushed(alloc: Global) -> Result<Vec<u8>, Fail> {
    let mut disk = new_disk(alloc)?;
    Store::<Succinct>::format(alloc, &mut *disk, BASE, 512)?;
    let mut store = boxed(alloc, Store::<Succinct>::open_store(alloc, &mut *disk)?)?;
    store.put(&mut *disk, b"a", b"1")?;
    store.put(&mut *disk, b"d", b"4")?;
    store.flush(&mut *disk)?;
    Ok(Vec::from_slice(alloc, disk.bytes())?)
}

#[test]
fn ranges_in_a_log(rt: HostRuntime) -> Result<(), Fail> {
    let alloc = rt.alloc();
    let rows: [(&[u8], bool); 15] = [
        (&[1, 3, 1, 0, 1, 0, 0, 0, 97, 99], false),
        (
            &[
                1, 1, 1, 0, 1, 0, 0, 0, 98, 120, 1, 3, 1, 0, 1, 0, 0, 0, 97, 99, 1, 1, 1, 0, 1, 0,
                0, 0, 97, 120,
            ],
            false,
        ),
        (
            &[
                1, 3, 1, 0, 1, 0, 0, 0, 97, 98, 1, 3, 1, 0, 1, 0, 0, 0, 98, 99,
            ],
            false,
        ),
        (&[1, 4, 1, 0, 1, 0, 0, 0, 97, 99], true),
        (&[1, 3, 0, 0, 1, 0, 0, 0, 99, 0], true),
        (&[1, 3, 1, 0, 0, 0, 0, 0, 97, 0], true),
        (&[1, 3, 1, 4, 1, 0, 0, 0, 97, 99], true),
        (&[1, 3, 1, 0, 1, 4, 0, 0, 97, 99], true),
        (&[1, 3, 1, 0, 1, 0, 0, 1, 97, 99], true),
        (&[1, 3, 1, 0, 1, 0, 0, 0, 99, 99], true),
        (&[1, 3, 1, 0, 1, 0, 0, 0, 100, 99], true),
        (&[1, 3, 1, 0, 1, 0, 0, 255, 97, 99], true),
        (&[1, 2, 1, 0, 0, 0, 0, 0, 107, 1, 9, 1, 0, 0, 0, 0, 0], true),
        (&[0, 3, 1, 0, 1, 0, 0, 0, 99, 97], false),
        (&[1, 3, 1, 0, 1, 0, 0, 0, 97, 99, 7, 3], false),
    ];
    for (row, (records, wrong)) in rows.iter().enumerate() {
        let mut bytes = new_store(alloc)?;
        put_bytes(bytes.as_mut_slice(), LOG, records);
        check_same(&rt, &is_wrong(&rt, alloc, row, bytes.as_slice())?, wrong);
    }
    Ok(())
}

// The store of one table, whose index has ranges, another byte at a place, and this length. All sums are right.
fn with_ranges(
    alloc: Global,
    ranges: &[u8],
    place: u64,
    byte: u8,
    length: u8,
) -> Result<Vec<u8>, Fail> {
    let mut bytes = flushed(alloc)?;
    let out = bytes.as_mut_slice();
    put_bytes(out, INDEX, b"SRFJ");
    put_bytes(out, INDEX.saturating_add(BEFORE), ranges);
    put_bytes(out, INDEX.saturating_add(place), &[byte]);
    put_bytes(out, INDEX_LENGTH, &[length]);
    let index = KeptSum {
        from: INDEX,
        length: u64::from(length),
        at: INDEX_SUM,
    };
    let slot = KeptSum {
        from: SLOT,
        length: 128,
        at: SLOT_SUM,
    };
    mend(out, &[index, slot]);
    Ok(bytes)
}

// One range from a up to c, and where a row says so two. A place of 4 with the byte 1 changes nothing.
#[test]
fn ranges_in_an_index(rt: HostRuntime) -> Result<(), Fail> {
    let alloc = rt.alloc();
    let rows = [
        (1, 4, 1, 36, false),
        (2, 4, 1, 42, false),
        (1, 26, 0, 36, true),
        (1, 26, 2, 36, true),
        (1, 30, 0, 36, true),
        (1, 33, 0, 36, true),
        (1, 35, 0x61, 36, true),
        (1, 32, 0x64, 36, true),
        (1, 3, 0x49, 36, true),
        (1, 35, 0x63, 35, true),
        (1, 35, 0x63, 29, true),
        (1, 35, 0x63, 26, true),
        (1, 36, 0, 37, true),
        (2, 38, 0x62, 42, true),
        (2, 38, 0x63, 42, true),
    ];
    for (row, (ranges, place, byte, length, wrong)) in rows.iter().enumerate() {
        let mut own = RANGES;
        own[0] = *ranges;
        let bytes = with_ranges(alloc, &own, *place, *byte, *length)?;
        check_same(&rt, &is_wrong(&rt, alloc, row, bytes.as_slice())?, wrong);
    }
    Ok(())
}
