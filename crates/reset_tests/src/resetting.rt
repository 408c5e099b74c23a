//! Settings that change, and stores that grow.
use crate::asserts::{check_same, check_same_at, check_that, check_that_at};
use byte_fields::fnv1a;
use disk_mem::MemDisk;
use disk_trait::Disk;
use filter_api::{Field, Settings};
use std::alloc::Global;
use std::test::Fail;
use store_core::{Explained, Limit, StoreError, Tended};
use test_stores::{
    BASE, Change, Left, PlainStore, apply, changed, disk_of, failing_behind, is_not_the_last,
    left_by, opened,
};

// The gates of the slots, and their bodies.
const GATE_A: usize = 0;

const GATE_B: usize = 131_072;

const BODY_A: usize = 8;

const BODY_B: usize = 131_080;

// In a body: the number of pages, the settings of new tables, the first row, and the settings in a row.
const PAGES_AT: usize = 16;

const SETTINGS_AT: usize = 20;

const ROWS_AT: usize = 64;

const ROW_BYTES: usize = 64;

const ROW_SETTINGS_AT: usize = 56;

const HASHED: Settings = Settings {
    hash_bits: 8,
    real_bits: 0,
    ratio: 64,
};

const OTHERS: Settings = Settings {
    hash_bits: 8,
    real_bits: 3,
    ratio: 7,
};

// Settings as a body has them.
const BASE_BYTES: [u8; 8] = [0, 0, 0x40, 0, 0, 0, 0, 0];

const HASHED_BYTES: [u8; 8] = [8, 0, 0x40, 0, 0, 0, 0, 0];

const OTHERS_BYTES: [u8; 8] = [8, 3, 7, 0, 0, 0, 0, 0];

// Two keys that differ in their second byte, in one table.
const TWO_KEYS: [Change<'static>; 3] = [
    Change::Put(b"aa1", b"\x01"),
    Change::Put(b"ab1", b"\x02"),
    Change::Flush,
];

// Four tables of level 0, of a key each: they are to be merged.
const FOUR: [Change<'static>; 8] = [
    Change::Put(b"a", b"\x01"),
    Change::Flush,
    Change::Put(b"b", b"\x01"),
    Change::Flush,
    Change::Put(b"c", b"\x01"),
    Change::Flush,
    Change::Put(b"d", b"\x01"),
    Change::Flush,
];

// Whether these bytes stand at a place.
fn stands(disk: &MemDisk, place: usize, bytes: &[u8]) -> bool {
    disk.bytes().get(place..).unwrap_or(b"").starts_with(bytes)
}

// Whether these bytes stand at a place of a body.
fn body_has(disk: &MemDisk, body: usize, place: usize, bytes: &[u8]) -> bool {
    let body = disk.bytes().get(body..).unwrap_or(b"");
    body.get(place..).unwrap_or(b"").starts_with(bytes)
}

// Whether a body has this epoch, of one byte, and these settings of new tables.
fn is_body(disk: &MemDisk, body: usize, epoch: u8, settings: &[u8; 8]) -> bool {
    stands(disk, body, b"SRFM\x02\x00")
        && body_has(disk, body, 8, &[epoch, 0, 0, 0, 0, 0, 0, 0])
        && body_has(disk, body, SETTINGS_AT, &settings[..4])
}

// Whether the row of this number has these settings.
fn is_row(disk: &MemDisk, body: usize, number: usize, settings: &[u8; 8]) -> bool {
    let row = number.saturating_mul(ROW_BYTES).saturating_add(ROWS_AT);
    let place = row.saturating_add(ROW_SETTINGS_AT).saturating_add(body);
    stands(disk, place, settings)
}

fn explained(tables: u64, admitted: u64, blocks: u64) -> Result<Explained, StoreError> {
    Ok(Explained {
        tables,
        admitted,
        blocks,
    })
}

// ---- settings

// The table that stands keeps its own; the next one, and what a compaction makes, have the new ones.
#[test]
fn new_tables_get_the_new_settings(rt: HostRuntime) -> Result<(), Fail> {
    let alloc = rt.alloc();
    let mut disk = disk_of(alloc, &[])?;
    let mut store = changed(alloc, &mut disk, &TWO_KEYS)?;
    check_same(&rt, &store.set_settings(&mut *disk, HASHED), &Ok(()));
    check_that(&rt, is_body(&disk, BODY_A, 3, &HASHED_BYTES));
    check_that(&rt, is_row(&disk, BODY_A, 0, &BASE_BYTES));
    check_that(&rt, is_body(&disk, BODY_B, 2, &BASE_BYTES));
    check_that(
        &rt,
        stands(&disk, GATE_A, &[1]) && stands(&disk, GATE_B, &[1]),
    );
    check_same(&rt, &store.explain(b"aa9"), &explained(1, 1, 1));
    apply(&mut store, &mut disk, Change::Put(b"b", b"\x01"))?;
    apply(&mut store, &mut disk, Change::Flush)?;
    check_same(&rt, &store.explain(b"b9"), &explained(2, 0, 0));
    check_that(
        &rt,
        is_row(&disk, BODY_B, 0, &HASHED_BYTES) && is_row(&disk, BODY_B, 1, &BASE_BYTES),
    );
    store.compact(&mut *disk)?;
    check_same(&rt, &store.explain(b"aa9"), &explained(1, 0, 0));
    let again = opened(alloc, &mut disk)?;
    check_same(&rt, &again.explain(b"aa9"), &explained(1, 0, 0));
    Ok(())
}

// The settings that stand are installed too.
#[test]
fn the_same_settings_have_an_epoch_of_their_own(rt: HostRuntime) -> Result<(), Fail> {
    let alloc = rt.alloc();
    let mut disk = disk_of(alloc, &[])?;
    let mut store = changed(alloc, &mut disk, &TWO_KEYS)?;
    check_same(&rt, &store.set_settings(&mut *disk, BASE), &Ok(()));
    check_that(&rt, is_body(&disk, BODY_A, 3, &BASE_BYTES));
    check_same(&rt, &store.set_settings(&mut *disk, OTHERS), &Ok(()));
    check_that(
        &rt,
        is_body(&disk, BODY_B, 4, &OTHERS_BYTES) && is_row(&disk, BODY_B, 0, &BASE_BYTES),
    );
    Ok(())
}

// ---- pages

// A new store of 512 pages that has no room for one entry more of this value.
fn full(alloc: Global, disk: &mut MemDisk, value: &[u8]) -> Result<Box<PlainStore>, Fail> {
    let mut store = changed(alloc, disk, &[])?;
    for key in 1..22u8 {
        store.put(disk, &[key], value)?;
    }
    Ok(store)
}

#[test]
fn a_full_store_that_grows_has_room(rt: HostRuntime) -> Result<(), Fail> {
    let alloc = rt.alloc();
    let value = vec![in alloc; 0; 65_536]?;
    let mut disk = disk_of(alloc, &[])?;
    let mut store = full(alloc, &mut disk, &value)?;
    let no_room = Err(StoreError::Full { need: 53, gap: 2 });
    check_same(&rt, &store.put(&mut *disk, &[22], &value), &no_room);
    check_same(&rt, &store.grow(&mut *disk, 600), &Ok(()));
    check_same(&rt, &store.put(&mut *disk, &[22], &value), &Ok(()));
    let mut again = opened(alloc, &mut disk)?;
    for key in 1..23u8 {
        check_same(
            &rt,
            &again.get(&mut *disk, &[key]),
            &Ok(Some(value.as_slice())),
        );
    }
    Ok(())
}

// A full store, opened anew from its bytes, that is to have so many pages: whether that is answered so, also the put of one
// entry more, and whether a refusal makes no call of the device.
fn full_grows_so(
    alloc: Global,
    first: &[u8],
    pages: u64,
    grown: Result<(), StoreError>,
    put: Result<(), StoreError>,
) -> Result<bool, Fail> {
    let value = vec![in alloc; 0; 65_536]?;
    let mut disk = disk_of(alloc, first)?;
    let mut store = opened(alloc, &mut disk)?;
    let calls = disk.calls();
    let answer = store.grow(&mut *disk, pages);
    let silent = disk.calls() == calls;
    Ok(answer == grown && silent == grown.is_err() && store.put(&mut *disk, &[22], &value) == put)
}

// The last is 512 in its low 32 bits.
#[test]
fn a_full_store_grows_by_more_pages_alone(rt: HostRuntime) -> Result<(), Fail> {
    let alloc = rt.alloc();
    let value = vec![in alloc; 0; 65_536]?;
    let mut first = disk_of(alloc, &[])?;
    full(alloc, &mut first, &value)?;
    let bad = Err(StoreError::BadSettings(Field::Pages));
    let no_room = Err(StoreError::Full { need: 53, gap: 2 });
    let rows = [
        (512, Ok(()), no_room),
        (16_777_216, Ok(()), Ok(())),
        (511, bad, no_room),
        (16_777_217, bad, no_room),
        (4_294_967_808, bad, no_room),
    ];
    for (pages, grown, put) in rows {
        let so = full_grows_so(alloc, first.bytes(), pages, grown, put)?;
        check_that_at(&rt, &pages, so);
    }
    Ok(())
}

// Whether a store grows to these pages, as the manifest then has them; the present number is in range. The device is as long
// as before.
fn grows_to(alloc: Global, pages: u64) -> Result<bool, Fail> {
    let mut disk = disk_of(alloc, &[])?;
    let mut store = changed(alloc, &mut disk, &TWO_KEYS)?;
    let length = disk.bytes().len();
    store.grow(&mut *disk, pages)?;
    let told = (pages as u32).to_le_bytes();
    let again = opened(alloc, &mut disk)?;
    Ok(
        is_body(&disk, BODY_A, 3, &BASE_BYTES)
            && stands(&disk, BODY_A + PAGES_AT, &told)
            && disk.bytes().len() == length
            && again.explain(b"aa9") == explained(1, 1, 1),
    )
}

#[test]
fn the_most_and_the_present_pages_are_in_range(rt: HostRuntime) -> Result<(), Fail> {
    for pages in [512, 600, 16_777_216] {
        check_that_at(&rt, &pages, grows_to(rt.alloc(), pages)?);
    }
    Ok(())
}

// ---- numbers out of range

// The last is 512 in its low 32 bits.
#[test]
fn pages_out_of_range_are_told_without_a_call(rt: HostRuntime) -> Result<(), Fail> {
    let alloc = rt.alloc();
    let mut disk = disk_of(alloc, &[])?;
    let mut store = changed(alloc, &mut disk, &TWO_KEYS)?;
    let calls = disk.calls();
    let bad = Err(StoreError::BadSettings(Field::Pages));
    for pages in [0, 5, 511, 16_777_217, 4_294_967_808] {
        check_same_at(&rt, &pages, &store.grow(&mut *disk, pages), &bad);
    }
    check_same(&rt, &disk.calls(), &calls);
    Ok(())
}

#[test]
fn the_first_setting_out_of_range_is_told_without_a_call(rt: HostRuntime) -> Result<(), Fail> {
    let alloc = rt.alloc();
    let mut disk = disk_of(alloc, &[])?;
    let mut store = changed(alloc, &mut disk, &TWO_KEYS)?;
    let calls = disk.calls();
    let rows = [
        (33, 0, Field::HashBits),
        (33, 33, Field::HashBits),
        (32, 33, Field::RealBits),
    ];
    for (hash_bits, real_bits, field) in rows {
        let settings = Settings {
            hash_bits,
            real_bits,
            ratio: 64,
        };
        let bad = Err(StoreError::BadSettings(field));
        check_same(&rt, &store.set_settings(&mut *disk, settings), &bad);
    }
    check_same(&rt, &disk.calls(), &calls);
    check_same(&rt, &store.explain(b"aa9"), &explained(1, 1, 1));
    Ok(())
}

// ---- the last epoch

// Gives a body of so many rows eight bytes at a place, and a sum that is right.
fn respell(
    disk: &mut MemDisk,
    body: u32,
    rows: u8,
    place: u8,
    bytes: [u8; 8],
) -> Result<(), StoreError> {
    let start = u64::from(body);
    disk.write(start + u64::from(place), &bytes)?;
    let length = usize::from(rows) * ROW_BYTES + ROWS_AT;
    let rest = disk.bytes().get(start as usize..).unwrap_or(b"");
    let sum = fnv1a(rest.get(..length).unwrap_or(b""));
    disk.write(start + length as u64, &sum.to_le_bytes())?;
    disk.sync()?;
    Ok(())
}

// A filter shows no ratio, so any is read, and stays in the row.
#[test]
fn a_row_of_any_ratio_is_opened(rt: HostRuntime) -> Result<(), Fail> {
    let alloc = rt.alloc();
    let ratio = [0, 0, 0xff, 0, 0, 0, 0, 0];
    let mut disk = disk_of(alloc, &[])?;
    changed(alloc, &mut disk, &TWO_KEYS)?;
    respell(&mut disk, BODY_B as u32, 1, 120, ratio)?;
    let mut store = opened(alloc, &mut disk)?;
    apply(&mut store, &mut disk, Change::Put(b"b", b"\x01"))?;
    apply(&mut store, &mut disk, Change::Flush)?;
    check_that(
        &rt,
        is_row(&disk, BODY_A, 0, &BASE_BYTES) && is_row(&disk, BODY_A, 1, &ratio),
    );
    Ok(())
}

// A store after some changes, with the last epoch in the body in use.
fn at_last_epoch(
    alloc: Global,
    disk: &mut MemDisk,
    changes: &[Change<'_>],
    body: u32,
    rows: u8,
) -> Result<Box<PlainStore>, Fail> {
    changed(alloc, disk, changes)?;
    respell(disk, body, rows, 8, [0xff; 8])?;
    Ok(opened(alloc, disk)?)
}

#[test]
fn no_epoch_is_left(rt: HostRuntime) -> Result<(), Fail> {
    let alloc = rt.alloc();
    let mut disk = disk_of(alloc, &[])?;
    let mut store = at_last_epoch(alloc, &mut disk, &TWO_KEYS, BODY_B as u32, 1)?;
    let calls = disk.calls();
    let last = Err(StoreError::Limit(Limit::Epoch));
    check_same(&rt, &store.set_settings(&mut *disk, BASE), &last);
    check_same(&rt, &store.grow(&mut *disk, 600), &last);
    check_same(&rt, &store.grow(&mut *disk, 512), &last);
    let bad = Err(StoreError::BadSettings(Field::Pages));
    check_same(&rt, &store.grow(&mut *disk, 5), &bad);
    check_same(&rt, &disk.calls(), &calls);
    Ok(())
}

// ---- a merge that runs

// Merge slices of a block each, until none works: how many did.
fn slices(store: &mut PlainStore, disk: &mut MemDisk) -> Result<usize, StoreError> {
    let mut worked = 0usize;
    for _ in 0..20 {
        match store.tend(disk, 1)? {
            Tended::Worked => worked = worked.saturating_add(1),
            _ => return Ok(worked),
        }
    }
    Ok(worked)
}

// How many merge slices the merge of the four tables takes from its beginning.
fn slices_of_all(alloc: Global) -> Result<usize, Fail> {
    let mut disk = disk_of(alloc, &[])?;
    let mut store = changed(alloc, &mut disk, &FOUR)?;
    Ok(slices(&mut store, &mut disk)?)
}

// The store with the merge of the four tables begun.
fn merging(alloc: Global, disk: &mut MemDisk) -> Result<Box<PlainStore>, StoreError> {
    let mut store = changed(alloc, disk, &FOUR)?;
    store.tend(disk, 1)?;
    Ok(store)
}

// Four flushes make epoch 5, in slot A; the reset makes epoch 6, in slot B; the merge makes epoch 7, in slot A.
#[test]
fn a_merge_begins_anew_with_other_settings(rt: HostRuntime) -> Result<(), Fail> {
    let alloc = rt.alloc();
    let mut disk = disk_of(alloc, &[])?;
    let mut store = merging(alloc, &mut disk)?;
    check_same(&rt, &store.set_settings(&mut *disk, OTHERS), &Ok(()));
    check_that(&rt, is_body(&disk, BODY_B, 6, &OTHERS_BYTES));
    check_same(&rt, &slices(&mut store, &mut disk)?, &slices_of_all(alloc)?);
    check_that(
        &rt,
        is_body(&disk, BODY_A, 7, &OTHERS_BYTES) && is_row(&disk, BODY_A, 0, &OTHERS_BYTES),
    );
    Ok(())
}

#[test]
fn a_merge_begins_anew_in_a_store_that_grew(rt: HostRuntime) -> Result<(), Fail> {
    let alloc = rt.alloc();
    let mut disk = disk_of(alloc, &[])?;
    let mut store = merging(alloc, &mut disk)?;
    check_same(&rt, &store.grow(&mut *disk, 600), &Ok(()));
    check_that(&rt, is_body(&disk, BODY_B, 6, &BASE_BYTES));
    check_same(&rt, &slices(&mut store, &mut disk)?, &slices_of_all(alloc)?);
    check_that(
        &rt,
        is_body(&disk, BODY_A, 7, &BASE_BYTES) && is_row(&disk, BODY_A, 0, &BASE_BYTES),
    );
    Ok(())
}

// The device of the store whose merge nothing comes between.
fn merged(alloc: Global) -> Result<Box<MemDisk>, Fail> {
    let mut disk = disk_of(alloc, &[])?;
    let mut store = merging(alloc, &mut disk)?;
    slices(&mut store, &mut disk)?;
    Ok(disk)
}

// One merge slice is done already.
#[test]
fn a_merge_goes_on_where_numbers_are_out_of_range(rt: HostRuntime) -> Result<(), Fail> {
    let alloc = rt.alloc();
    let mut disk = disk_of(alloc, &[])?;
    let mut store = merging(alloc, &mut disk)?;
    let settings = Settings {
        hash_bits: 8,
        real_bits: 33,
        ratio: 7,
    };
    let bits = Err(StoreError::BadSettings(Field::RealBits));
    check_same(&rt, &store.set_settings(&mut *disk, settings), &bits);
    let pages = Err(StoreError::BadSettings(Field::Pages));
    check_same(&rt, &store.grow(&mut *disk, 511), &pages);
    check_same(
        &rt,
        &slices(&mut store, &mut disk)?.saturating_add(1),
        &slices_of_all(alloc)?,
    );
    check_that(
        &rt,
        is_body(&disk, BODY_B, 6, &BASE_BYTES) && is_row(&disk, BODY_B, 0, &BASE_BYTES),
    );
    check_that(&rt, disk.bytes() == merged(alloc)?.bytes());
    Ok(())
}

// How many blocks are read until the merge of the four tables is refused its install.
#[test]
fn a_merge_goes_on_at_the_last_epoch(rt: HostRuntime) -> Result<(), Fail> {
    let alloc = rt.alloc();
    let mut disk = disk_of(alloc, &[])?;
    let mut store = at_last_epoch(alloc, &mut disk, &FOUR, BODY_A as u32, 4)?;
    let last = Err(StoreError::Limit(Limit::Epoch));
    check_that(&rt, matches!(store.tend(&mut *disk, 1), Ok(Tended::Worked)));
    check_same(&rt, &store.set_settings(&mut *disk, OTHERS), &last);
    check_same(&rt, &store.grow(&mut *disk, 600), &last);
    let before = disk.reads();
    check_same(
        &rt,
        &slices(&mut store, &mut disk),
        &Err(StoreError::Limit(Limit::Epoch)),
    );
    check_same(&rt, &disk.reads().saturating_sub(before), &3);
    Ok(())
}

// ---- calls that fail

// A change of the numbers of a store.
#[derive(Clone, Copy)]
enum Reset {
    Settings,
    Pages,
}

fn make_reset(store: &mut PlainStore, disk: &mut MemDisk, change: Reset) -> Result<(), StoreError> {
    match change {
        Reset::Settings => store.set_settings(disk, HASHED),
        Reset::Pages => store.grow(disk, 600),
    }
}

// Whether a body has the numbers behind the change.
fn has_changed(disk: &MemDisk, body: usize, change: Reset) -> bool {
    match change {
        Reset::Settings => body_has(disk, body, SETTINGS_AT, &HASHED_BYTES[..4]),
        Reset::Pages => body_has(disk, body, PAGES_AT, &[0x58, 2, 0, 0]),
    }
}

// The store with the merge of the four tables begun, and room for all calls of its device that follow.
fn merging_with_room(alloc: Global) -> Result<(Box<PlainStore>, Box<MemDisk>), StoreError> {
    let mut disk = disk_of(alloc, &[])?;
    let store = merging(alloc, &mut disk)?;
    disk.reserve(100, 1_000_000)?;
    Ok((store, disk))
}

// Whether a reset is done; or, for want of memory, makes no call of the device, and the merge ends as if it had not been asked.
fn is_done_or_leaves_the_merge(alloc: Global, change: Reset) -> Result<bool, Fail> {
    let (mut store, mut disk) = match merging_with_room(alloc) {
        Ok(both) => both,
        Err(_) => merging_with_room(alloc)?,
    };
    let calls = disk.calls();
    match make_reset(&mut store, &mut disk, change) {
        Ok(()) => Ok(has_changed(&disk, BODY_B, change)),
        Err(why) => {
            let silent = disk.calls() == calls && disk.starved() == 0;
            slices(&mut store, &mut disk)?;
            let same = disk.bytes() == merged(alloc)?.bytes();
            Ok(why == StoreError::Memory && silent && same)
        }
    }
}

// `tools/refuse-allocations` plays it once for each allocation, with that one refused.
#[test]
fn each_allocation_of_a_reset_may_be_refused(rt: HostRuntime) -> Result<(), Fail> {
    for change in [Reset::Settings, Reset::Pages] {
        check_that(&rt, is_done_or_leaves_the_merge(rt.alloc(), change)?);
    }
    check_that_at(&rt, &"the last allocation", is_not_the_last(rt.alloc()));
    Ok(())
}

// A reset of which a call fails stops the store. What a crash leaves is the store before it or behind it: a flush goes into
// the slot that is not in use, with the numbers of the one that is.
fn is_stopped(
    alloc: Global,
    first: &[u8],
    change: Reset,
    call: usize,
    left: Left,
) -> Result<bool, Fail> {
    let mut disk = failing_behind(alloc, first, call)?;
    let mut store = opened(alloc, &mut disk)?;
    let failed = matches!(
        make_reset(&mut store, &mut disk, change),
        Err(StoreError::Device(_))
    );
    let stopped = matches!(
        make_reset(&mut store, &mut disk, change),
        Err(StoreError::Stopped)
    );
    let mut after = left_by(alloc, &disk, left)?;
    let mut again = opened(alloc, &mut after)?;
    apply(&mut again, &mut after, Change::Put(b"b", b"\x03"))?;
    apply(&mut again, &mut after, Change::Flush)?;
    let before = is_body(&after, BODY_A, 3, &BASE_BYTES)
        && stands(&after, BODY_A + PAGES_AT, &[0, 2, 0, 0]);
    let behind = stands(&after, BODY_B + 8, &[4]) && has_changed(&after, BODY_B, change);
    let found = again.get(&mut *after, b"aa1") == Ok(Some(b"\x01".as_slice()));
    Ok(failed && stopped && store.is_stopped() && found && (before != behind))
}

// The gate is closed, the body written, the gate opened, each with a sync.
#[test]
fn a_reset_is_stopped_at_each_call(rt: HostRuntime) -> Result<(), Fail> {
    let alloc = rt.alloc();
    let mut first = disk_of(alloc, &[])?;
    changed(alloc, &mut first, &TWO_KEYS)?;
    for change in [Reset::Settings, Reset::Pages] {
        for call in 0..6 {
            for left in [Left::Whole, Left::Lost, Left::Sevens] {
                let stopped = is_stopped(alloc, first.bytes(), change, call, left)?;
                check_that_at(&rt, &call, stopped);
            }
        }
    }
    Ok(())
}

// Six calls and no read.
#[test]
fn a_reset_reads_nothing(rt: HostRuntime) -> Result<(), Fail> {
    let alloc = rt.alloc();
    for change in [Reset::Settings, Reset::Pages] {
        let mut disk = disk_of(alloc, &[])?;
        let mut store = changed(alloc, &mut disk, &FOUR)?;
        let (calls, reads) = (disk.calls(), disk.reads());
        check_same(&rt, &make_reset(&mut store, &mut disk, change), &Ok(()));
        check_same(&rt, &disk.calls().saturating_sub(calls), &6);
        check_same(&rt, &disk.reads(), &reads);
    }
    Ok(())
}
