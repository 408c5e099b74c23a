//! A store of the manifest's first format, as an earlier program left it: it opens, and its next install stands in the second.
use crate::asserts::{check_same, check_that, check_that_at};
use disk_mem::MemDisk;
use std::alloc::Global;
use std::test::Fail;
use store_core::Explained;
use test_stores::{
    BASE, Change, Left, PlainStore, apply, disk_of, failing_behind, left_by, opened,
};

// The bytes that are not 0 of a device of 512 pages, with four hash bits, three real bits and the ratio 16, behind a put of
// 616131 and of 616231 and a flush. They are spelled by a program of some lines apart from this one.
const FORMAT_1: [(usize, &[u8]); 8] = [
    (
        0,
        b"\x01\x00\x00\x00\x00\x00\x00\x00SRFM\x01\x00\x00\x00\x01\x00\x00\x00\x00\x00\x00\x00\x00\x02\x00\x00\x04\x03\x10\x00@\x00\x00\x00@",
    ),
    (72, b"^\x1c\xde\xe2\xdc\xb7\xedE"),
    (
        131_072,
        b"\x01\x00\x00\x00\x00\x00\x00\x00SRFM\x01\x00\x01\x00\x02\x00\x00\x00\x00\x00\x00\x00\x00\x02\x00\x00\x04\x03\x10\x00\x80\x00\x00\x00@",
    ),
    (
        131_148,
        b"\xc0\x00\x00\x00\x01\x00\x00\x00\x01\x00\x00\x00\x01\x00\x00\x00\x02\x00\x00\x00\x1e\x00\x00\x00\x00\x00\x00\x00$\x00\x00\x00\x00\x00\x00\x00\xc2\x15\xdd\xb7\xe4)\xf2\x06\xb6\xad-\xfa\x05\x04\xd0\xa1\x00\x00\x00\x00\x00\x00\x00\x00\xd7\xad\x13\x9f}b\xed\x9a",
    ),
    (
        262_144,
        b"\x01\x01\x03\x00\x01\x00\x00\x00aa1\x01\x01\x01\x03\x00\x01\x00\x00\x00ab1\x02",
    ),
    (
        786_432,
        b"\x1e\x00\x00\x00\x02\x00\x00\x00\x01\x03\x00\x01\x00\x00\x00aa1\x01\x01\x03\x00\x01\x00\x00\x00ab1\x02",
    ),
    (
        790_528,
        b"SRFI\x01\x00\x00\x00\x03\x00aa1\x01\x00\x00\x00\xb3\x18\xc4\x1dkI\xc1Y\x03\x00ab1",
    ),
    (
        794_624,
        b"SURP\x04\x03\x02\x00\x00\x00\x02\x00aa\x00\x02\x00\x00\x00\x01\x00\x00\x00\x02\x00ab\x00\x01\x00\x00\x00\x01",
    ),
];

const BYTES: usize = 798_720;

// Where the bodies of the slots begin.
const BODY_A: usize = 8;

const BODY_B: usize = 131_080;

// Where the second slot begins, and the log behind it.
const SLOT_B: usize = 131_072;

const LOG: usize = 262_144;

// The settings in a head, and in a row of the second format.
const MIXED: [u8; 4] = [4, 3, 16, 0];

fn format_1(alloc: Global) -> Result<Box<MemDisk>, Fail> {
    let mut bytes = vec![in alloc; 0; BYTES]?;
    for (place, part) in FORMAT_1.iter().copied() {
        for (byte, own) in bytes.iter_mut().skip(place).zip(part) {
            *byte = *own;
        }
    }
    Ok(disk_of(alloc, &bytes)?)
}

// Whether these bytes stand at a place.
fn stands(disk: &MemDisk, place: usize, bytes: &[u8]) -> bool {
    disk.bytes().get(place..).unwrap_or(b"").starts_with(bytes)
}

// Whether slot B is as it was.
fn slot_b_stays(alloc: Global, disk: &MemDisk) -> Result<bool, Fail> {
    let first = format_1(alloc)?;
    Ok(
        disk.bytes().get(SLOT_B..LOG).unwrap_or(b"")
            == first.bytes().get(SLOT_B..LOG).unwrap_or(b""),
    )
}

// Whether a get finds this value of a key, or none.
fn finds(store: &mut PlainStore, disk: &mut MemDisk, key: &[u8], value: Option<&[u8]>) -> bool {
    match store.get(disk, key) {
        Ok(found) => found == value,
        Err(_) => false,
    }
}

// Whether the pairs of its table are there, and no other.
fn has_pairs(store: &mut PlainStore, disk: &mut MemDisk) -> bool {
    finds(store, disk, b"aa1", Some(b"\x01".as_slice()))
        && finds(store, disk, b"ab1", Some(b"\x02".as_slice()))
        && finds(store, disk, b"ac1", None)
}

// Its head has the settings of its filter, which format 1 keeps nowhere else: with others the filter would be damage.
#[test]
fn a_store_of_format_1_is_opened(rt: HostRuntime) -> Result<(), Fail> {
    let alloc = rt.alloc();
    let mut disk = format_1(alloc)?;
    check_that(&rt, stands(&disk, BODY_B, b"SRFM\x01\x00\x01\x00\x02"));
    let calls = disk.calls();
    let mut store = opened(alloc, &mut disk)?;
    check_that(&rt, has_pairs(&mut store, &mut disk));
    check_that(&rt, disk.calls() > calls);
    check_that(&rt, stands(&disk, BODY_B, b"SRFM\x01\x00\x01\x00\x02"));
    Ok(())
}

// The slot that was in use stays as it was; each row has the settings of its table's filter.
#[test]
fn its_next_version_stands_in_format_2(rt: HostRuntime) -> Result<(), Fail> {
    let alloc = rt.alloc();
    let mut disk = format_1(alloc)?;
    let mut store = opened(alloc, &mut disk)?;
    apply(&mut store, &mut disk, Change::Put(b"b", b"\x03"))?;
    apply(&mut store, &mut disk, Change::Flush)?;
    check_that(&rt, stands(&disk, BODY_A, b"SRFM\x02\x00\x02\x00\x03"));
    check_that(&rt, stands(&disk, BODY_A + 20, &MIXED));
    for row in [BODY_A + 64, BODY_A + 128] {
        check_that(&rt, stands(&disk, row + 56, &MIXED));
    }
    check_that(&rt, slot_b_stays(alloc, &disk)?);
    let mut again = opened(alloc, &mut disk)?;
    check_that(&rt, has_pairs(&mut again, &mut disk));
    check_same(
        &rt,
        &again.get(&mut *disk, b"b"),
        &Ok(Some(b"\x03".as_slice())),
    );
    Ok(())
}

// The table keeps the settings of the head that it was written under, in a row of its own; the next one gets the new ones.
#[test]
fn other_settings_are_installed_over_format_1(rt: HostRuntime) -> Result<(), Fail> {
    let alloc = rt.alloc();
    let mut disk = format_1(alloc)?;
    let mut store = opened(alloc, &mut disk)?;
    check_same(&rt, &store.set_settings(&mut *disk, BASE), &Ok(()));
    check_that(&rt, stands(&disk, BODY_A, b"SRFM\x02\x00\x01\x00\x03"));
    check_that(&rt, stands(&disk, BODY_A + 20, &[0, 0, 0x40, 0]));
    check_that(&rt, stands(&disk, BODY_A + 120, &[4, 3, 16, 0, 0, 0, 0, 0]));
    check_that(&rt, slot_b_stays(alloc, &disk)?);
    let told = Explained {
        tables: 1,
        admitted: 0,
        blocks: 0,
    };
    check_same(&rt, &store.explain(b"aa9"), &Ok(told));
    apply(&mut store, &mut disk, Change::Put(b"b", b"\x03"))?;
    apply(&mut store, &mut disk, Change::Flush)?;
    check_that(&rt, stands(&disk, BODY_B, b"SRFM\x02\x00\x02\x00\x04"));
    check_that(&rt, stands(&disk, BODY_B + 120, &[0, 0, 0x40, 0]));
    check_that(&rt, stands(&disk, BODY_B + 184, &MIXED));
    let mut again = opened(alloc, &mut disk)?;
    check_that(&rt, has_pairs(&mut again, &mut disk));
    Ok(())
}

// A put and a flush of which a call fails, as a crash leaves them: the version is the old one or the new one.
fn is_kept(alloc: Global, first: &MemDisk, call: usize, left: Left) -> Result<bool, Fail> {
    let mut disk = failing_behind(alloc, first.bytes(), call)?;
    let mut store = opened(alloc, &mut disk)?;
    let put = apply(&mut store, &mut disk, Change::Put(b"b", b"\x03")).is_ok();
    let flushed = put && apply(&mut store, &mut disk, Change::Flush).is_ok();
    let mut after = left_by(alloc, &disk, left)?;
    let mut again = opened(alloc, &mut after)?;
    let found = finds(&mut again, &mut after, b"b", Some(b"\x03".as_slice()));
    Ok(!flushed && has_pairs(&mut again, &mut after) && (found || !put))
}

#[test]
fn an_install_over_format_1_is_stopped_at_each_call(rt: HostRuntime) -> Result<(), Fail> {
    let alloc = rt.alloc();
    let first = format_1(alloc)?;
    for call in 0..16 {
        for left in [Left::Whole, Left::Lost, Left::Sevens] {
            check_that_at(&rt, &call, is_kept(alloc, &first, call, left)?);
        }
    }
    let mut disk = failing_behind(alloc, first.bytes(), 16)?;
    let mut store = opened(alloc, &mut disk)?;
    apply(&mut store, &mut disk, Change::Put(b"b", b"\x03"))?;
    apply(&mut store, &mut disk, Change::Flush)?;
    Ok(())
}
