//! What is told of a key or of a range without a read.
use crate::asserts::check_same;
use std::test::Fail;
use store_core::{Explained, Limit, StoreError};
use test_stores::{changed, disk_of};

fn explained(tables: u64, admitted: u64, blocks: u64) -> Result<Explained, StoreError> {
    Ok(Explained {
        tables,
        admitted,
        blocks,
    })
}

#[test]
fn numbers_of_one_table(rt: HostRuntime) -> Result<(), Fail> {
    let alloc = rt.alloc();
    let mut disk = disk_of(alloc, &[])?;
    let mut store = changed(alloc, &mut disk, &[])?;
    check_same(&rt, &store.put(&mut *disk, b"aa1", b"1"), &Ok(()));
    check_same(&rt, &store.put(&mut *disk, b"ab1", b"2"), &Ok(()));
    check_same(&rt, &store.estimate(b"aa5", b"ab0"), &Ok(0));
    check_same(&rt, &store.estimate(b"aa1", b"ab1"), &Ok(2));
    check_same(&rt, &store.explain(b"aa1"), &explained(0, 0, 0));
    check_same(&rt, &store.flush(&mut *disk), &Ok(()));
    let reads = disk.reads();
    check_same(&rt, &store.estimate(b"aa5", b"ab0"), &Ok(2));
    check_same(&rt, &store.estimate(b"ab0", b"aa5"), &Ok(0));
    check_same(&rt, &store.explain(b"aa9"), &explained(1, 1, 1));
    check_same(&rt, &store.explain(b"aa0"), &explained(1, 1, 0));
    check_same(&rt, &store.explain(b"ac0"), &explained(1, 0, 0));
    check_same(&rt, &disk.reads(), &reads);
    check_same(&rt, &store.delete(&mut *disk, b"aa7"), &Ok(()));
    check_same(&rt, &store.estimate(b"aa5", b"ab0"), &Ok(3));
    Ok(())
}

#[test]
fn bounds_and_keys_that_are_too_long(rt: HostRuntime) -> Result<(), Fail> {
    let alloc = rt.alloc();
    let mut disk = disk_of(alloc, &[])?;
    let store = changed(alloc, &mut disk, &[])?;
    let long = vec![in alloc; 7; 1_026]?;
    let (limit, more) = (&long[..1_025], &long[..]);
    check_same(&rt, &store.estimate(&long[..1_024], b""), &Ok(0));
    check_same(
        &rt,
        &store.estimate(limit, more),
        &Err(StoreError::Limit(Limit::Key(1_025))),
    );
    check_same(
        &rt,
        &store.estimate(b"", more),
        &Err(StoreError::Limit(Limit::Key(1_026))),
    );
    check_same(
        &rt,
        &store.explain(b""),
        &Err(StoreError::Limit(Limit::Key(0))),
    );
    check_same(
        &rt,
        &store.explain(limit),
        &Err(StoreError::Limit(Limit::Key(1_025))),
    );
    Ok(())
}
