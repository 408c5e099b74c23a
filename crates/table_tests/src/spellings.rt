//! The bytes of blocks and of an index, as the format has them.
use crate::asserts::{check_same, check_that};
use entry_list::{Entry, push_copy};
use plain_blocks::{are_entries, block_bytes, data_bytes, data_pages, index_bytes, index_length};
use std::alloc::{AllocError, Global};
use std::test::Fail;

fn a_and_ab(alloc: Global) -> Result<Vec<Entry>, AllocError> {
    let mut list = Vec::new(alloc);
    push_copy(&Entry::new(alloc, b"a", Some(b"b"))?, &mut list)?;
    push_copy(&Entry::new(alloc, b"ab", None)?, &mut list)?;
    Ok(list)
}

#[test]
fn a_block_of_two_entries(rt: HostRuntime) -> Result<(), Fail> {
    let list = a_and_ab(rt.alloc())?;
    assert!(rt; are_entries(list.as_slice()));
    let bytes = block_bytes(rt.alloc(), list.as_slice())?;
    let used = [
        0x1F, 0, 0, 0, 2, 2, 0, 0, 0x0A, 0, 1, 0, 0, 1, 0, 1, 0, 0, 0, 0x61, 0x62, 2, 1, 0, 1, 0,
        0, 0, 0, 0, 0x62,
    ];
    assert_eq!(rt; bytes.len(), 4096);
    check_that(&rt, bytes.as_slice().starts_with(used.as_slice()));
    check_same(&rt, &data_pages(rt.alloc(), list.as_slice())?, &1);
    Ok(())
}

#[test]
fn an_index_of_one_block(rt: HostRuntime) -> Result<(), Fail> {
    let list = a_and_ab(rt.alloc())?;
    assert!(rt; are_entries(list.as_slice()));
    let bytes = index_bytes(rt.alloc(), list.as_slice())?;
    let index = [
        0x53, 0x52, 0x46, 0x49, 1, 0, 0, 0, 1, 0, 0x61, 1, 0, 0, 0, 0x4C, 0x37, 0xB1, 0xA5, 0xC5,
        0xC5, 0x32, 0x31, 2, 0, 0x61, 0x62,
    ];
    check_same(&rt, &bytes.as_slice(), &index.as_slice());
    check_same(&rt, &index_length(rt.alloc(), list.as_slice())?, &27);
    Ok(())
}

fn wide(alloc: Global, key: u8, bytes: usize) -> Result<Entry, AllocError> {
    let value = vec![in alloc; 7; bytes]?;
    Entry::new(alloc, &[key], Some(value.as_slice()))
}

#[test]
fn three_values_of_65_536_bytes(rt: HostRuntime) -> Result<(), Fail> {
    let mut list = Vec::new(rt.alloc());
    for key in 1..4 {
        push_copy(&wide(rt.alloc(), key, 65_536)?, &mut list)?;
    }
    assert!(rt; are_entries(list.as_slice()));
    check_same(&rt, &data_pages(rt.alloc(), list.as_slice())?, &51);
    check_same(
        &rt,
        &data_bytes(rt.alloc(), list.as_slice())?.len(),
        &208_896,
    );
    Ok(())
}
