//! Blocks of one page and of many, full to the byte.
use crate::asserts::{check_same, check_that};
use crate::made::{BASE, Made, add, numbered};
use std::alloc::Global;
use std::test::Fail;
use table_file::TableBuilder;

#[test]
fn a_block_takes_255_entries(rt: HostRuntime) -> Result<(), Fail> {
    for (entries, blocks) in [(255, 1), (256, 2), (510, 2), (511, 3)] {
        let made = Made::new(rt.alloc(), numbered(rt.alloc(), entries)?)?;
        check_same(&rt, &made.size(), &(blocks, blocks));
    }
    Ok(())
}

// The bytes of a key and of a value. The key is that many of a letter, and so is the value.
type Entry = (usize, usize);

const FIRST_LETTER: u8 = b'a';

// A builder with these entries, of the letters from a on. It has room for two pages at first.
fn builder_of(alloc: Global, entries: &[Entry]) -> Result<TableBuilder, Fail> {
    let mut builder = TableBuilder::with_room(alloc, BASE, 2);
    for ((key, value), letter) in entries.iter().copied().zip(FIRST_LETTER..) {
        let key = vec![in alloc; letter; key]?;
        let value = vec![in alloc; letter; value]?;
        add(&mut builder, &key, Some(&value))?;
    }
    Ok(builder)
}

// Whether a table has each of these entries, and finds it by one read.
fn has_all(alloc: Global, made: &mut Made, entries: &[Entry]) -> Result<bool, Fail> {
    let mut all = true;
    for ((key, value), letter) in entries.iter().copied().zip(FIRST_LETTER..) {
        let key = vec![in alloc; letter; key]?;
        let value = vec![in alloc; letter; value]?;
        all = all && made.gives(&key, Some(Some(&value)), 1);
    }
    Ok(all)
}

#[test]
fn blocks_that_are_full_to_the_byte(rt: HostRuntime) -> Result<(), Fail> {
    let alloc = rt.alloc();
    // The entries, the blocks and their pages. A block of up to 16 entries has 10 bytes before them, an entry 9 before its key.
    let rows: [(&[Entry], u32, u32); 8] = [
        (&[(1, 4_076)], 1, 1),
        (&[(1, 4_077)], 1, 2),
        (&[(1_024, 65_536)], 1, 17),
        (&[(1_024, 1_048_576)], 1, 257),
        (&[(1, 100), (1, 3_966)], 1, 1),
        (&[(1, 100), (1, 3_967)], 2, 2),
        (&[(1, 4_077), (1, 1)], 2, 3),
        (&[(1, 1), (1_024, 65_536), (1, 1)], 3, 19),
    ];
    for (entries, blocks, pages) in rows {
        let mut made = Made::new(alloc, builder_of(alloc, entries)?)?;
        check_same(&rt, &made.size(), &(blocks, pages));
        check_that(&rt, has_all(alloc, &mut made, entries)?);
    }
    Ok(())
}
