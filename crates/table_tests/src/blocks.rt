//! Blocks that are built, read and searched.
use crate::asserts::{check_same, check_that};
use block_format::{Block, BlockBuilder};
use std::test::Fail;

// The block of a with the value b.
fn a_b() -> [u8; 4096] {
    let mut page = [0; 4096];
    let used = [
        0x15, 0, 0, 0, 1, 2, 0, 0, 0x0A, 0, 1, 0, 0, 1, 0, 1, 0, 0, 0, 0x61, 0x62,
    ];
    page[..21].copy_from_slice(&used);
    page
}

#[test]
fn what_a_builder_wrote_is_read(rt: HostRuntime) -> Result<(), Fail> {
    let mut builder = BlockBuilder::new(rt.alloc());
    let mut out = Vec::new(rt.alloc());
    check_that(&rt, builder.add(b"a", Some(b"b"))?);
    builder.close(&mut out)?;
    check_same(&rt, &out.as_slice(), &a_b().as_slice());
    check_that(&rt, builder.add(b"a", Some(b"b"))?);
    check_that(&rt, builder.add(b"ab", None)?);
    out.clear();
    builder.close(&mut out)?;
    let bytes = out.as_slice();
    let Ok(block) = Block::read(bytes) else {
        return Err(Fail::from("no block"));
    };
    check_same(&rt, &block.find(b"a"), &Some(Some(b"b".as_slice())));
    check_same(&rt, &block.find(b"ab"), &Some(None));
    check_same(&rt, &block.find(b"aa"), &None);
    check_same(&rt, &Block::read_and_find(bytes, b"ab"), &Ok(Some(None)));
    check_same(&rt, &Block::find_in_sound(bytes, b"ab"), &Some(None));
    check_same(&rt, &Block::find_in_sound(bytes, b"aa"), &None);
    let mut cursor = block.from(Some(b"aa"));
    check_that(&rt, cursor.advance());
    check_that(&rt, matches!(cursor.entry(), Some((b"ab", None))));
    check_that(&rt, !cursor.advance());
    Ok(())
}
