//! What maps answer.

use super::bodies::{A_AND_AB, ZEBRA, read};
use std::test::Fail;

#[test]
fn keys_are_got_and_nothing_beside_them(rt: HostRuntime) -> Result<(), Fail> {
    let map = read(rt.alloc(), &A_AND_AB)?;
    assert!(rt; map.get(b"a") == Some(&[1u8][..]));
    assert!(rt; map.get(b"ab") == Some(&[2u8][..]));
    assert!(rt; map.get(b"abc").is_none());
    assert!(rt; map.get(b"ac").is_none());
    assert!(rt; map.get(b"").is_none());
    assert!(rt; map.len() == 2);
    Ok(())
}

#[test]
fn keys_are_counted_and_nothing_beside_them(rt: HostRuntime) -> Result<(), Fail> {
    let map = read(rt.alloc(), &A_AND_AB)?;
    assert!(rt; map.count(b"ab", b"b") == 1);
    assert!(rt; map.count(b"a", b"a") == 1);
    assert!(rt; map.count(b"ab\xFF", b"b") == 0);
    assert!(rt; map.count(b"", b"b") == 2);
    Ok(())
}

#[test]
fn a_key_may_be_alone_and_its_value_empty(rt: HostRuntime) -> Result<(), Fail> {
    let map = read(rt.alloc(), &ZEBRA)?;
    assert!(rt; map.get(b"zebra") == Some(&[][..]));
    assert!(rt; map.get(b"ze").is_none());
    assert!(rt; map.get(b"zebras").is_none());
    assert!(rt; map.count(b"zebra", b"zebra") == 1);
    assert!(rt; map.count(b"zebras", b"zz") == 0);
    Ok(())
}
