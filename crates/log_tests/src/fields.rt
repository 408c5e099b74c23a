//! Numbers in bytes, sums of bytes, and lists of entries, whose answers are known.
use byte_fields::{
    Summer, fnv1a, get_u16, get_u32, get_u64, push_fields, push_number, put_u16, put_u32, put_u64,
};
use entry_list::{Entry, copied, lookup, newest_of, push_copy};
use std::test::Fail;

#[test]
fn fields_stand_lowest_byte_first(rt: HostRuntime) -> Result<(), Fail> {
    let mut bytes = [9; 16];
    put_u16(&mut bytes, 1, 0x0102);
    put_u32(&mut bytes, 3, 0x01020304);
    put_u64(&mut bytes, 7, 0x0102030405060708);
    assert_eq!(rt; bytes, [9, 2, 1, 4, 3, 2, 1, 8, 7, 6, 5, 4, 3, 2, 1, 9]);
    assert_eq!(rt; get_u16(&bytes, 1), 0x0102);
    assert_eq!(rt; get_u32(&bytes, 3), 0x01020304);
    assert_eq!(rt; get_u64(&bytes, 7), 0x0102030405060708);
    let mut out = Vec::new(rt.alloc());
    push_fields(&[1, 2], &[9, 0x0102], &mut out)?;
    push_number(0x0807060504030201, 3, &mut out)?;
    assert_eq!(rt; out.as_slice(), [9, 2, 1, 1, 2, 3].as_slice());
    Ok(())
}

#[test]
fn sums_are_those_of_fnv_1a(rt: HostRuntime) {
    let rows: [(&[u8], u64); 3] = [
        (b"", 0xcbf29ce484222325),
        (b"a", 0xaf63dc4c8601ec8c),
        (b"foobar", 0x85944171f73967e8),
    ];
    for (bytes, sum) in rows {
        assert_eq!(rt; fnv1a(bytes), sum);
    }
    let mut summer = Summer::new();
    summer.feed(b"foo");
    summer.feed(b"bar");
    assert_eq!(rt; summer.value(), 0x85944171f73967e8);
}

#[test]
fn the_first_and_the_last_of_a_key(rt: HostRuntime) -> Result<(), Fail> {
    let mut list = Vec::new(rt.alloc());
    let rows: [(&[u8], Option<&[u8]>); 3] = [
        (b"a", Some(b"new")),
        (b"b", None),
        (b"a", Some(b"old")),
    ];
    for (key, value) in rows {
        push_copy(&Entry::new(rt.alloc(), key, value)?, &mut list)?;
    }
    let again = copied(rt.alloc(), list.as_slice())?;
    assert!(rt; matches!(lookup(again.as_slice(), b"a"), Some(Some(b"new"))));
    assert!(rt; matches!(newest_of(again.as_slice(), b"a"), Some(Some(b"old"))));
    assert!(rt; matches!(lookup(again.as_slice(), b"b"), Some(None)));
    assert!(rt; newest_of(again.as_slice(), b"c").is_none());
    Ok(())
}
