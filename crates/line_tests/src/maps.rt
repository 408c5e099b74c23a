//! Plain maps, key lists and byte order, whose answers are known.
use key_base::{KeyList, compare, shared};
use plain_map::{Pair, PlainMap};
use std::alloc::{AllocError, Global};
use std::cmp::Ordering;
use std::test::Fail;

// 61 with no bytes, and 62 with 01.
fn two(alloc: Global) -> Result<PlainMap, AllocError> {
    let mut map = PlainMap::new(alloc);
    map.put(b"b", b"\x01")?;
    map.put(b"a", b"")?;
    Ok(map)
}

#[test]
fn a_slice_is_cut_to_its_number(rt: HostRuntime) -> Result<(), Fail> {
    let map = two(rt.alloc())?;
    let rows: [(&[u8], &[u8], usize, usize); 4] = [
        (b"", b"z", 1, 1),
        (b"", b"z", 0, 0),
        (b"a", b"b", 9, 2),
        (b"b", b"a", 9, 0),
    ];
    for (lo, hi, n, pairs) in rows {
        assert_eq!(rt; map.slice(lo, Some(hi), n)?.len(), pairs);
    }
    assert!(rt; matches!(map.slice(b"", None, 1)?.get(b"a"), Some(b"")));
    Ok(())
}

#[test]
fn a_seek_gives_the_first_key_between(rt: HostRuntime) -> Result<(), Fail> {
    let map = two(rt.alloc())?;
    let rows: [(&[u8], Option<&[u8]>, Option<&[u8]>); 5] = [
        (b"c", None, None),
        (b"b", Some(b"a"), None),
        (b"", None, Some(b"a")),
        (b"aa", None, Some(b"b")),
        (b"b", Some(b"b"), Some(b"b")),
    ];
    for (lo, hi, want) in rows {
        assert_eq!(rt; map.seek(lo, hi).map(Pair::key), want);
    }
    Ok(())
}

#[test]
fn a_count_counts_the_keys_between(rt: HostRuntime) -> Result<(), Fail> {
    let mut map = PlainMap::new(rt.alloc());
    map.put(b"aa1", b"\x01")?;
    map.put(b"ab1", b"\x02")?;
    let rows: [(&[u8], Option<&[u8]>, usize); 4] = [
        (b"aa5", Some(b"ab0"), 0),
        (b"aa1", Some(b"ab1"), 2),
        (b"", None, 2),
        (b"ab", None, 1),
    ];
    for (lo, hi, want) in rows {
        assert_eq!(rt; map.count(lo, hi), want);
    }
    Ok(())
}

#[test]
fn a_put_replaces_and_a_del_takes_away(rt: HostRuntime) -> Result<(), Fail> {
    let mut map = two(rt.alloc())?;
    map.put(b"b", b"\x02")?;
    assert_eq!(rt; map.len(), 2);
    assert!(rt; matches!(map.get(b"b"), Some(b"\x02")));
    map.del(b"a");
    map.del(b"c");
    assert!(rt; map.get(b"a").is_none() && !map.is_empty());
    Ok(())
}

#[test]
fn a_clear_leaves_its_upper_bound(rt: HostRuntime) -> Result<(), Fail> {
    let rows: [(&[u8], &[u8], usize); 5] = [
        (b"a", b"b", 1),
        (b"", b"z", 0),
        (b"aa", b"c", 1),
        (b"b", b"a", 2),
        (b"a", b"a", 2),
    ];
    for (lo, hi, left) in rows {
        let mut map = two(rt.alloc())?;
        map.clear(lo, hi);
        assert_eq!(rt; map.len(), left);
    }
    Ok(())
}

#[test]
fn keys_stand_in_the_order_of_pushing(rt: HostRuntime) -> Result<(), Fail> {
    let mut keys = KeyList::new(rt.alloc());
    assert!(rt; keys.is_empty());
    keys.push(b"far")?;
    keys.push(b"")?;
    assert!(rt; keys.len() == 2);
    assert_eq!(rt; keys.get(0), b"far".as_slice());
    keys.push(b"fast")?;
    assert_eq!(rt; keys.get(2), b"fast".as_slice());
    keys.truncate(1);
    keys.push(b"toy")?;
    assert!(rt; keys.len() == 2);
    assert_eq!(rt; keys.get(1), b"toy".as_slice());
    keys.truncate(0);
    assert!(rt; keys.is_empty());
    Ok(())
}

#[test]
fn byte_strings_compare_and_share(rt: HostRuntime) {
    let rows: [(&[u8], &[u8], Ordering, usize); 5] = [
        (b"far", b"fast", Ordering::Less, 2),
        (b"a", b"ab", Ordering::Less, 1),
        (b"toy", b"top", Ordering::Greater, 2),
        (b"", b"", Ordering::Equal, 0),
        (b"\xff", b"a", Ordering::Greater, 0),
    ];
    for (a, b, order, common) in rows {
        assert_eq!(rt; (compare(a, b), shared(a, b)), (order, common));
    }
}
