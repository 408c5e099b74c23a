//! Lists of keys and their stubs, lists of leaves, and settings.
use super::keys::list_of_words;
use filter_api::{BadSettings, Field, Leaf, LeafList, Settings};
use filter_model::are_keys;
use key_truncate::truncate;
use std::test::Fail;

#[test]
fn keys_rise_and_are_not_empty(rt: HostRuntime) -> Result<(), Fail> {
    let rows: [(&[&[u8]], bool); 5] = [
        (&[b"far", b"fast", b"s"], true),
        (&[b"a", b"ab"], true),
        (&[], false),
        (&[b"a", b"a"], false),
        (&[b""], false),
    ];
    for (words, wanted) in rows {
        assert_eq!(rt; are_keys(&list_of_words(rt.alloc(), words)?), wanted);
    }
    Ok(())
}

#[test]
fn stubs_tell_keys_apart(rt: HostRuntime) -> Result<(), Fail> {
    let rows: [(&[&[u8]], &[(u16, bool)]); 4] = [
        (
            &[b"far", b"fast", b"s", b"top", b"toy"],
            &[(3, false), (3, false), (1, false), (3, false), (3, false)],
        ),
        (&[b"\x61", b"\x61\xff"], &[(1, true), (2, false)]),
        (&[b"aa1", b"ab1"], &[(2, false), (2, false)]),
        (&[b"zebra"], &[(1, false)]),
    ];
    for (words, stubs) in rows {
        let keys = list_of_words(rt.alloc(), words)?;
        assert!(rt; are_keys(&keys));
        let found = truncate(rt.alloc(), &keys)?;
        assert!(rt;
            found
                .iter()
                .map(|stub| (stub.len, stub.ends))
                .eq(stubs.iter().copied())
        );
    }
    Ok(())
}

#[test]
fn leaves_stand_in_the_order_of_pushing(rt: HostRuntime) -> Result<(), Fail> {
    let mut leaves = LeafList::with_capacity(rt.alloc(), 1)?;
    assert!(rt; leaves.is_empty());
    leaves.push(Leaf {
        stub: b"b".to_vec(rt.alloc())?,
        ends: true,
        hash: 1,
        real: 2,
    })?;
    assert!(rt; leaves.len() == 1);
    assert!(rt; leaves.get(0).ends);
    assert_eq!(rt; leaves.get(0).stub.as_slice(), b"b".as_slice());
    Ok(())
}

#[test]
fn the_first_field_out_of_range_is_named(rt: HostRuntime) {
    let rows = [
        (32, 32, Ok(())),
        (33, 33, Err(BadSettings(Field::HashBits))),
        (0, 33, Err(BadSettings(Field::RealBits))),
    ];
    for (hash_bits, real_bits, wanted) in rows {
        let settings = Settings {
            hash_bits,
            real_bits,
            ratio: 64,
        };
        assert_eq!(rt; settings.check(), wanted);
    }
}
