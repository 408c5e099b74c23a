//! What a seek may read.
use crate::asserts::{check_same, check_that};
use plain_filter::PlainFilter;
use plain_store::{Reply, Request, get_bound, seek_bound};
use std::test::Fail;
use test_stores::{new_state, played};

fn put(key: &[u8]) -> Request<'_> {
    Request::Put { key, value: b"V" }
}

#[test]
fn a_seek_steps_over_deleted_keys(rt: HostRuntime) -> Result<(), Fail> {
    let script = [
        put(b"\x01"),
        put(b"\x02"),
        put(b"\x03"),
        put(b"\x04"),
        Request::Flush,
        put(b"\x05"),
        put(b"\x06"),
        put(b"\x07"),
        put(b"\x08"),
        Request::Flush,
        put(b"\x09"),
        put(b"\x0a"),
        Request::Del { key: b"\x01" },
        Request::Del { key: b"\x02" },
        Request::Flush,
        Request::Seek {
            lo: b"\x01",
            hi: Some(b"\x0a"),
        },
    ];
    let state = new_state(rt.alloc(), 512)?;
    let end = played(rt.alloc(), &state, &script)?;
    assert_eq!(rt; end.replies.len(), 16);
    check_that(&rt, matches!(end.replies[15], Reply::At { .. }));
    check_same(
        &rt,
        &seek_bound::<PlainFilter>(rt.alloc(), &end.state, b"\x01", b"\x0a")?,
        &6,
    );
    check_same(
        &rt,
        &seek_bound::<PlainFilter>(rt.alloc(), &end.state, b"\x0a", b"\x01")?,
        &0,
    );
    check_same(
        &rt,
        &get_bound::<PlainFilter>(rt.alloc(), &end.state, b"\x03")?,
        &1,
    );
    Ok(())
}
