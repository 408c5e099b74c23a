//! Scripts that come to a limit.
use crate::asserts::{check_same, check_that};
use entry_list::Entry;
use plain_store::{Played, Reply, Request, State, Table};
use std::alloc::{AllocError, Global};
use std::test::Fail;
use test_stores::{BASE, new_state, played};

fn zeros(alloc: Global, count: usize) -> Result<Vec<u8>, AllocError> {
    vec![in alloc; 0; count]
}

// The state after one request, and its reply.
fn asked(alloc: Global, state: &State, request: Request<'_>) -> Result<Box<Played>, AllocError> {
    played(alloc, state, &[request])
}

// What is played with puts of keys from 1 on, or with deletes where there is no value, and how many of them are done.
fn filled(
    alloc: Global,
    state: &State,
    value: Option<&[u8]>,
    count: u8,
) -> Result<(Box<Played>, usize), AllocError> {
    let mut end = played(alloc, state, &[])?;
    let mut done = 0usize;
    for key in 1..count {
        let key = &[key];
        let request = match value {
            Some(value) => Request::Put { key, value },
            None => Request::Del { key },
        };
        end = asked(alloc, &end.state, request)?;
        if let [Reply::Done] = end.replies.as_slice() {
            done = done.saturating_add(1);
        }
    }
    Ok((end, done))
}

#[test]
fn six_tables_fill_the_device(rt: HostRuntime) -> Result<(), Fail> {
    let alloc = rt.alloc();
    let value = zeros(alloc, 65_536)?;
    let put = Request::Put {
        key: b"\x16",
        value: value.as_slice(),
    };
    let first = new_state(alloc, 512)?;
    let (full, done) = filled(alloc, &first, Some(value.as_slice()), 22)?;
    check_same(&rt, &done, &21);
    let end = asked(alloc, &full.state, put)?;
    check_that(
        &rt,
        matches!(end.replies.as_slice(), [Reply::Full { need: 53, gap: 2 }]),
    );
    let end = asked(alloc, &full.state, Request::Get { key: b"\x01" })?;
    check_that(&rt, matches!(end.replies.as_slice(), [Reply::Value(_)]));
    let (empty, done) = filled(alloc, &full.state, None, 22)?;
    check_same(&rt, &done, &21);
    let end = asked(alloc, &empty.state, Request::Compact)?;
    check_that(&rt, matches!(end.replies.as_slice(), [Reply::Done]));
    let end = asked(alloc, &end.state, put)?;
    check_that(&rt, matches!(end.replies.as_slice(), [Reply::Done]));
    Ok(())
}

// The state behind a short put and one with a value of so many bytes, with keys of these names.
fn behind_two<'k>(
    alloc: Global,
    key: &'k [u8],
    long_key: &'k [u8],
    size: usize,
) -> Result<Box<Played>, AllocError> {
    let value = zeros(alloc, size)?;
    let put = Request::Put {
        key,
        value: b"\x01",
    };
    let long = Request::Put {
        key: long_key,
        value: value.as_slice(),
    };
    let state = new_state(alloc, 512)?;
    played(alloc, &state, &[put, long])
}

// The pages, blocks and entries of the one table of a state whose log is empty.
fn one_table(state: &State) -> Option<(u64, u64, usize)> {
    match state.tables.as_slice() {
        [table] if state.log.is_empty() => {
            Some((table.pages, table.blocks, table.entries.len()))
        }
        _ => None,
    }
}

#[test]
fn a_value_over_65536_bytes_is_not_logged(rt: HostRuntime) -> Result<(), Fail> {
    let alloc = rt.alloc();
    let logged = behind_two(alloc, b"a", b"b", 65_536)?;
    check_same(&rt, &logged.state.log.len(), &2);
    check_that(&rt, logged.state.tables.is_empty());
    let long = behind_two(alloc, b"a", b"b", 65_537)?;
    check_same(&rt, &one_table(&long.state), &Some((20, 2, 2)));
    let same = behind_two(alloc, b"a", b"a", 65_537)?;
    check_same(&rt, &one_table(&same.state), &Some((19, 1, 1)));
    let longest = behind_two(alloc, b"a", b"a", 1_048_576)?;
    check_same(&rt, &one_table(&longest.state), &Some((259, 1, 1)));
    let refused = behind_two(alloc, b"a", b"a", 1_048_577)?;
    check_that(
        &rt,
        matches!(
            refused.replies.as_slice(),
            [Reply::Done, Reply::LongValue(1_048_577)]
        ),
    );
    Ok(())
}

fn small_table(alloc: Global, n: u16) -> Result<Table, AllocError> {
    let mut entries = Vec::new(alloc);
    entries.push(Entry::new(alloc, &n.to_be_bytes(), Some(b"v"))?)?;
    Ok(Table {
        level: 6,
        first_page: 192 + 3 * u64::from(n),
        pages: 3,
        blocks: 1,
        settings: BASE,
        entries,
        ranges: Vec::new(alloc),
    })
}

fn small_tables(alloc: Global, count: u16) -> Result<Vec<Table>, AllocError> {
    let mut tables = Vec::new(alloc);
    for n in 0..count {
        tables.push(small_table(alloc, n)?)?;
    }
    Ok(tables)
}

#[test]
fn a_version_has_at_most_1024_tables(rt: HostRuntime) -> Result<(), Fail> {
    let alloc = rt.alloc();
    let mut state = new_state(alloc, 4096)?;
    state.tables = small_tables(alloc, 1024)?;
    let put = Request::Put {
        key: b"a",
        value: b"b",
    };
    let end = played(alloc, &state, &[put, Request::Flush])?;
    check_that(
        &rt,
        matches!(end.replies.as_slice(), [Reply::Done, Reply::ManyTables]),
    );
    let end = asked(alloc, &end.state, Request::Compact)?;
    check_that(&rt, matches!(end.replies.as_slice(), [Reply::Done]));
    Ok(())
}
