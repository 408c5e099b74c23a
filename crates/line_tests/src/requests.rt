//! Lines that are read as requests.
use std::alloc::{AllocError, Global};
use std::test::Fail;
use store_commands::{BadLine, Request, Scratch, next_line, parse_line};

// The code that a line is refused with, 0 where it is none.
fn code(answer: Result<Request<'_>, BadLine>) -> u8 {
    match answer {
        Ok(_) => 0,
        Err(BadLine(code)) => code,
    }
}

// A request as its verb, its key or lower bound, its value or upper bound, and its number.
type Shown<'a> = (&'static str, &'a [u8], Option<&'a [u8]>, u32);

fn shown(request: Request<'_>) -> Shown<'_> {
    match request {
        Request::Put { key, value } => ("put", key, Some(value), 0),
        Request::Del { key } => ("del", key, None, 0),
        Request::Get { key } => ("get", key, None, 0),
        Request::Seek { lo, hi } => ("seek", lo, hi, 0),
        Request::Range { lo, hi, n } => ("range", lo, Some(hi), n),
        Request::Count { lo, hi } => ("count", lo, Some(hi), 0),
        Request::Estimate { lo, hi } => ("estimate", lo, Some(hi), 0),
        Request::Explain { key } => ("explain", key, None, 0),
        Request::Flush => ("flush", b"", None, 0),
        Request::Compact => ("compact", b"", None, 0),
        Request::Quit => ("quit", b"", None, 0),
    }
}

const ASKED: [(&str, Shown<'static>); 14] = [
    ("put 61 62", ("put", b"a", Some(b"b"), 0)),
    ("put 61 -", ("put", b"a", Some(b""), 0)),
    ("put - 62", ("put", b"", Some(b"b"), 0)),
    ("get 6F6f", ("get", b"oo", None, 0)),
    ("del 7a", ("del", b"z", None, 0)),
    ("quit", ("quit", b"", None, 0)),
    ("seek 61", ("seek", b"a", None, 0)),
    ("seek - 62", ("seek", b"", Some(b"b"), 0)),
    (
        "range 61 6F6f 1000000",
        ("range", b"a", Some(b"oo"), 1_000_000),
    ),
    ("count 61 -", ("count", b"a", Some(b""), 0)),
    ("estimate - -", ("estimate", b"", Some(b""), 0)),
    ("explain 7a", ("explain", b"z", None, 0)),
    ("flush", ("flush", b"", None, 0)),
    ("compact", ("compact", b"", None, 0)),
];

#[test]
fn lines_of_every_verb(rt: HostRuntime) -> Result<(), Fail> {
    let mut scratch = Scratch::new(rt.alloc())?;
    for (line, wanted) in ASKED {
        let Ok(request) = parse_line(line.as_bytes(), &mut scratch) else {
            return Err(Fail::from("a line that asks nothing"));
        };
        assert_eq!(rt; shown(request), wanted, "of '{line}'");
    }
    Ok(())
}

// Lines and the first rule that each breaks, 0 where it breaks none.
const BROKEN: [(&str, u8); 28] = [
    ("", 2),
    (" ", 2),
    ("PUT 61 62", 2),
    (" put 61 62", 2),
    ("put\r 61 62", 2),
    ("put 6", 3),
    ("put 61 62 ", 3),
    ("get  61", 3),
    ("del", 3),
    ("quit ", 3),
    ("seek", 3),
    ("seek 61 62 63", 3),
    ("range 61 62", 3),
    ("range 61 62 1 1", 3),
    ("put 6 62", 4),
    ("put 61 6", 4),
    ("put  62", 4),
    ("get 6g", 4),
    ("get 61\r", 4),
    ("seek 61 -- ", 3),
    ("range 6 62 x", 4),
    ("range 61 62 x", 5),
    ("range 61 62 ", 5),
    ("range 61 62 00", 5),
    ("range 61 62 +1", 5),
    ("range 61 62 1000001", 5),
    ("range 61 62 99999999999999999999", 5),
    ("range 61 62 0", 0),
];

#[test]
fn the_first_rule_that_a_line_breaks(rt: HostRuntime) -> Result<(), Fail> {
    let mut scratch = Scratch::new(rt.alloc())?;
    for (line, wanted) in BROKEN {
        assert_eq!(rt;
            code(parse_line(line.as_bytes(), &mut scratch)),
            wanted,
            "of '{line}'"
        );
    }
    Ok(())
}

// A line of so many bytes: these, and digits behind them.
fn line_of(alloc: Global, first: &[u8], len: usize) -> Result<Vec<u8>, AllocError> {
    let mut line = Vec::from_slice(alloc, first)?;
    line.resize(len, b'6')?;
    Ok(line)
}

// How long lines begin, how long they are, and the code that each is refused with, 0 where it is read: at last a put of the
// longest value, and of one that is a byte longer, which is no matter of the grammar.
const LONG: [(&[u8], usize, u8); 6] = [
    (b"6", 2_100_000, 2),
    (b"get ", 2_100_001, 1),
    (b"get ", 2_099_999, 4),
    (b"get ", 2_100_000, 0),
    (b"put 61 ", 2_097_159, 0),
    (b"put 61 ", 2_097_161, 0),
];

#[test]
fn the_longest_line(rt: HostRuntime) -> Result<(), Fail> {
    let mut scratch = Scratch::new(rt.alloc())?;
    for (first, len, wanted) in LONG {
        let line = line_of(rt.alloc(), first, len)?;
        assert_eq!(rt;
            code(parse_line(&line, &mut scratch)),
            wanted,
            "of {len} bytes"
        );
    }
    Ok(())
}

// How many bytes a request has as its key and its value.
fn lengths(request: Request<'_>) -> (usize, usize) {
    match request {
        Request::Put { key, value } => (key.len(), value.len()),
        Request::Get { key } => (key.len(), 0),
        _ => (0, 0),
    }
}

// A second line is read into the room that the first one took.
#[test]
fn long_words_are_read_whole(rt: HostRuntime) -> Result<(), Fail> {
    let mut scratch = Scratch::new(rt.alloc())?;
    let rows: [(&[u8], usize, (usize, usize)); 3] = [
        (b"get ", 2_100_000, (1_049_998, 0)),
        (b"put 61 ", 2_097_159, (1, 1_048_576)),
        (b"put 61 ", 9, (1, 1)),
    ];
    for (first, len, wanted) in rows {
        let line = line_of(rt.alloc(), first, len)?;
        match parse_line(&line, &mut scratch) {
            Ok(request) => assert_eq!(rt; lengths(request), wanted, "of {len} bytes"),
            Err(_) => assert!(rt; false, "of {len} bytes"),
        }
    }
    Ok(())
}

#[test]
fn lines_are_cut_at_newlines(rt: HostRuntime) {
    assert!(rt; matches!(next_line(b"get 61\n\nquit"), Some((b"get 61", b"\nquit"))));
    assert!(rt; matches!(next_line(b"\nquit"), Some((b"", b"quit"))));
    assert!(rt; next_line(b"quit").is_none());
    assert!(rt; next_line(b"").is_none());
}
