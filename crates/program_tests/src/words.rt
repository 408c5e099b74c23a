//! What the words ask for.
use crate::asserts::check_same;
use crate::runs::{base_disk, check, commanded, disk_of, served};
use std::test::Fail;

const USAGE: &[u8] =
    b"usage: surfstore PATH format|serve|load|settings|grow|check|fstbuild|fstserve\n";

// Words over a device without a store, the status, and the line that is said.
const EXAMPLES: [(&str, u8, &[u8]); 22] = [
    ("", 2, USAGE),
    ("load", 2, USAGE),
    ("serve serve", 2, USAGE),
    ("format --variant base", 2, USAGE),
    ("format --pages 512", 2, USAGE),
    ("format --pages x --variant base", 2, USAGE),
    (
        "format --pages 18446744073709551616 --variant base",
        2,
        USAGE,
    ),
    ("format --pages 512 --pages 512 --variant base", 2, USAGE),
    ("serve", 8, b"not a store\n"),
    (
        "format --pages 511 --variant bass",
        8,
        b"bad settings pages\n",
    ),
    (
        "format --pages 16777217 --variant base",
        8,
        b"bad settings pages\n",
    ),
    (
        "format --pages 512 --variant bass --hash-bits 33",
        8,
        b"bad settings variant\n",
    ),
    (
        "format --pages 512 --variant mixed --hash-bits 33 --real-bits 33",
        8,
        b"bad settings hash-bits\n",
    ),
    (
        "format --pages 512 --variant real --hash-bits 33 --real-bits 33 --ratio 65536",
        8,
        b"bad settings real-bits\n",
    ),
    (
        "format --pages 512 --variant base --ratio 65536",
        8,
        b"bad settings ratio\n",
    ),
    (
        "format --pages 512 --variant base --hash-bits 33 --real-bits 33 --ratio 65535",
        0,
        b"formatted 512\n",
    ),
    (
        "format --pages=16777216 --variant=mixed",
        0,
        b"formatted 16777216\n",
    ),
    ("fstbuild", 7, b"memory\n"),
    ("fstserve", 7, b"memory\n"),
    ("fstbuild 61 01", 2, USAGE),
    ("fstserve --pages 512", 2, USAGE),
    ("--version", 0, b"surfstore 0.1.0\n"),
];

#[test]
fn words_and_their_last_lines(rt: HostRuntime) -> Result<(), Fail> {
    let alloc = rt.alloc();
    for (number, (words, status, line)) in EXAMPLES.iter().copied().enumerate() {
        let end = commanded(alloc, words, disk_of(alloc, b"")?)?;
        check(&rt, &end, status, line, number as u64);
    }
    Ok(())
}

#[test]
fn settings_out_of_range_are_told_before_any_call(rt: HostRuntime) -> Result<(), Fail> {
    let alloc = rt.alloc();
    let words = "format --pages 511 --variant base";
    let end = commanded(alloc, words, disk_of(alloc, b"")?)?;
    check_same(&rt, &end.disk.calls(), &0);
    Ok(())
}

const HELP_PARTS: [&str; 18] = [
    "format",
    "serve",
    "--pages",
    "--variant",
    "--hash-bits",
    "--real-bits",
    "--ratio",
    "load",
    "--seed",
    "--count",
    "16,777,216",
    "formatted 1048576",
    "settings",
    "grow",
    "limit epoch, of settings and grow",
    "With 0 a large filter",
    "fstbuild",
    "fstserve",
];

// The first of these parts that a text lacks.
fn missing(text: &[u8]) -> Option<&'static str> {
    let Ok(text) = str::from_utf8(text) else {
        return Some("text");
    };
    for part in HELP_PARTS {
        if !text.contains(part) {
            return Some(part);
        }
    }
    None
}

#[test]
fn help_tells_each_option(rt: HostRuntime) -> Result<(), Fail> {
    let alloc = rt.alloc();
    let end = commanded(alloc, "--help", disk_of(alloc, b"")?)?;
    check_same(&rt, &end.status, &0);
    check_same(&rt, &missing(end.said.as_slice()), &None);
    Ok(())
}

// The programs of a static map get the device: here they have no memory for a map, and see that one is there.
#[test]
fn a_map_is_built_where_none_is(rt: HostRuntime) -> Result<(), Fail> {
    let alloc = rt.alloc();
    let end = commanded(alloc, "fstbuild", disk_of(alloc, &[1])?)?;
    check(&rt, &end, 8, b"taken\n", 0);
    Ok(())
}

#[test]
fn a_second_format_leaves_the_store(rt: HostRuntime) -> Result<(), Fail> {
    let alloc = rt.alloc();
    let first = served(alloc, base_disk(alloc)?, b"put 61 62\n")?;
    check(&rt, &first, 0, b"ok\n", 0);
    let second = commanded(alloc, "format --pages 512 --variant base", first.disk)?;
    check(&rt, &second, 8, b"already a store\n", 1);
    let again = served(alloc, second.disk, b"get 61\n")?;
    check(&rt, &again, 0, b"val 62\n", 2);
    Ok(())
}
