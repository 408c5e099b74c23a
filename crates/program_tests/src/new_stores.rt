//! What a format writes of the settings that its words name.
use crate::asserts::check_that_at;
use crate::runs::{check, commanded, disk_of, formatted};
use std::test::Fail;

// Words, and the bytes of the hash bits, the real bits and the ratio in slot A.
const EXAMPLES: [(&str, [u8; 4]); 5] = [
    (
        "format --pages 512 --variant base",
        [0x00, 0x00, 0x40, 0x00],
    ),
    (
        "format --pages 512 --variant hash",
        [0x08, 0x00, 0x40, 0x00],
    ),
    (
        "format --pages 512 --variant real",
        [0x00, 0x08, 0x40, 0x00],
    ),
    (
        "format --pages 512 --variant mixed",
        [0x08, 0x08, 0x40, 0x00],
    ),
    (
        "format --pages 512 --variant mixed --hash-bits 3 --real-bits 5 --ratio 7",
        [0x03, 0x05, 0x07, 0x00],
    ),
];

#[test]
fn settings_are_those_of_the_words(rt: HostRuntime) -> Result<(), Fail> {
    let alloc = rt.alloc();
    for (words, settings) in EXAMPLES {
        let disk = formatted(alloc, words)?;
        let written = disk.bytes().get(28..32);
        check_that_at(&rt, &words, written == Some(settings.as_slice()));
    }
    Ok(())
}

// As many steps as there may be are in range: so the device is looked at.
#[test]
fn a_load_of_a_million_steps_is_in_range(rt: HostRuntime) -> Result<(), Fail> {
    let alloc = rt.alloc();
    let words = "load --seed 1 --count 1000000";
    let end = commanded(alloc, words, disk_of(alloc, b"")?)?;
    check(&rt, &end, 8, b"not a store\n", 0);
    Ok(())
}
