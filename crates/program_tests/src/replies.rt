//! Lines and their replies, and the bytes that they leave.
use crate::asserts::check_same;
use crate::runs::{Succinct, base_disk, check, disk_of, served, served_by};
use disk_trait::Disk;
use filter_api::RangeFilter;
use plain_filter::PlainFilter;
use std::alloc::{AllocError, Global};
use std::test::Fail;
use test_runs::LAST_EPOCH_SUM;

const EXAMPLES: [(&[u8], &[u8]); 16] = [
    (b"put 61 62\nget 61\nquit\n", b"ok\nval 62\nbye\n"),
    (b"put 61 -\nget 61\nget 62\n", b"ok\nval -\nnone\n"),
    (
        b"put - 62\nget -\ndel -\n",
        b"limit key 0\nlimit key 0\nlimit key 0\n",
    ),
    (b"del 61\nget 61", b"ok\nnone\n"),
    (b"", b""),
    (
        b"\nput 6\nput 6 62\nget  61\n",
        b"bad 2\nbad 3\nbad 4\nbad 3\n",
    ),
    (
        b"put 61 aB\nflush\nget 61\nput 61 63\nget 61\n",
        b"ok\nok\nval ab\nok\nval 63\n",
    ),
    (
        b"put 61 62\nflush\ndel 61\nflush\nget 61\n",
        b"ok\nok\nok\nok\nnone\n",
    ),
    (
        b"put 61 62\nflush\ndel 61\nflush\nget 61\ncompact\nget 61\nexplain 61\n",
        b"ok\nok\nok\nok\nnone\nok\nnone\ntables 0 admitted 0 blocks 0\n",
    ),
    (
        b"put 61 01\nput 62 02\nflush\nput 61 03\ndel 62\ncompact\nget 61\nget 62\nexplain 61\nput 62 04\nget 62\ncompact 61\n",
        b"ok\nok\nok\nok\nok\nok\nval 03\nnone\ntables 1 admitted 1 blocks 1\nok\nval 04\nbad 3\n",
    ),
    (
        b"put 616131 01\nput 616231 02\nflush\ncount 616135 616230\nestimate 616135 616230\nexplain 616139\nexplain 616130\nexplain 616330\nget 616139\n",
        b"ok\nok\nok\ncount 0\nabout 2\ntables 1 admitted 1 blocks 1\ntables 1 admitted 1 blocks 0\ntables 1 admitted 0 blocks 0\nnone\n",
    ),
    (
        b"estimate - -\nexplain -\nestimate 62 61\ncompact\nput 61 62\nestimate 61 62\n",
        b"about 0\nlimit key 0\nabout 0\nok\nok\nabout 1\n",
    ),
    (
        b"put 61 01\nflush\ndel 61\nput 63 03\nseek 60 62\nseek -\ncount - 7a\n",
        b"ok\nok\nok\nok\nnone\nat 63 03\ncount 1\n",
    ),
    (
        b"put 61 -\nput 62 01\nrange - 7a 1\nrange - 7a 0\nseek 63\nseek 62 61\nseek -\nrange - 7a 1000000\ncount 62 61\n",
        b"ok\nok\nat 61 -\nend 1\nend 0\nnone\nnone\nat 61 -\nat 61 -\nat 62 01\nend 2\ncount 0\n",
    ),
    (
        b"range - - 01\nrange - - 1\nrange - -\nseek\ncount 61\nrange 61 62 1000001\nseek -- 61\n",
        b"bad 5\nend 0\nbad 3\nbad 3\nbad 3\nbad 5\nbad 4\n",
    ),
    (b"quit\nget 61\n", b"bye\n"),
];

// The first example whose lines get other replies by this kind of filter.
fn other_example<F: RangeFilter>(alloc: Global) -> Result<Option<usize>, Fail> {
    for (number, (lines, replies)) in EXAMPLES.iter().copied().enumerate() {
        let end = served_by::<F>(alloc, base_disk(alloc)?, lines)?;
        if end.status != 0 || end.said.as_slice() != replies {
            return Ok(Some(number));
        }
    }
    Ok(None)
}

#[test]
fn each_line_gets_its_reply(rt: HostRuntime) -> Result<(), Fail> {
    check_same(&rt, &other_example::<Succinct>(rt.alloc())?, &None);
    check_same(&rt, &other_example::<PlainFilter>(rt.alloc())?, &None);
    Ok(())
}

#[test]
fn a_put_leaves_the_bytes_of_its_record(rt: HostRuntime) -> Result<(), Fail> {
    let alloc = rt.alloc();
    let mut end = served(alloc, base_disk(alloc)?, b"put 61 62\n")?;
    let mut bytes = [9; 11];
    end.disk.read(262_144, &mut bytes)?;
    check_same(&rt, &bytes, &[1, 1, 1, 0, 1, 0, 0, 0, 0x61, 0x62, 0]);
    Ok(())
}

// The line of a put whose key and value have so many bytes.
fn put_line(alloc: Global, key: usize, value: usize) -> Result<Vec<u8>, AllocError> {
    let mut line = Vec::from_slice(alloc, b"put ")?;
    for _ in 0..key {
        line.extend_from_slice(b"6b")?;
    }
    line.push(b' ')?;
    for _ in 0..value {
        line.extend_from_slice(b"78")?;
    }
    line.push(b'\n')?;
    Ok(line)
}

#[test]
fn the_limits_of_keys_and_values(rt: HostRuntime) -> Result<(), Fail> {
    let alloc = rt.alloc();
    let rows: [(usize, usize, &[u8]); 6] = [
        (1_024, 1, b"ok\n"),
        (1_025, 1, b"limit key 1025\n"),
        (1, 65_536, b"ok\n"),
        (1, 65_537, b"ok\n"),
        (1, 1_048_576, b"ok\n"),
        (1, 1_048_577, b"limit value 1048577\n"),
    ];
    for (key, value, reply) in rows {
        let line = put_line(alloc, key, value)?;
        let end = served(alloc, base_disk(alloc)?, &line)?;
        check(&rt, &end, 0, reply, value as u64);
    }
    Ok(())
}

// The block of one pair begins with 15 00 00 00 01 02 00 00 0a 00 01 00 00 01 00 01 00 00 00 61 62; the sums are those of its
// 4,096 bytes as they were written, and with the ninth changed from 0a to 03. Each run makes the same reads to open, and the
// last reads one block.
#[test]
fn a_damaged_block_is_told_where_it_is_read(rt: HostRuntime) -> Result<(), Fail> {
    let alloc = rt.alloc();
    let mut first = served(alloc, base_disk(alloc)?, b"put 61 62\nflush\n")?;
    first.disk.write(786_440, &[3])?;
    let reads = first.disk.reads();
    let none = served(alloc, first.disk, b"get 7a\n")?;
    check(&rt, &none, 0, b"none\n", 0);
    let opening = none.disk.reads().saturating_sub(reads);
    let told = served(alloc, none.disk, b"get 61\nget 7a\n")?;
    let sums = b"damaged block 786432 sum 587b62ad428b4221 1330a17f9fbb1d44\n";
    check(&rt, &told, 5, sums, 1);
    let read = told.disk.reads().saturating_sub(reads);
    check_same(&rt, &read, &opening.saturating_mul(2).saturating_add(1));
    Ok(())
}

// The newest slot's epoch is at byte 16, behind the gate's eight bytes and eight of the body; its sum stands at byte 72.
#[test]
fn the_last_epoch_takes_no_flush(rt: HostRuntime) -> Result<(), Fail> {
    let alloc = rt.alloc();
    let mut disk = base_disk(alloc)?;
    disk.write(16, &[0xff; 8])?;
    disk.write(72, &LAST_EPOCH_SUM)?;
    let lines = b"compact\nput 61 62\nflush\nget 61\ncompact\nget 61\n";
    let end = served(alloc, disk, lines)?;
    let replies = b"ok\nok\nlimit epoch\nval 62\nlimit epoch\nval 62\n";
    check(&rt, &end, 0, replies, 0);
    let mut lines = Vec::new(alloc);
    for _ in 0..2 {
        lines.extend_from_slice(&put_line(alloc, 1, 65_537)?)?;
    }
    lines.extend_from_slice(b"put 62 63\n")?;
    let long = served(alloc, disk_of(alloc, end.disk.bytes())?, &lines)?;
    check(&rt, &long, 0, b"limit epoch\nlimit epoch\nok\n", 1);
    Ok(())
}
