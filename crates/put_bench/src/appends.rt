//! Appends to a log, each beside two bare pairs of a write and a sync.
use crate::bare::BareFile;
use crate::records::Records;
use anyhow::Result;
use bench_kit::{Figure, print_measure, share};
use real_outside::FileOutside;
use std::io;
use std::time::{Duration, Instant};

// What is appended.
const KEY: &[u8] = b"key-8byt";

const VALUE: &[u8] = b"0123456789abcdef0123456789abcdef";

/// How long appends and bare pairs took in all.
#[derive(Clone, Copy)]
struct Times {
    appends: Duration,
    bare: Duration,
}

/// Makes so many appends to the log of a device file, and as many bare pairs in the same file, in turn, and prints their
/// mean times.
pub fn appends(rt: HostRuntime, path: &str, count: u64, disk: &mut FileOutside) -> Result<()> {
    let bare = BareFile::open(&rt, path)?;
    let mut records = Records::start(rt.alloc(), disk)?;
    let mut times = Times {
        appends: Duration::ZERO,
        bare: Duration::ZERO,
    };
    append_all(&rt, count, &bare, disk, &mut records, &mut times)?;
    print(&rt, count, times)?;
    Ok(())
}

fn print(rt: &impl Print, count: u64, times: Times) -> io::Result<()> {
    let append = times.appends.as_secs_f64() * 1e9;
    let bare = times.bare.as_secs_f64() * 1e9;
    let one = share(1, count);
    let figures = [
        ("appends", Figure::Count(count)),
        ("ns", Figure::Real(append * one)),
        ("two_bare_pairs_ns", Figure::Real(bare * one)),
        ("ratio", Figure::Real(append / bare)),
    ];
    print_measure(rt, "put_bench", "append", &figures)
}

fn append_all(
    rt: &HostRuntime,
    count: u64,
    bare: &BareFile,
    disk: &mut FileOutside,
    records: &mut Records,
    times: &mut Times,
) -> Result<()> {
    for _ in 0..count {
        append(rt, bare, disk, records, times)?;
    }
    Ok(())
}

// An append, and then the bare pairs.
fn append(
    rt: &HostRuntime,
    bare: &BareFile,
    disk: &mut FileOutside,
    records: &mut Records,
    times: &mut Times,
) -> Result<()> {
    let start = Instant::now(rt)?;
    records.append(disk, KEY, VALUE)?;
    let between = start.elapsed(rt)?;
    bare.two_pairs()?;
    let pairs = start.elapsed(rt)?.saturating_sub(between);
    times.appends = times.appends.saturating_add(between);
    times.bare = times.bare.saturating_add(pairs);
    Ok(())
}
