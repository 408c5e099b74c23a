//! The body of a map, and how long its writing and its opening take.
use crate::array::SortedArray;
use anyhow::{Result, bail};
use bench_kit::{Figure, Least, Numbers, ROUNDS, Watch, boxed, print_measure, share};
use fst_map::{FstBuilder, FstMap};
use key_base::KeyList;
use std::alloc::{AllocError, Global};
use std::io;
use std::time::CpuClock;

/// A value of 8 bytes for each key.
pub fn drawn_values(
    alloc: Global,
    keys: &KeyList,
    numbers: &mut Numbers,
) -> Result<Box<KeyList>, AllocError> {
    let mut values = boxed(alloc, KeyList::new(alloc))?;
    for _ in 0..keys.len() {
        values.push(&numbers.draw().to_be_bytes())?;
    }
    Ok(values)
}

/// The body of the map of these pairs. It is written several times, and how many pairs a second that was at best is printed.
pub fn build_rounds(
    rt: &(impl Print + CpuClock),
    alloc: Global,
    keys: &KeyList,
    values: &KeyList,
    ratio: u16,
) -> Result<Vec<u8>> {
    let mut body = Vec::new(alloc);
    let mut time = Least::new();
    for _ in 0..ROUNDS {
        body.clear();
        time.keep(build_timed(rt, alloc, keys, values, ratio, &mut body)?);
    }
    let figures = [
        ("pairs", Figure::Count(keys.len() as u64)),
        ("million_pairs_a_second", Figure::Real(time.millions())),
    ];
    print_measure(rt, "fst_bench", "build", &figures)?;
    Ok(body)
}

// Adds all pairs and writes the body once: nanoseconds a pair.
fn build_timed(
    rt: &impl CpuClock,
    alloc: Global,
    keys: &KeyList,
    values: &KeyList,
    ratio: u16,
    body: &mut Vec<u8>,
) -> Result<f64> {
    let watch = Watch::start(rt)?;
    let mut builder = boxed(alloc, FstBuilder::new(alloc))?;
    add_all(&mut builder, keys, values)?;
    if builder.finish(ratio, body).is_err() {
        bail!("a body is not written");
    }
    Ok(watch.stop_each(rt, keys.len() as u64)?)
}

fn add_all(builder: &mut FstBuilder, keys: &KeyList, values: &KeyList) -> Result<()> {
    for i in 0..keys.len() {
        if i < values.len() && builder.add(keys.get(i), values.get(i)).is_err() {
            bail!("a pair is not taken");
        }
    }
    Ok(())
}

/// The map of a body. It is opened several times, and how many bytes a second that was at best is printed.
pub fn read_rounds<'a>(
    rt: &(impl Print + CpuClock),
    alloc: Global,
    body: &'a [u8],
) -> Result<Box<FstMap<'a, Global>>> {
    let mut time = Least::new();
    for _ in 0..ROUNDS {
        let watch = Watch::start(rt)?;
        opened(alloc, body)?;
        time.keep_time(watch.stop(rt)?);
    }
    let figures = [
        ("bytes", Figure::Count(body.len() as u64)),
        ("ns_a_byte", Figure::Real(time.of_one(body.len()))),
        ("seconds", Figure::Real(time.nanoseconds / 1e9)),
    ];
    print_measure(rt, "fst_bench", "open", &figures)?;
    opened(alloc, body)
}

fn opened<'a>(alloc: Global, body: &'a [u8]) -> Result<Box<FstMap<'a, Global>>> {
    match FstMap::read(alloc, body) {
        Ok(map) => Ok(boxed(alloc, map)?),
        Err(_) => bail!("a body is not read"),
    }
}

/// Prints the bytes of a pair in the body, in its image, and in the sorted array.
pub fn print_sizes(rt: &impl Print, body: &[u8], array: &SortedArray) -> io::Result<()> {
    let count = array.len() as u64;
    let figures = [
        ("body", Figure::Real(share(body.len() as u64, count))),
        ("image", Figure::Real(share(image_bytes(body), count))),
        ("array", Figure::Real(share(array.bytes() as u64, count))),
    ];
    print_measure(rt, "fst_bench", "bytes_a_pair", &figures)
}

// The length of the image, as the head of a body says it.
fn image_bytes(body: &[u8]) -> u64 {
    match body.get(16..20) {
        Some([a, b, c, d]) => u64::from(u32::from_le_bytes([*a, *b, *c, *d])),
        _ => 0,
    }
}
