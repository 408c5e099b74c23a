//! A trie's image, written and read.
use anyhow::{Result, bail};
use bench_kit::{Figure, Least, ROUNDS, Watch, boxed, print_measure};
use filter_codec::{decode, encode};
use filter_trie::Trie;
use std::alloc::Global;
use std::io;
use std::time::CpuClock;

/// Writes the image of a trie and reads it again, several times, and prints how fast both were at best. The first time its
/// bytes need memory, and later they stand where those of the time before stood.
pub fn code_rounds(rt: &(impl Print + CpuClock), alloc: Global, trie: &Trie<Global>) -> Result<()> {
    let mut image = Vec::new(alloc);
    let (written, read) = rounds(rt, alloc, trie, &mut image)?;
    print_codes(rt, image.len(), written, read)?;
    Ok(())
}

// Writes it to `image` and reads it from there: the least times of both.
fn rounds(
    rt: &impl CpuClock,
    alloc: Global,
    trie: &Trie<Global>,
    image: &mut Vec<u8>,
) -> Result<(Least, Least)> {
    let mut written = Least::new();
    let mut read = Least::new();
    for _ in 0..ROUNDS {
        image.clear();
        written.keep(encode_timed(rt, trie, image)?);
        read.keep(decode_timed(rt, alloc, trie, image.as_slice())?);
    }
    Ok((written, read))
}

fn print_codes(rt: &impl Print, bytes: usize, written: Least, read: Least) -> io::Result<()> {
    let figures = [
        ("bytes", Figure::Count(bytes as u64)),
        ("encode_mb_a_second", Figure::Real(written.millions())),
        ("decode_mb_a_second", Figure::Real(read.millions())),
    ];
    print_measure(rt, "filter_bench", "image", &figures)
}

// Appends the image once: nanoseconds a byte.
fn encode_timed(rt: &impl CpuClock, trie: &Trie<Global>, image: &mut Vec<u8>) -> Result<f64> {
    let watch = Watch::start(rt)?;
    encode(trie, image)?;
    Ok(watch.stop_each(rt, image.len() as u64)?)
}

// Reads the image once: nanoseconds a byte.
fn decode_timed(
    rt: &impl CpuClock,
    alloc: Global,
    trie: &Trie<Global>,
    image: &[u8],
) -> Result<f64> {
    let watch = Watch::start(rt)?;
    let again = read(alloc, image)?;
    let taken = watch.stop_each(rt, image.len() as u64)?;
    if again.leaves() != trie.leaves() {
        bail!("a trie of other leaves is read");
    }
    Ok(taken)
}

fn read(alloc: Global, image: &[u8]) -> Result<Box<Trie<Global>>> {
    match decode(alloc, image) {
        Ok(trie) => Ok(boxed(alloc, trie)?),
        Err(_) => bail!("an image is not read"),
    }
}
