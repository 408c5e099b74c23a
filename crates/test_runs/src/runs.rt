//! Runs of the program in memory.
//!
//! Disks, outsides and stores come in boxes: a function that holds one is then proved soon, whatever it owns.
use crate::no_maps::NoMaps;
use disk_mem::{Choice, MemDisk};
use filter_api::RangeFilter;
use outside::MemOutside;
use std::alloc::{AllocError, Global};
use std::test::Fail;
use store_core::Store;
use surf_filter::SurfFilter;
use surf_run::run;
use test_kit::{boxed, disk_of};

/// The filter that the program has.
pub type Succinct = SurfFilter<Global>;

/// A disk with the bytes of another, of which the call of this number fails.
pub fn failing(alloc: Global, disk: &MemDisk, call: u64) -> Result<Box<MemDisk>, AllocError> {
    test_kit::failing(alloc, disk.bytes(), call)
}

/// The disk that a crash leaves where no write behind the last sync reached it.
pub fn lost(alloc: Global, disk: &MemDisk) -> Result<Box<MemDisk>, AllocError> {
    boxed(alloc, disk.crash(&[])?)
}

/// The disk that a crash leaves where each write behind the last sync reached it.
pub fn written(alloc: Global, disk: &MemDisk) -> Result<Box<MemDisk>, AllocError> {
    let whole = [Choice::Whole, Choice::Whole, Choice::Whole, Choice::Whole];
    boxed(alloc, disk.crash(&whole)?)
}

/// How a run ended.
#[derive(Drop)]
pub struct Ended {
    pub status: u8,
    pub said: Vec<u8>,
    pub disk: Box<MemDisk>,
}

/// An outside over this disk in which nothing fails.
pub fn outside(
    alloc: Global,
    disk: Box<MemDisk>,
    input: &[u8],
) -> Result<Box<MemOutside>, AllocError> {
    let input = Vec::from_slice(alloc, input)?;
    let none = Vec::new(alloc);
    let disk = Box::into_inner(disk);
    boxed(alloc, MemOutside::new(disk, input, none, Vec::new(alloc)))
}

fn words_of(alloc: Global, line: &str) -> Result<Vec<String>, AllocError> {
    let mut words = Vec::new(alloc);
    for word in line.split_ascii_whitespace() {
        words.push(String::from_str(alloc, word)?)?;
    }
    Ok(words)
}

fn disk_in(alloc: Global, out: Box<MemOutside>) -> Result<Box<MemDisk>, AllocError> {
    boxed(alloc, Box::into_inner(out).into_disk())
}

/// A run with these words, by this kind of filter.
pub fn ran_by<F: RangeFilter>(
    alloc: Global,
    words: &str,
    out: Box<MemOutside>,
) -> Result<Ended, Fail> {
    let words = words_of(alloc, words)?;
    let mut out = out;
    let status = run::<F, NoMaps, _>(alloc, words.as_slice(), &mut *out);
    let said = Vec::from_slice(alloc, out.said())?;
    Ok(Ended {
        status,
        said,
        disk: disk_in(alloc, out)?,
    })
}

/// A run with these words, as the program makes it.
pub fn ran(alloc: Global, words: &str, out: Box<MemOutside>) -> Result<Ended, Fail> {
    ran_by::<Succinct>(alloc, words, out)
}

/// A run with these words over this disk, in which nothing fails and nothing is to be taken.
pub fn commanded(alloc: Global, words: &str, disk: Box<MemDisk>) -> Result<Ended, Fail> {
    ran(alloc, words, outside(alloc, disk, b"")?)
}

/// A run that answers these lines, by this kind of filter.
pub fn served_by<F: RangeFilter>(
    alloc: Global,
    disk: Box<MemDisk>,
    lines: &[u8],
) -> Result<Ended, Fail> {
    ran_by::<F>(alloc, "serve", outside(alloc, disk, lines)?)
}

/// A run that answers these lines, as the program answers them.
pub fn served(alloc: Global, disk: Box<MemDisk>, lines: &[u8]) -> Result<Ended, Fail> {
    served_by::<Succinct>(alloc, disk, lines)
}

// An outside over the bytes of a disk, with these lines to take, in which the take and the say of these numbers fail.
fn with_streams(
    alloc: Global,
    first: &MemDisk,
    lines: &[u8],
    takes: &[u64],
    says: &[u64],
) -> Result<MemOutside, AllocError> {
    let input = Vec::from_slice(alloc, lines)?;
    let takes = Vec::from_slice(alloc, takes)?;
    let says = Vec::from_slice(alloc, says)?;
    let disk = MemDisk::new(alloc, first.bytes())?;
    Ok(MemOutside::new(disk, input, takes, says))
}

/// A run that answers these lines by so many bytes at a time, in which the take and the say of these numbers fail.
pub fn paced(
    alloc: Global,
    first: &MemDisk,
    lines: &[u8],
    takes: &[u64],
    says: &[u64],
    pace: usize,
) -> Result<Ended, Fail> {
    let out = with_streams(alloc, first, lines, takes, says)?.with_pace(pace.max(1));
    ran(alloc, "serve", boxed(alloc, out)?)
}

/// A run with these words and nothing to take, by a byte at a time, in which the take and the say of these numbers fail.
pub fn stopped(
    alloc: Global,
    words: &str,
    first: &MemDisk,
    takes: &[u64],
    says: &[u64],
) -> Result<Ended, Fail> {
    let out = with_streams(alloc, first, b"", takes, says)?.with_pace(1);
    ran(alloc, words, boxed(alloc, out)?)
}

/// A disk of which `format`, called with these words, made a store.
pub fn formatted(alloc: Global, words: &str) -> Result<Box<MemDisk>, Fail> {
    let end = commanded(alloc, words, disk_of(alloc, b"")?)?;
    Ok(end.disk)
}

/// A disk of which `format` made a store of 512 pages, with base filters.
pub fn base_disk(alloc: Global) -> Result<Box<MemDisk>, Fail> {
    formatted(alloc, "format --pages 512 --variant base")
}

/// The bytes that a run which answers these lines leaves, on a disk without calls.
pub fn left_behind(alloc: Global, disk: Box<MemDisk>, lines: &[u8]) -> Result<Box<MemDisk>, Fail> {
    let end = served(alloc, disk, lines)?;
    Ok(disk_of(alloc, end.disk.bytes())?)
}

/// How many calls a run makes that answers these lines over the bytes of a disk.
pub fn calls_of(alloc: Global, disk: &MemDisk, lines: &[u8]) -> Result<usize, Fail> {
    let end = served(alloc, disk_of(alloc, disk.bytes())?, lines)?;
    Ok(end.disk.calls())
}

/// The store that stands on a disk.
pub fn opened(alloc: Global, disk: &mut MemDisk) -> Result<Box<Store<Succinct>>, Fail> {
    Ok(boxed(alloc, Store::open_store(alloc, disk)?)?)
}
