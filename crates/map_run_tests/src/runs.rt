//! Runs of both programs in memory, and how they ended.
use crate::asserts::check_same_at;
use disk_mem::MemDisk;
use fst_run::{fst_build, fst_serve};
use outside::MemOutside;
use std::alloc::{AllocError, Global};
use std::process::Abort;
use std::test::Fail;
pub(crate) use test_kit::{boxed, disk_of, failing};

/// How a run ended.
#[derive(Drop)]
pub(crate) struct Ended {
    pub(crate) status: u8,
    pub(crate) said: Vec<u8>,
    pub(crate) disk: Box<MemDisk>,
}

/// Which takes and says fail, and how many bytes each moves at most.
#[derive(Clone, Copy)]
pub(crate) struct Streams<'a> {
    pub(crate) takes: &'a [u64],
    pub(crate) says: &'a [u64],
    pub(crate) pace: usize,
}

/// None fails, and each moves as much as it can.
pub(crate) const WHOLE: Streams<'static> = Streams {
    takes: &[],
    says: &[],
    pace: usize::MAX,
};

/// An outside over a disk, with these lines to take.
fn outside(
    alloc: Global,
    disk: Box<MemDisk>,
    lines: &[u8],
    streams: Streams<'_>,
) -> Result<Box<MemOutside>, AllocError> {
    let input = Vec::from_slice(alloc, lines)?;
    let takes = Vec::from_slice(alloc, streams.takes)?;
    let says = Vec::from_slice(alloc, streams.says)?;
    let out = MemOutside::new(Box::into_inner(disk), input, takes, says);
    boxed(alloc, out.with_pace(streams.pace.max(1)))
}

fn end_of(alloc: Global, status: u8, out: Box<MemOutside>) -> Result<Ended, Fail> {
    let said = Vec::from_slice(alloc, out.said())?;
    let disk = boxed(alloc, Box::into_inner(out).into_disk())?;
    Ok(Ended { status, said, disk })
}

/// A map built of these lines, over streams that may fail.
pub(crate) fn built_by(
    alloc: Global,
    disk: Box<MemDisk>,
    lines: &[u8],
    streams: Streams<'_>,
) -> Result<Ended, Fail> {
    let mut out = outside(alloc, disk, lines, streams)?;
    let status = fst_build(alloc, &mut *out);
    end_of(alloc, status, out)
}

/// These lines answered by the map of a disk, over streams that may fail.
pub(crate) fn served_by(
    alloc: Global,
    disk: Box<MemDisk>,
    lines: &[u8],
    streams: Streams<'_>,
) -> Result<Ended, Fail> {
    let mut out = outside(alloc, disk, lines, streams)?;
    let status = fst_serve(alloc, &mut *out);
    end_of(alloc, status, out)
}

pub(crate) fn built(alloc: Global, disk: Box<MemDisk>, lines: &[u8]) -> Result<Ended, Fail> {
    built_by(alloc, disk, lines, WHOLE)
}

pub(crate) fn served(alloc: Global, disk: Box<MemDisk>, lines: &[u8]) -> Result<Ended, Fail> {
    served_by(alloc, disk, lines, WHOLE)
}

/// Checks how a run ended. Where runs are numbered, a failing one is known by its number.
pub(crate) fn check(rt: &impl Abort, end: &Ended, status: u8, said: &[u8], number: u64) {
    check_same_at(rt, &number, &end.said.as_slice(), &said);
    check_same_at(rt, &number, &end.status, &status);
}
