//! The spelling of a succinct filter is the image, and neither kind of filter reads the other's.

use super::filters::{filter_of_words, is_refused, spelled};
use super::images::{SPARSE, dense_image};
use super::tries::boxed;
use plain_filter::PlainFilter;
use std::alloc::Global;
use std::process::Abort;
use std::test::Fail;
use surf_filter::SurfFilter;

// The spelling of the filter of a and ab, which is no plain one.
fn check_image(rt: &impl Abort, alloc: Global, ratio: u16, image: &[u8]) -> Result<(), Fail> {
    let filter: SurfFilter<Global> = filter_of_words(alloc, &[b"a", b"ab"], 0, 0, ratio)?;
    let filter = boxed(alloc, filter)?;
    let bytes = spelled(alloc, &*filter)?;
    assert!(rt; bytes.as_slice() == image);
    assert!(rt; is_refused::<PlainFilter>(alloc, image, 0, 1));
    Ok(())
}

#[test]
fn the_spelling_is_the_image(rt: HostRuntime) -> Result<(), Fail> {
    let dense = dense_image(rt.alloc())?;
    check_image(&rt, rt.alloc(), 64, &SPARSE)?;
    check_image(&rt, rt.alloc(), 0, dense.as_slice())
}

// The plain spelling of words is no image.
fn check_plain(
    rt: &impl Abort,
    alloc: Global,
    words: &[&[u8]],
    place: u64,
    rule: u8,
) -> Result<(), Fail> {
    let filter: PlainFilter = filter_of_words(alloc, words, 0, 0, 64)?;
    let bytes = spelled(alloc, &filter)?;
    assert!(rt; is_refused::<SurfFilter<Global>>(alloc, bytes.as_slice(), place, rule));
    Ok(())
}

// Its fourth byte is another one, which is looked at where there are the forty of an image's begin.
#[test]
fn a_plain_spelling_is_no_image(rt: HostRuntime) -> Result<(), Fail> {
    check_plain(&rt, rt.alloc(), &[b"a", b"ab"], 35, 1)?;
    check_plain(&rt, rt.alloc(), &[b"a", b"b", b"c"], 3, 2)
}
