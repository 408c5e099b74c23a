//! The first difference of the leaves of two tries.
ghost use Rattle.std.specs.Prelude.{◌≡◌, ◌<◌, ◌↔◌, length, slice_get, true, IsTrue, IfOk, IfSome};
ghost use Rattle.filter_model.specs.Answers.{first_difference as first_difference_of};
ghost use Rattle.filter_model.specs.Image.{image};

use crate::filter::SurfFilter;
use filter_iter::FilterCursor;
use filter_trie::Trie;
use key_base::MAX_KEY_BYTES;
use std::alloc::{AllocError, Allocator, Global};

// Whether the leaves of two cursors have one stub. The bytes are for the two stubs.
fn have_one_stub<A: Allocator, B: Allocator>(
    cursor: &FilterCursor<'_, A, B>,
    others: &FilterCursor<'_, A, B>,
    stub: &mut [u8; MAX_KEY_BYTES],
    other_stub: &mut [u8; MAX_KEY_BYTES],
) -> bool
    requires within { cursor.now.leaf < length cursor.now.image.leaves }
    requires within_others { others.now.leaf < length others.now.image.leaves }
    ensures { IfSome (slice_get cursor.now.image.leaves cursor.now.leaf)
        (λ l. IfSome (slice_get others.now.image.leaves others.now.leaf) (λ o. IsTrue result ↔ (l.stub ≡ o.stub))) }
{
    let len = cursor.stub(stub);
    let other_len = others.stub(other_stub);
    stub[..len] == other_stub[..other_len]
}

// Whether two cursors are at one leaf, hash bits and real bits too. The bytes are for the two stubs.
fn are_at_one<A: Allocator, B: Allocator>(
    cursor: &FilterCursor<'_, A, B>,
    others: &FilterCursor<'_, A, B>,
    stub: &mut [u8; MAX_KEY_BYTES],
    other_stub: &mut [u8; MAX_KEY_BYTES],
) -> bool
    requires within { cursor.now.leaf < length cursor.now.image.leaves }
    requires within_others { others.now.leaf < length others.now.image.leaves }
    ensures { IsTrue result ↔ (slice_get cursor.now.image.leaves cursor.now.leaf ≡ slice_get others.now.image.leaves others.now.leaf) }
{
    cursor.ends() == others.ends()
        && cursor.suffix() == others.suffix()
        && have_one_stub(cursor, others, stub, other_stub)
}

// The first difference of the leaves of two tries, by a cursor over each that is at its first leaf.
fn first_apart<A: Allocator, B: Allocator>(
    trie: &Trie<A>,
    other: &Trie<A>,
    cursor: &mut FilterCursor<'_, A, B>,
    others: &mut FilterCursor<'_, A, B>,
) -> Option<u32>
    requires cursor { cursor.old ≡ record { image = trie.now; leaf = 0 } }
    requires others { others.old ≡ record { image = other.now; leaf = 0 } }
    ensures { result ≡ first_difference_of trie.now.leaves other.now.leaves }
{
    let mut stub = [0; MAX_KEY_BYTES];
    let mut other_stub = [0; MAX_KEY_BYTES];
    let both = trie.leaves().min(other.leaves());
    for n in 0..both {
        let alike = are_at_one(cursor, others, &mut stub, &mut other_stub);
        if !alike {
            return Some(n);
        }
        let _ = cursor.next();
        let _ = others.next();
    }
    if trie.leaves() == other.leaves() {
        None
    } else {
        Some(both)
    }
}

// A cursor at the first leaf of a trie.
fn at_first<'a, A: Allocator, B: Allocator>(
    alloc: &'a B,
    trie: &'a Trie<A>,
) -> Result<FilterCursor<'a, A, B>, AllocError>
    ensures { IfOk result (λ cursor. cursor ≡ record { image = trie.now; leaf = 0 }) }
{
    // The clause of the height says that the leaves are a leaf list, of one leaf or more.
    let _ = trie.height();
    match FilterCursor::start(alloc, trie, &[])? {
        Some(cursor) => Ok(cursor),
        None => unreachable!(),
    }
}

// The first difference of the leaves of two tries, by a cursor over each. Takes the memory of both, and gives it back.
fn difference_of_tries<A: Allocator, B: Allocator>(
    alloc: &B,
    trie: &Trie<A>,
    other: &Trie<A>,
) -> Result<Option<u32>, AllocError>
    ensures { IfOk result (λ n. n ≡ first_difference_of trie.now.leaves other.now.leaves) }
{
    let mut cursor = at_first(alloc, trie)?;
    let mut others = at_first(alloc, other)?;
    Ok(first_apart(trie, other, &mut cursor, &mut others))
}

// The image of a filter.
fn image_of(alloc: Global, filter: &SurfFilter<Global>) -> Result<Vec<u8>, AllocError>
    ensures { IfOk result (λ bytes. bytes.items ≡ image filter.now.hash_bits filter.now.real_bits filter.now.cutoff filter.now.leaves) }
{
    let mut bytes = Vec::with_capacity(alloc, filter.image_bytes() as usize)?;
    filter.encode(&mut bytes)?;
    Ok(bytes)
}

// Whether two filters have one image, and so the same leaves. `false` too where there is no memory for both images.
fn have_one_image(alloc: Global, filter: &SurfFilter<Global>, other: &SurfFilter<Global>) -> bool
    ensures { result ≡ true → filter.now.leaves ≡ other.now.leaves }
{
    if filter.trie().image_bytes() != other.trie().image_bytes() {
        return false;
    }
    match (image_of(alloc, filter), image_of(alloc, other)) {
        (Ok(bytes), Ok(others)) => bytes[..] == others[..],
        _ => false,
    }
}

/// The least number, in key order from 0, at which the leaves of two filters differ, or at which one has no leaf more, `None`
/// where they are the same.
///
/// Filters of one list and one cutoff have one image, so images are compared first, where there is memory for them: that is
/// ten times as fast as the cursors are. Takes the memory of two images and then of two cursors, and gives it back.
pub(crate) fn first_difference(
    alloc: Global,
    filter: &SurfFilter<Global>,
    other: &SurfFilter<Global>,
) -> Result<Option<u32>, AllocError>
    ensures { IfOk result (λ n. n ≡ first_difference_of filter.now.leaves other.now.leaves) }
{
    if have_one_image(alloc, filter, other) {
        return Ok(None);
    }
    difference_of_tries(&alloc, filter.trie(), other.trie())
}
