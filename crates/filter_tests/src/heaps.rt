//! The filter of all keys of two bytes, decoded into a heap of 131,072 bytes, which a list of its stubs does not fit; and a
//! way that is too long to be in its cursor, in a heap with room for it and in one with none.

use super::filters::{filter_of, spelled};
use super::levels::pair_keys;
use super::sums::push_pair;
use super::tries::{base_trie, boxed};
use filter_api::Settings;
use filter_iter::{FilterCursor, least_of};
use filter_trie::Trie;
use key_base::KeyList;
use linked_list_allocator::LocalHeap;
use std::alloc::{AllocError, Allocator, Global};
use std::process::Abort;
use std::test::Fail;
use surf_filter::SurfFilter;

const HEAP_BYTES: usize = 131_072;

// The image of the filter with leaves of such widths.
fn image(alloc: Global, hash_bits: u8, real_bits: u8) -> Result<Vec<u8>, Fail> {
    let keys = pair_keys(alloc, 256)?;
    let settings = Settings {
        hash_bits,
        real_bits,
        ratio: 64,
    };
    let filter: SurfFilter<Global> = filter_of(alloc, &keys, settings)?;
    let filter = boxed(alloc, filter)?;
    let bytes = spelled(alloc, &*filter)?;
    Ok(bytes)
}

fn check_points<A: Allocator>(rt: &impl Abort, filter: &SurfFilter<A>) {
    assert!(rt; filter.leaves() == 65_536);
    assert!(rt; filter.may_hold(b"\x61\xFF") && filter.may_hold(b"\x61\xFFb"));
    assert!(rt; !filter.may_hold(b"\x61") && !filter.may_hold(b""));
}

fn check_counts<A: Allocator>(rt: &impl Abort, filter: &SurfFilter<A>) {
    assert!(rt; filter.seek(b"\x61") == Some(0x6100));
    assert!(rt; filter.seek(b"\xFF\xFF\x00") == Some(0xFFFF));
    assert!(rt; filter.tally(b"\x61\x00", b"\x61\xFF") == 256);
    assert!(rt; filter.tally(b"", b"\xFF\xFF") == 65_536);
}

fn check_filter<A: Allocator>(rt: &impl Abort, filter: &SurfFilter<A>) {
    check_points(rt, filter);
    check_counts(rt, filter);
}

// A cursor whose way is so short that it takes no memory, and a least string in the filter's heap.
fn check_cursor<A: Allocator>(
    rt: &impl Abort,
    heap: &LocalHeap,
    trie: &Trie<A>,
) -> Result<(), Fail> {
    let Some(cursor) = FilterCursor::start(heap, trie, b"\x61")? else {
        return Err(Fail::from("no leaf"));
    };
    let mut least = Vec::new(heap);
    cursor.least(&mut least)?;
    assert!(rt; cursor.leaf() == 0x6100 && least.as_slice() == b"\x61\x00".as_slice());
    Ok(())
}

// The least string of a leaf, behind that of another one.
fn check_least<A: Allocator>(
    rt: &impl Abort,
    heap: &LocalHeap,
    filter: &SurfFilter<A>,
) -> Result<(), Fail> {
    let mut least = Vec::new(heap);
    for n in [0x6100, 0xFFFF] {
        if n < filter.leaves() {
            filter.least_of(n, &mut least)?;
        }
    }
    assert!(rt; least.as_slice() == b"\x61\x00\xFF\xFF".as_slice());
    Ok(())
}

// What a heap may add: it rounds each block up to 16 bytes, and a trie has 14 at most, words and counts of three dense
// sections, labels, words beside counts or places of two sparse ones, suffixes, and words and places of sums.
const ROUNDED_BITS: u64 = 14 * 16 * 8;

// The memory that the filter says it takes is what it has of its heap.
fn check_memory<A: Allocator>(rt: &impl Abort, heap: &LocalHeap, filter: &SurfFilter<A>) {
    let said = filter.memory_bits();
    let held = (heap.used() as u64).saturating_mul(8);
    assert!(rt; said <= held && held <= said.saturating_add(ROUNDED_BITS));
}

fn check_read(rt: &impl Abort, heap: &LocalHeap, image: &[u8]) -> Result<(), Fail> {
    let filter = SurfFilter::decode_in(heap, image)?;
    check_filter(rt, &filter);
    assert!(rt; filter.image_bytes() == image.len() as u64);
    check_memory(rt, heap, &filter);
    check_cursor(rt, heap, filter.trie())?;
    check_least(rt, heap, &filter)
}

#[test]
fn all_keys_of_two_bytes_fit_a_small_heap(rt: HostRuntime) -> Result<(), Fail> {
    let bytes = image(rt.alloc(), 0, 0)?;
    let heap = LocalHeap::new(rt.alloc(), HEAP_BYTES)?;
    check_read(&rt, &heap, bytes.as_slice())
}

fn check_suffixes(rt: &impl Abort, heap: &LocalHeap, image: &[u8]) -> Result<(), Fail> {
    let filter = SurfFilter::decode_in(heap, image)?;
    assert!(rt; filter.widths() == (2, 1));
    check_memory(rt, heap, &filter);
    Ok(())
}

#[test]
fn a_filter_with_suffixes_takes_what_it_says(rt: HostRuntime) -> Result<(), Fail> {
    let bytes = image(rt.alloc(), 2, 1)?;
    let heap = LocalHeap::new(rt.alloc(), HEAP_BYTES)?;
    check_suffixes(&rt, &heap, bytes.as_slice())
}

// How many letters two keys share, each of which is a node on the way to their leaves. A cursor has room for 16.
const SHARED: usize = 200;

// A heap with no room for that way.
const SMALL_HEAP_BYTES: usize = 1_024;

// The trie of two keys with a k first, that part at the last letter, an a or a b.
fn high_trie(alloc: Global) -> Result<Box<Trie<Global>>, Fail> {
    let mut keys = KeyList::new(alloc);
    push_pair(alloc, &mut keys, b"k", SHARED)?;
    base_trie(alloc, &keys, 0)
}

// A cursor that starts at the first leaf has its way in the heap, and goes on to the second one.
fn check_long_way(rt: &impl Abort, heap: &LocalHeap, trie: &Trie<Global>) -> Result<(), Fail> {
    let before = heap.used();
    let Some(mut cursor) = FilterCursor::start(heap, trie, b"k")? else {
        return Err(Fail::from("no leaf"));
    };
    assert!(rt; heap.used().saturating_sub(before) >= SHARED.saturating_mul(8));
    assert!(rt; cursor.leaf() == 0 && cursor.next() && cursor.leaf() == 1);
    Ok(())
}

#[test]
fn a_long_way_takes_memory_and_gives_it_back(rt: HostRuntime) -> Result<(), Fail> {
    let trie = high_trie(rt.alloc())?;
    let heap = LocalHeap::new(rt.alloc(), HEAP_BYTES)?;
    check_long_way(&rt, &heap, &trie)?;
    assert!(rt; heap.used() == 0);
    Ok(())
}

// Bytes in a heap: the least string of the first leaf, after an x.
fn least_behind(heap: LocalHeap, trie: &Trie<Global>) -> Result<(bool, Vec<u8, LocalHeap>), Fail> {
    let mut least = Vec::new(heap);
    least.push(b'x')?;
    let mut done = false;
    if trie.leaves() > 0 {
        done = least_of(trie, 0, &mut least).is_ok();
    }
    Ok((done, least))
}

// A start fails where a leaf is sought, and says that there is none past the last one all the same.
fn check_no_room(rt: &impl Abort, heap: &LocalHeap, trie: &Trie<Global>) -> Result<(), Fail> {
    assert!(rt; FilterCursor::start(heap, trie, b"k").is_err());
    assert!(rt; FilterCursor::start(heap, trie, b"l")?.is_none());
    assert!(rt; heap.used() == 0);
    Ok(())
}

#[test]
fn a_long_way_may_find_no_memory(rt: HostRuntime) -> Result<(), Fail> {
    let trie = high_trie(rt.alloc())?;
    let heap = LocalHeap::new(rt.alloc(), SMALL_HEAP_BYTES)?;
    check_no_room(&rt, &heap, &trie)
}

#[test]
fn a_least_string_takes_its_way_of_the_heap_of_its_bytes(rt: HostRuntime) -> Result<(), Fail> {
    let trie = high_trie(rt.alloc())?;
    let (done, least) = least_behind(LocalHeap::new(rt.alloc(), HEAP_BYTES)?, &trie)?;
    assert!(rt; done && least.len() == SHARED + 3 && least.starts_with(b"xkm"));
    let (done, least) = least_behind(LocalHeap::new(rt.alloc(), SMALL_HEAP_BYTES)?, &trie)?;
    assert!(rt; !done && least.as_slice() == b"x".as_slice());
    Ok(())
}

// The stubs of the keys as a list in a heap.
fn stubs_in(heap: &LocalHeap) -> Result<usize, AllocError> {
    let mut stubs = Vec::new(heap);
    for number in 0..=0xFFFF_u16 {
        stubs.push(Vec::from_slice(heap, &number.to_be_bytes())?)?;
    }
    Ok(stubs.len())
}

#[test]
fn a_list_of_their_stubs_does_not(rt: HostRuntime) -> Result<(), Fail> {
    let heap = LocalHeap::new(rt.alloc(), HEAP_BYTES)?;
    assert!(rt; stubs_in(&heap).is_err());
    Ok(())
}
