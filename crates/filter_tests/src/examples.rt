//! The sections of a few keys, and what is counted at their places.
use super::keys::list_of_words;
use super::tries::trie_of;
use louds_dense::Dense;
use louds_sparse::Sparse;
use std::alloc::Global;
use std::process::Abort;
use std::test::Fail;

// Keys, and the labels and the words of bits that spell their trie where no level is dense.
type Spelled<'a> = (&'a [&'a [u8]], &'a [u8], u64, u64);

fn check_spelled(rt: &impl Abort, alloc: Global, example: &Spelled) -> Result<(), Fail> {
    let (words, labels, has_child, louds) = *example;
    let keys = list_of_words(alloc, words)?;
    let trie = trie_of(alloc, &keys, 0)?;
    check_sparse(rt, trie.sparse(), labels, has_child, louds);
    Ok(())
}

fn check_sparse(
    rt: &impl Abort,
    sparse: &Sparse<Global>,
    labels: &[u8],
    has_child: u64,
    louds: u64,
) {
    assert!(rt; sparse.labels() == labels);
    assert!(rt; sparse.has_child() == [has_child].as_slice());
    assert!(rt; sparse.louds() == [louds].as_slice());
}

#[test]
fn a_lone_ff_is_a_byte_and_a_first_one_of_two_is_end(rt: HostRuntime) -> Result<(), Fail> {
    let examples: [Spelled; 3] = [
        (
            &[b"far", b"fast", b"s", b"top", b"toy"],
            b"fstaorspy",
            0x1D,
            0xB9,
        ),
        (
            &[b"\x62\xFF\xFF\x78", b"\x62\xFF\xFF\x79"],
            b"\x62\xFF\xFF\x78\x79",
            0x07,
            0x0F,
        ),
        (&[b"\x61", b"\x61\xFF"], b"\x61\xFF\xFF", 0x01, 0x03),
    ];
    for example in &examples {
        check_spelled(&rt, rt.alloc(), example)?;
    }
    Ok(())
}

// The image has a header of 40 bytes and then these sections, of 64, 64 and 1 bytes: so its bytes 52, 84, 116 and 168 are
// 02, 04, 02 and 02, and the others behind the header 00.
#[test]
fn a_and_ab_are_spelled_by_four_dense_bits(rt: HostRuntime) -> Result<(), Fail> {
    let keys = list_of_words(rt.alloc(), &[b"a", b"ab"])?;
    let trie = trie_of(rt.alloc(), &keys, 2)?;
    check_dense(&rt, trie.dense());
    check_slots(&rt, trie.dense());
    Ok(())
}

fn check_dense(rt: &impl Abort, dense: &Dense<Global>) {
    assert!(rt; dense.labels() == [0, 0x02 << 32, 0, 0, 0, 0x04 << 32, 0, 0].as_slice());
    assert!(rt; dense.has_child() == [0, 0x02 << 32, 0, 0, 0, 0, 0, 0].as_slice());
    assert!(rt; dense.prefix() == [0x02].as_slice());
}

fn check_slots(rt: &impl Abort, dense: &Dense<Global>) {
    for (place, slot) in [(97, 0), (256, 1), (354, 1), (355, 2), (512, 2)] {
        assert!(rt; place <= dense.place_count());
        assert!(rt; dense.leaf_slot(place) == slot);
    }
}

#[test]
fn places_of_far_to_toy_count_clear_ones_too(rt: HostRuntime) -> Result<(), Fail> {
    let keys = list_of_words(rt.alloc(), &[b"far", b"fast", b"s", b"top", b"toy"])?;
    let trie = trie_of(rt.alloc(), &keys, 3)?;
    check_places(&rt, trie.dense());
    Ok(())
}

fn check_places(rt: &impl Abort, dense: &Dense<Global>) {
    for (place, slot, below) in [
        (0, 0, 1),
        (0x66, 0, 1),
        (0x67, 0, 2),
        (0x73, 0, 2),
        (0x74, 1, 2),
        (0x75, 1, 3),
        (0x161, 1, 3),
        (0x26F, 1, 4),
        (0x270, 1, 5),
        (0x372, 1, 5),
        (0x373, 2, 5),
        (0x470, 3, 5),
        (0x479, 4, 5),
        (0x47A, 5, 5),
        (0x500, 5, 5),
    ] {
        assert!(rt; place <= dense.place_count());
        assert!(rt; dense.leaf_slot(place) == slot);
        assert!(rt; dense.first_below(place) == below);
    }
}

#[test]
fn a_half_without_nodes_has_the_root_behind_it(rt: HostRuntime) -> Result<(), Fail> {
    let keys = list_of_words(rt.alloc(), &[b"a", b"ab"])?;
    let trie = trie_of(rt.alloc(), &keys, 0)?;
    check_no_nodes(&rt, trie.dense());
    Ok(())
}

fn check_no_nodes(rt: &impl Abort, dense: &Dense<Global>) {
    assert!(rt; !dense.has_node(0));
    assert!(rt; dense.place_count() == 0);
    assert!(rt; dense.leaf_slot(0) == 0);
    assert!(rt; dense.first_below(0) == 1);
}
