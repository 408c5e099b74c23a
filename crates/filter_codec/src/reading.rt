//! The trie that bytes are the image of.
ghost use Rattle.std.specs.Prelude.{◌≡◌, ◌≤◌, ◌<◌, ◌^◌, ◌+◌, ◌*◌, ◌/◌, ◌++◌, length, IfOk, IfErr};
ghost use Rattle.std.specs.Option.{option_map};
ghost use Rattle.filter_codec.specs.Decoding.{AreOfTrie, IsCause, IsCauseBy, IsWholeCause, KeepsSections};
ghost use Rattle.filter_codec.specs.Judging.{header_in, image_end, kind_seen, places_by, seen};
ghost use Rattle.filter_codec.specs.Rules.{nodes_rule};
ghost use Rattle.filter_codec.specs.Tree.{Tree};
ghost use Rattle.filter_image_model.specs.Kinds.{IsKind};
ghost use Rattle.filter_image_model.specs.Laws.{IsImage, IsImageBy, IsWholeImage, whole_list};
ghost use Rattle.filter_trie.specs.Parts.{image_by};
ghost use Rattle.suffix_bits.specs.Slots.{SuffixArray};

use super::ends::ends_fault;
use super::head::{head_fault, length_fault, read_header};
use super::header::{Header, Places};
use super::kind::{Kind, STUBS, WHOLE_KEYS};
use super::levels::{counts_fault, louds_fault};
use super::sections::{cut, padding_fault, section_places, stray_fault};
use super::shape::shape_fault;
use super::tree::Packed;
use bit_words::Bits;
use filter_api::{DecodeError, FilterFault};
use filter_trie::Trie;
use louds_dense::Dense;
use louds_sparse::Sparse;
use std::alloc::Allocator;
use suffix_bits::Suffixes;

/// The trie that the bytes are the image of: what it stands for has this image and no other.
///
/// Fails exactly where the bytes are no image of a list for which a filter may stand, with the first rule that they break
/// and the place where they do, or for want of memory, which says nothing of the bytes. An image of 2^32 labels, or of 2^24
/// dense nodes, is want of memory too: the counts over its bits are not made. Takes what the sections and these counts need,
/// each block once and none before the bytes of its section are there, and in the end what the sums of one level need. Looks
/// at each section a few times and at each level twice at most; `Trie::keep_sums` says what those sums cost.
pub fn decode<A: Allocator + Clone>(alloc: A, bytes: &[u8]) -> Result<Trie<A>, DecodeError>
    ensures read { IfOk result (λ trie. IsImage trie bytes.now) }
    ensures refused { IfErr result (IsCause bytes.now) }
{
    decode_by(alloc, bytes, STUBS)
}

/// The trie of whole keys that the bytes are the image of: leaves without hash bits and real bits, any of which may be alone
/// in its node. What it stands for has this image and no other.
///
/// Fails exactly where the bytes are no such image, with the first rule of whole keys that they break, or for want of
/// memory. Costs what [`decode`] does.
pub fn decode_whole<A: Allocator + Clone>(alloc: A, bytes: &[u8]) -> Result<Trie<A>, DecodeError>
    ensures read { IfOk result (λ trie. IsWholeImage trie.cutoff trie.leaves bytes.now) }
    ensures no_bits { IfOk result (λ trie. trie ≡ whole_list trie.cutoff trie.leaves) }
    ensures refused { IfErr result (IsWholeCause bytes.now) }
{
    decode_by(alloc, bytes, WHOLE_KEYS)
}

// The trie that the bytes are the image of, by the rules of a kind.
fn decode_by<A: Allocator + Clone>(
    alloc: A,
    bytes: &[u8],
    kind: Kind,
) -> Result<Trie<A>, DecodeError>
    requires { IsKind (kind_seen kind) }
    ensures read { IfOk result (λ trie. IsImageBy (kind_seen kind) trie bytes.now) }
    ensures refused { IfErr result (IsCauseBy (kind_seen kind) bytes.now) }
{
    if let Some(fault) = head_fault(bytes, kind) {
        return Err(DecodeError::Fault(fault));
    }
    let header = read_header(bytes);
    if let Some(fault) = length_fault(bytes, &header) {
        return Err(DecodeError::Fault(fault));
    }
    let places = section_places(&header);
    if let Some(fault) = padding_fault(bytes, &header, &places) {
        return Err(DecodeError::Fault(fault));
    }
    let sections = cut(bytes, &header, &places);
    if let Some(fault) = stray_fault(sections.dense_labels, sections.dense_children) {
        return Err(DecodeError::Fault(fault));
    }
    read_nodes(alloc, bytes, &header, &places, kind)
}

// The trie of sections, whose bytes are judged.
fn read_nodes<A: Allocator + Clone>(
    alloc: A,
    bytes: &[u8],
    header: &Header,
    places: &Places,
    kind: Kind,
) -> Result<Trie<A>, DecodeError>
    requires kind { IsKind (kind_seen kind) }
    requires kept { KeepsSections (kind_seen kind) bytes.now }
    requires header { header.now ≡ header_in bytes.now }
    requires places { places.now ≡ places_by header.now }
    requires fits { image_end header.now < 2 ^ 64 }
    ensures read { IfOk result (λ trie. IsImageBy (kind_seen kind) trie bytes.now) }
    ensures refused { IfErr result (IsCauseBy (kind_seen kind) bytes.now) }
{
    let sections = cut(bytes, header, places);
    let louds = Bits::from_bytes(alloc.clone()?, sections.louds, header.labels as usize)?;
    if let Some(fault) = louds_fault(&louds, header.sparse) {
        return Err(DecodeError::Fault(fault));
    }
    let packed = Packed::of(alloc.clone()?, bytes, header, places, louds)?;
    let width = usize::from(header.hash_bits) + usize::from(header.real_bits);
    let bits = Bits::from_bytes(
        alloc.clone()?,
        sections.suffixes,
        header.leaves as usize * width,
    )?;
    let suffixes = Suffixes::of(
        bits,
        header.hash_bits,
        header.real_bits,
        u64::from(header.leaves),
    );
    if let Some(fault) = nodes_fault(header, &packed, &suffixes, places.suffixes, kind.alone) {
        return Err(DecodeError::Fault(fault));
    }
    let mut trie = trie_of(header, packed, suffixes);
    trie.keep_sums(alloc)?;
    Ok(trie)
}

// The first of the rules 8 to 10 that the nodes and the suffixes break, which begin at a place, where a leaf may be alone in
// its node, or may not.
fn nodes_fault<A: Allocator>(
    header: &Header,
    packed: &Packed<A>,
    suffixes: &Suffixes<A>,
    place: usize,
    alone: bool,
) -> Option<FilterFault>
    requires cutoff { header.now.cutoff ≤ header.now.height }
    requires height { 0 < header.now.height }
    requires count { length suffixes.now.slots ≡ header.now.leaves }
    requires place { place + length suffixes.now.slots * (suffixes.now.hash_bits + suffixes.now.real_bits) / 8 < 2 ^ 64 }
    requires wide { length suffixes.now.slots * (suffixes.now.hash_bits + suffixes.now.real_bits) < 2 ^ 64 }
    ensures { option_map seen result ≡ nodes_rule alone header.now.height header.now.cutoff header.now.leaves place suffixes.now packed.now.dense packed.now.sparse }
{
    if let Some(fault) = counts_fault(header, packed) {
        return Some(fault);
    }
    if let Some(fault) = shape_fault(header, packed, alone) {
        return Some(fault);
    }
    ends_fault(place, packed, suffixes)
}

// The trie with these parts.
fn trie_of<A: Allocator>(header: &Header, packed: Packed<A>, suffixes: Suffixes<A>) -> Trie<A>
    requires { AreOfTrie header.now.height header.now.cutoff packed.dense packed.sparse suffixes }
    ensures { result ≡ image_by header.now.cutoff header.now.height packed.dense packed.sparse suffixes }
{
    let Packed {
        dense_labels,
        dense_children,
        dense_ends,
        labels,
        children,
        louds,
    } = packed;
    let dense = Dense::of(dense_labels, dense_children, dense_ends);
    let sparse = Sparse::of(dense.counts(), labels, children, louds);
    Trie::of(header.cutoff, header.height, dense, sparse, suffixes)
}
