//! The nodes that packed sections spell, whatever they are.
ghost use Rattle.std.specs.Prelude.{◌≡◌, ◌≤◌, ◌<◌, ◌^◌, ◌+◌, ◌*◌, ◌++◌, [], ◌∷◌, count_by, get_or, length, take, IfOk, ℕ};
ghost use Rattle.bit_model.specs.Packed.{unpacked};
ghost use Rattle.filter_codec.specs.Judging.{header_in, image_end, places_by};
ghost use Rattle.filter_codec.specs.Tree.{AreSparse, Tree};
ghost use Rattle.filter_image_model.specs.Header.{section, section_bytes};
ghost use Rattle.filter_image_model.specs.Levels.{children_of, leaf_count_of};
ghost use Rattle.filter_image_model.specs.Nodes.{dense_in, sparse_in, sparse_nodes};
ghost use Rattle.filter_image_model.specs.Sections.{KeepsBytes};
ghost use Rattle.filter_model.specs.Nodes.{all, first_place};
ghost use Rattle.louds_dense.specs.Spelling.{IsSpelled, nodes_in};

use super::header::{Header, Places};
use super::sections::cut;
use bit_rank::Ranked;
use bit_select::Selected;
use bit_words::Bits;
use lane_scan::ones;
use std::alloc::{AllocError, Allocator};
use std::marker::Model;

// More nodes or labels than any memory holds.
const MANY_NODES: u64 = 0x20_0000_0000_0000;

const MANY_LABELS: u64 = 0x4000_0000_0000_0000;

/// The packed sections of both halves of a trie, with what finds and counts their bits.
#[derive(Drop)]
pub(crate) struct Packed<A: Allocator> {
    pub(crate) dense_labels: Ranked<A>,
    pub(crate) dense_children: Ranked<A>,
    pub(crate) dense_ends: Ranked<A>,
    pub(crate) labels: Vec<u8, A>,
    pub(crate) children: Ranked<A>,
    pub(crate) louds: Selected<A>,
}

impl<A: Allocator> Model for Packed<A> {
    ghost use Rattle.filter_codec.specs.Tree.{AreSparse, Tree};
    ghost use Rattle.filter_image_model.specs.Nodes.{sparse_nodes};
    ghost use Rattle.louds_dense.specs.Spelling.{IsSpelled, nodes_in};

    ghost Value = { Tree };

    ghost view = { λ p. record { dense = nodes_in p.dense_labels p.dense_children p.dense_ends; sparse = sparse_nodes p.labels.items p.children p.louds } };

    ghost invariant = { λ p. IsSpelled p.dense_labels p.dense_children p.dense_ends (nodes_in p.dense_labels p.dense_children p.dense_ends) × AreSparse p.labels.items p.children p.louds (sparse_nodes p.labels.items p.children p.louds) };
}

impl<A: Allocator> Packed<A> {
    /// Copies the sections of an image, and makes what finds and counts their bits.
    pub(crate) fn of(
        alloc: A,
        bytes: &[u8],
        header: &Header,
        places: &Places,
        louds: Bits<A>,
    ) -> Result<Packed<A>, AllocError>
    where
        A: Clone,
        requires kept { KeepsBytes bytes.now }
        requires header { header.now ≡ header_in bytes.now }
        requires places { places.now ≡ places_by header.now }
        requires louds { louds ≡ section 5 bytes.now }
        ensures { IfOk result (λ p. p ≡ record { dense = dense_in bytes.now; sparse = sparse_in bytes.now }) }
    {
        if header.dense > MANY_NODES || header.labels >= MANY_LABELS {
            return Err(AllocError);
        }
        let upper = Upper::of(alloc.clone()?, bytes, header, places)?;
        let lower = Lower::of(alloc, bytes, header, places, louds)?;
        Ok(joined(upper, lower))
    }

    /// How many nodes are dense.
    pub(crate) fn dense_count(&self) -> u64
        ensures count { result ≡ length self.now.dense }
        ensures few { result ≤ 2 ^ 53 }
    {
        self.dense_ends.bits().len() as u64
    }

    /// How many nodes are sparse.
    pub(crate) fn sparse_count(&self) -> u64
        ensures count { result ≡ length self.now.sparse }
        ensures few { result < 2 ^ 62 }
    {
        set_bits(self.louds.bits())
    }

    /// How many nodes there are.
    pub(crate) fn node_count(&self) -> u64
        ensures { result ≡ length (self.now.dense ++ self.now.sparse) }
    {
        self.dense_count() + self.sparse_count()
    }

    /// How many branches of the first so many nodes lead to a node.
    pub(crate) fn children_before(&self, nodes: u64) -> u64
        requires { nodes ≤ length (self.now.dense ++ self.now.sparse) }
        ensures children { result ≡ children_of (take nodes (self.now.dense ++ self.now.sparse)) }
        ensures few { result < 2 ^ 63 }
    {
        let dense = self.dense_ends.bits().len();
        let nodes = nodes as usize;
        if nodes <= dense {
            return self.dense_children.rank(256 * nodes) as u64;
        }
        let place = self.begin(nodes - dense);
        (self.dense_children.rank(256 * dense) + self.children.rank(place)) as u64
    }

    /// The place of the labels at which a sparse node begins, or the one behind the last.
    pub(crate) fn begin(&self, number: usize) -> usize
        requires { number ≤ length self.now.sparse }
        ensures { result ≡ first_place self.now.sparse number }
    {
        match self.louds.select(number) {
            Some(place) => place,
            None => self.labels.len(),
        }
    }

    /// The place of the labels at which the next sparse node begins, behind the one that begins at `start`, or the one behind
    /// the last.
    pub(crate) fn begin_behind(&self, start: usize) -> usize
        requires { start < length (all self.now.sparse) }
        ensures { (number : ℕ) → number < length self.now.sparse → start ≡ first_place self.now.sparse number → result ≡ first_place self.now.sparse (number + 1) }
    {
        match self.louds.bits().first_one_from(start + 1) {
            Some(place) => place,
            None => self.labels.len(),
        }
    }

    /// How many branches a dense node has, and how many of them lead to a node.
    pub(crate) fn row_counts(&self, node: usize) -> (usize, usize)
        requires { node < length self.now.dense }
        ensures branches { result.0 ≡ length (get_or self.now.dense node []) }
        ensures children { result.1 ≡ children_of (get_or self.now.dense node [] ∷ []) }
    {
        let before = self.dense_labels.rank(256 * node) + self.dense_ends.rank(node);
        let behind = self.dense_labels.rank(256 * (node + 1)) + self.dense_ends.rank(node + 1);
        let below = self.dense_children.rank(256 * node);
        let children = self.dense_children.rank(256 * (node + 1)) - below;
        (behind - before, children)
    }

    /// How many branches are leaves.
    pub(crate) fn leaf_count(&self) -> u64
        ensures { result ≡ leaf_count_of (self.now.dense ++ self.now.sparse) }
    {
        let dense = self.dense_ends.bits().len();
        let labels = self.labels.len();
        let branches = self.dense_labels.rank(256 * dense) + self.dense_ends.rank(dense) + labels;
        let children = self.dense_children.rank(256 * dense) + self.children.rank(labels);
        (branches - children) as u64
    }
}

// The dense sections.
#[derive(Drop)]
struct Upper<A: Allocator> {
    labels: Ranked<A>,
    children: Ranked<A>,
    ends: Ranked<A>,
}

impl<A: Allocator + Clone> Upper<A> {
    fn of(alloc: A, bytes: &[u8], header: &Header, places: &Places) -> Result<Upper<A>, AllocError>
        requires few { header.now.dense ≤ 2 ^ 53 }
        requires header { header.now ≡ header_in bytes.now }
        requires places { places.now ≡ places_by header.now }
        requires whole { image_end header.now ≡ length bytes.now }
        ensures labels { IfOk result (λ upper. upper.labels ≡ section 0 bytes.now) }
        ensures children { IfOk result (λ upper. upper.children ≡ section 1 bytes.now) }
        ensures ends { IfOk result (λ upper. upper.ends ≡ section 2 bytes.now) }
    {
        let sections = cut(bytes, header, places);
        let dense = header.dense as usize;
        Ok(Upper {
            labels: ranked(alloc.clone()?, sections.dense_labels, 256 * dense)?,
            children: ranked(alloc.clone()?, sections.dense_children, 256 * dense)?,
            ends: ranked(alloc, sections.dense_ends, dense)?,
        })
    }
}

// The sparse sections.
#[derive(Drop)]
struct Lower<A: Allocator> {
    labels: Vec<u8, A>,
    children: Ranked<A>,
    louds: Selected<A>,
}

impl<A: Allocator + Clone> Lower<A> {
    fn of(
        alloc: A,
        bytes: &[u8],
        header: &Header,
        places: &Places,
        louds: Bits<A>,
    ) -> Result<Lower<A>, AllocError>
        requires header { header.now ≡ header_in bytes.now }
        requires places { places.now ≡ places_by header.now }
        requires whole { image_end header.now ≡ length bytes.now }
        ensures labels { IfOk result (λ lower. lower.labels.items ≡ section_bytes 3 bytes.now) }
        ensures children { IfOk result (λ lower. lower.children ≡ section 4 bytes.now) }
        ensures louds { IfOk result (λ lower. lower.louds ≡ louds) }
    {
        let sections = cut(bytes, header, places);
        Ok(Lower {
            labels: Vec::from_slice(alloc.clone()?, sections.labels)?,
            children: ranked(alloc.clone()?, sections.children, header.labels as usize)?,
            louds: Selected::new(alloc, louds)?,
        })
    }
}

// All sections.
fn joined<A: Allocator>(upper: Upper<A>, lower: Lower<A>) -> Packed<A>
    requires dense { IsSpelled upper.labels upper.children upper.ends (nodes_in upper.labels upper.children upper.ends) }
    requires sparse { AreSparse lower.labels.items lower.children lower.louds (sparse_nodes lower.labels.items lower.children lower.louds) }
    ensures { result ≡ record { dense = nodes_in upper.labels upper.children upper.ends; sparse = sparse_nodes lower.labels.items lower.children lower.louds } }
{
    Packed {
        dense_labels: upper.labels,
        dense_children: upper.children,
        dense_ends: upper.ends,
        labels: lower.labels,
        children: lower.children,
        louds: lower.louds,
    }
}

/// How many bits are set.
pub(crate) fn set_bits<A: Allocator>(bits: &Bits<A>) -> u64
    ensures { result ≡ count_by (λ b. b) bits.now }
{
    ones(bits.words())
}

// Copied bits, whose set ones are counted.
fn ranked<A: Allocator + Clone>(alloc: A, bytes: &[u8], len: usize) -> Result<Ranked<A>, AllocError>
    requires { len ≤ 8 * length bytes.now }
    ensures { IfOk result (λ ranked. ranked ≡ unpacked 8 bytes.now len) }
{
    let bits = Bits::from_bytes(alloc.clone()?, bytes, len)?;
    Ranked::new(alloc, bits)
}
