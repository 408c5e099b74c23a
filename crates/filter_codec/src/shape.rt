//! Rule 9: the nodes.
ghost use Rattle.std.specs.Prelude.{◌≡◌, ◌≤◌, ◌<◌, ◌+◌, ◌*◌, ◌++◌, [], get_or, length, Some};
ghost use Rattle.std.specs.Option.{option_map};
ghost use Rattle.byte_fields.specs.Faults.{fault as fault_at};
ghost use Rattle.filter_codec.specs.Judging.{seen};
ghost use Rattle.filter_codec.specs.Rules.{is_wrong, labels_place, rise, shape_rule};
ghost use Rattle.filter_codec.specs.Tree.{Tree};
ghost use Rattle.filter_image_model.specs.Kinds.{leaves_beside, leaves_under};
ghost use Rattle.filter_image_model.specs.Reading.{is_no_node, is_no_root, nodes_fault};
ghost use Rattle.filter_model.specs.Image.{has_letter};
ghost use Rattle.filter_model.specs.Trie.{END};

use super::header::Header;
use super::tree::Packed;
use super::writing::HEADER_BYTES;
use filter_api::FilterFault;
use std::alloc::Allocator;

// END as a label.
const END_LABEL: u8 = 0xFF;

/// The first node that no trie of the kind has, where a leaf may be alone in its node, or may not.
pub(crate) fn shape_fault<A: Allocator>(
    header: &Header,
    packed: &Packed<A>,
    alone: bool,
) -> Option<FilterFault>
    requires { 0 < length (packed.now.dense ++ packed.now.sparse) }
    ensures { option_map seen result ≡ shape_rule header.now.height (leaves_under alone header.now.leaves) (leaves_beside alone header.now.leaves) packed.now.dense packed.now.sparse }
{
    if alone {
        shape_fault_by(header.height, 0, 1, packed)
    } else {
        shape_fault_by(header.height, header.leaves, header.leaves, packed)
    }
}

// The first node that no trie has, by the numbers of leaves by which the root and a node are judged.
fn shape_fault_by<A: Allocator>(
    height: u16,
    under: u32,
    beside: u32,
    packed: &Packed<A>,
) -> Option<FilterFault>
    requires { 0 < length (packed.now.dense ++ packed.now.sparse) }
    ensures { option_map seen result ≡ shape_rule height under beside packed.now.dense packed.now.sparse }
{
    if is_wrong_root(height, under, packed) {
        return fault(HEADER_BYTES);
    }
    if let Some(found) = rows_fault(beside, packed) {
        return Some(found);
    }
    labels_fault(beside, packed)
}

fn fault(place: usize) -> Option<FilterFault>
    ensures { option_map seen result ≡ Some (fault_at place 9) }
{
    Some(FilterFault {
        place: place as u64,
        rule: 9,
    })
}

// Whether END is a branch of the root, or there is more than the root for one leaf.
fn is_wrong_root<A: Allocator>(height: u16, leaves: u32, packed: &Packed<A>) -> bool
    requires { 0 < length (packed.now.dense ++ packed.now.sparse) }
    ensures { result ≡ is_no_root height leaves (packed.now.dense ++ packed.now.sparse) }
{
    has_end_at_root(packed) || (height > 1 && leaves == 1)
}

// Whether END is a branch of the root.
fn has_end_at_root<A: Allocator>(packed: &Packed<A>) -> bool
    requires { 0 < length (packed.now.dense ++ packed.now.sparse) }
    ensures { result ≡ has_letter (get_or (packed.now.dense ++ packed.now.sparse) 0 []) END }
{
    let ends = packed.dense_ends.bits();
    let labels = packed.labels.as_slice();
    if packed.dense_count() > 0 {
        ends.get(0)
    } else {
        packed.begin(1) > 1 && labels[0] == END_LABEL
    }
}

// The first dense node that no trie has.
fn rows_fault<A: Allocator>(leaves: u32, packed: &Packed<A>) -> Option<FilterFault>
    ensures { option_map seen result ≡ nodes_fault (λ n. 32) leaves 40 packed.now.dense }
{
    for node in 0..packed.dense_count() as usize {
        if is_wrong_row(leaves, packed, node) {
            return fault(HEADER_BYTES + 32 * node);
        }
    }
    None
}

// Whether a dense node has no branch, END alone, or one leaf alone where there are more.
fn is_wrong_row<A: Allocator>(leaves: u32, packed: &Packed<A>, node: usize) -> bool
    requires { node < length packed.now.dense }
    ensures { result ≡ is_no_node leaves (get_or packed.now.dense node []) }
{
    let ends = packed.dense_ends.bits();
    let (branches, children) = packed.row_counts(node);
    if branches != 1 {
        return branches == 0;
    }
    ends.get(node) || (children == 0 && leaves > 1)
}

// The first sparse node that no trie has.
fn labels_fault<A: Allocator>(leaves: u32, packed: &Packed<A>) -> Option<FilterFault>
    ensures { option_map seen result ≡ nodes_fault length leaves (labels_place (length packed.now.dense)) packed.now.sparse }
{
    let labels = packed.labels.as_slice();
    let children = packed.children.bits();
    let dense = packed.dense_count() as usize;
    let place = HEADER_BYTES + 64 * dense + dense.div_ceil(8);
    let mut start = 0;
    for node in 0..packed.sparse_count() {
        let end = packed.begin_behind(start);
        let leads_on = children.get(start);
        if is_wrong_node(leaves, leads_on, &labels[start..end]) {
            return fault(place + start);
        }
        start = end;
    }
    None
}

// Whether no trie has a sparse node with these labels, where its first branch leads to a node or does not.
fn is_wrong_node(leaves: u32, leads_on: bool, labels: &[u8]) -> bool
    requires { 0 < length labels.now }
    ensures { result ≡ is_wrong leaves leads_on labels.now }
{
    if labels.len() == 1 {
        return !leads_on && leaves > 1;
    }
    if labels[0] == END_LABEL {
        leads_on || !is_rising(&labels[1..])
    } else {
        !is_rising(labels)
    }
}

fn is_rising(labels: &[u8]) -> bool
    ensures { result ≡ rise labels.now }
{
    for i in 1..labels.len() {
        if labels[i - 1] >= labels[i] {
            return false;
        }
    }
    true
}
