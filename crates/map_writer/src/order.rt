//! The order of the slots.
ghost use Rattle.std.specs.Prelude.{◌≡◌, ◌+◌, ◌<◌, ◌++◌, length, map, IfOk, OnOk};
ghost use Rattle.map_writer.specs.Orders.{ended_by, ended_on};
ghost use Rattle.trie_levels.specs.Gathering.{longer};

use std::alloc::{AllocError, Global};
use trie_levels::Span;

/// The numbers of the leaves with these spans, in the order of their slots: by the length of their paths, and then as the
/// leaves do.
///
/// Goes once a level over the paths that are left. Takes two blocks of memory, of 8 bytes a leaf and 4.
pub(crate) fn slot_order(alloc: Global, spans: &[Span], height: u16) -> Result<Vec<u32>, AllocError>
    ensures { IfOk result (λ order. order.items ≡ map (λ s. s.leaf) (ended_by height spans.now)) }
{
    let mut left = Vec::from_slice(alloc, spans)?;
    let mut order = Vec::with_capacity(alloc, spans.len())?;
    for level in 0..height {
        add_ended(&mut order, left.as_slice(), level)?;
        pass(&mut left, level);
    }
    Ok(order)
}

// Adds the numbers of the paths that end on a level.
fn add_ended(order: &mut Vec<u32>, spans: &[Span], level: u16) -> Result<(), AllocError>
    requires { level < 65535 }
    ensures { OnOk result (order.new.items ≡ order.old.items ++ map (λ s. s.leaf) (ended_on level spans.now)) }
{
    for i in 0..spans.len() {
        let span = spans[i];
        if span.len == level + 1 {
            order.push(span.leaf)?;
        }
    }
    Ok(())
}

// Lets go the paths that end on a level.
fn pass(spans: &mut Vec<Span>, level: u16)
    requires { level < 65535 }
    ensures { spans.new.items ≡ longer (level + 1) spans.old.items }
{
    let last = level + 1;
    spans.retain(|span| span.len > last);
}
