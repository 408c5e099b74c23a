//! The first difference of two lists of leaves.
ghost use Rattle.std.specs.Prelude.{◌≡◌, ◌<◌, ◌^◌, ◌↔◌, length, slice_get, IsTrue};
ghost use Rattle.filter_model.specs.Answers.{first_difference as first_difference_of};

use crate::leaf::are_one_leaf;
use filter_api::LeafList;

// Whether two lists have the same leaf at place `i`, where the first one has a leaf.
fn agree_at(leaves: &LeafList, others: &LeafList, i: usize) -> bool
    requires { i < length leaves.now }
    ensures { IsTrue result ↔ (slice_get leaves.now i ≡ slice_get others.now i) }
{
    i < others.len() && are_one_leaf(leaves.get(i), others.get(i))
}

/// The least number at which two lists differ, or at which one has no leaf more, `None` where they are one list.
pub(crate) fn first_difference(leaves: &LeafList, others: &LeafList) -> Option<u32>
    requires few { length leaves.now < 2 ^ 32 }
    requires few_others { length others.now < 2 ^ 32 }
    ensures { result ≡ first_difference_of leaves.now others.now }
{
    for i in 0..leaves.len() {
        let alike = agree_at(leaves, others, i);
        if !alike {
            return Some(i as u32);
        }
    }
    if leaves.len() < others.len() {
        Some(leaves.len() as u32)
    } else {
        None
    }
}
