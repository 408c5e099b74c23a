//! The body of a map.
ghost use Rattle.std.specs.Prelude.{◌≡◌, ◌++◌, ◌≤◌, length, take, zip, IfErr, OnErr, OnOk};
ghost use Rattle.filter_model.specs.Image.{image};
ghost use Rattle.map_file_model.specs.Body.{body_of, front_of, slotted_values};
ghost use Rattle.map_file_model.specs.Maps.{max_map_pairs};
ghost use Rattle.map_writer.specs.Bodies.{ArePairs, IsBodyBy, IsCause, body_by, headed, max_body_bytes};
ghost use Rattle.map_writer.specs.Orders.{AreOrdered};
ghost use Rattle.map_writer.specs.Plans.{IsPlanOf};
ghost use Rattle.whole_keys.specs.Whole.{whole_leaves};

use super::error::FinishError;
use super::head::{HEAD_BYTES, head};
use super::order::slot_order;
use super::plan::Plan;
use super::trie::whole_trie;
use super::values::{push_offsets, push_values, value_bytes};
use byte_fields::{fnv1a, push_number};
use filter_codec::encode;
use key_base::KeyList;
use std::alloc::{AllocError, Global};

/// The most bytes of a body.
const MAX_BODY_BYTES: u64 = 1 << 31;

/// How many bytes a number of a body has that is not in its head.
const WORD_BYTES: u64 = 8;

/// Appends the body of the map of these keys and values, with as many levels dense as the rule allows by this ratio.
///
/// The keys rise, and there are as many values and at most 1,000,000. Fails where there is no pair, where the body would have
/// more than 2^31 bytes, which is known before the trie is made, or for want of memory; `out` stays as it was then. Goes over
/// the letters of all keys twice, and over the body once for its sum.
pub fn write_body(
    alloc: Global,
    keys: &KeyList,
    values: &KeyList,
    ratio: u16,
    out: &mut Vec<u8>,
) -> Result<(), FinishError>
    requires { ArePairs keys.now values.now }
    ensures some { OnOk result (1 ≤ length keys.now) }
    ensures added { OnOk result (out.new.items ≡ out.old.items ++ body_by ratio (zip keys.now values.now)) }
    ensures body { OnOk result (IsBodyBy ratio (zip keys.now values.now)) }
    ensures not_large { OnOk result (length (body_by ratio (zip keys.now values.now)) ≤ max_body_bytes) }
    ensures unchanged { OnErr result (out.new.items ≡ out.old.items) }
    ensures cause { IfErr result (IsCause ratio (zip keys.now values.now)) }
{
    if keys.is_empty() {
        return Err(FinishError::NoKeys);
    }
    let plan = Plan::of(alloc, keys, ratio)?;
    let order = slot_order(alloc, plan.spans.as_slice(), plan.levels.height())?;
    let bytes = body_bytes(keys, values, &plan, order.as_slice());
    if bytes > MAX_BODY_BYTES {
        return Err(FinishError::Large(bytes));
    }
    let len = out.len();
    match push_body(alloc, keys, values, plan, order.as_slice(), out) {
        Ok(()) => Ok(()),
        Err(_) => {
            out.truncate(len);
            Err(FinishError::Memory)
        }
    }
}

// How many bytes the body will have.
fn body_bytes(keys: &KeyList, values: &KeyList, plan: &Plan, order: &[u32]) -> u64
    requires pairs { ArePairs keys.now values.now }
    requires plan { IsPlanOf keys.now plan.now }
    requires order { AreOrdered values.now order.now (slotted_values (zip keys.now values.now)) }
    ensures { result ≡ length (body_of plan.now.cutoff (zip keys.now values.now)) }
{
    let words = WORD_BYTES * (keys.len() as u64 + 2);
    HEAD_BYTES as u64 + plan.image_bytes() + words + value_bytes(values, order)
}

// Appends the body. Without memory a part may stand behind what `out` was.
fn push_body(
    alloc: Global,
    keys: &KeyList,
    values: &KeyList,
    plan: Plan,
    order: &[u32],
    out: &mut Vec<u8>,
) -> Result<(), AllocError>
    requires pairs { ArePairs keys.now values.now }
    requires plan { IsPlanOf keys.now plan }
    requires order { AreOrdered values.now order.now (slotted_values (zip keys.now values.now)) }
    ensures added { OnOk result (out.new.items ≡ out.old.items ++ body_of plan.cutoff (zip keys.now values.now)) }
    ensures unchanged { OnErr result (take (length out.old.items) out.new.items ≡ out.old.items) }
{
    let from = out.len();
    push_front(alloc, keys, values, plan, order, out)?;
    let sum = fnv1a(&out[from..]);
    push_number(sum, WORD_BYTES as usize, out)
}

// Appends all but the sum. Without memory a part may stand behind what `out` was.
fn push_front(
    alloc: Global,
    keys: &KeyList,
    values: &KeyList,
    plan: Plan,
    order: &[u32],
    out: &mut Vec<u8>,
) -> Result<(), AllocError>
    requires pairs { ArePairs keys.now values.now }
    requires plan { IsPlanOf keys.now plan }
    requires order { AreOrdered values.now order.now (slotted_values (zip keys.now values.now)) }
    ensures added { OnOk result (out.new.items ≡ out.old.items ++ front_of (length keys.now) (image 0 0 plan.cutoff (whole_leaves keys.now)) (slotted_values (zip keys.now values.now))) }
    ensures unchanged { OnErr result (take (length out.old.items) out.new.items ≡ out.old.items) }
{
    push_image(alloc, keys, plan, out)?;
    push_offsets(values, order, out)?;
    push_values(values, order, out)
}

// Appends the head and the image. Without memory a part may stand behind what `out` was.
fn push_image(
    alloc: Global,
    keys: &KeyList,
    plan: Plan,
    out: &mut Vec<u8>,
) -> Result<(), AllocError>
    requires few { length keys.now ≤ max_map_pairs }
    requires plan { IsPlanOf keys.now plan }
    ensures added { OnOk result (out.new.items ≡ out.old.items ++ headed (length keys.now) (image 0 0 plan.cutoff (whole_leaves keys.now))) }
    ensures unchanged { OnErr result (take (length out.old.items) out.new.items ≡ out.old.items) }
{
    let trie = whole_trie(alloc, keys, plan)?;
    out.extend_from_slice(&head(keys.len() as u32, trie.image_bytes()))?;
    encode(&trie, out)
}
