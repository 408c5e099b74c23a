//! Values in the order of the slots.
ghost use Rattle.std.specs.Prelude.{◌≡◌, ◌++◌, ◌≤◌, ◌^◌, length, take, OnErr, OnOk};
ghost use Rattle.std.specs.List.{concat};
ghost use Rattle.map_file_model.specs.Body.{offsets_of, words};
ghost use Rattle.map_writer.specs.Orders.{MayBeWritten, values_at};

use byte_fields::push_number;
use key_base::KeyList;
use std::alloc::AllocError;

/// How many bytes an offset has.
const OFFSET_BYTES: usize = 8;

/// How many bytes the values with these numbers have together.
pub(crate) fn value_bytes(values: &KeyList, order: &[u32]) -> u64
    requires { MayBeWritten values.now order.now }
    ensures exact { result ≡ length (concat (values_at values.now order.now)) }
    ensures few { result ≤ 2 ^ 50 }
{
    let mut bytes = 0;
    for i in 0..order.len() {
        bytes += values.get(order[i] as usize).len() as u64;
    }
    bytes
}

/// Appends where each of them begins, from where the first one does, and where the last one ends. Without memory a part may
/// stand behind what `out` was.
pub(crate) fn push_offsets(
    values: &KeyList,
    order: &[u32],
    out: &mut Vec<u8>,
) -> Result<(), AllocError>
    requires { MayBeWritten values.now order.now }
    ensures added { OnOk result (out.new.items ≡ out.old.items ++ words (offsets_of (values_at values.now order.now))) }
    ensures unchanged { OnErr result (take (length out.old.items) out.new.items ≡ out.old.items) }
{
    let mut end = 0;
    push_number(end, OFFSET_BYTES, out)?;
    for i in 0..order.len() {
        end += values.get(order[i] as usize).len() as u64;
        push_number(end, OFFSET_BYTES, out)?;
    }
    Ok(())
}

/// Appends them one after the other. Without memory a part may stand behind what `out` was.
pub(crate) fn push_values(
    values: &KeyList,
    order: &[u32],
    out: &mut Vec<u8>,
) -> Result<(), AllocError>
    requires { MayBeWritten values.now order.now }
    ensures added { OnOk result (out.new.items ≡ out.old.items ++ concat (values_at values.now order.now)) }
    ensures unchanged { OnErr result (take (length out.old.items) out.new.items ≡ out.old.items) }
{
    for i in 0..order.len() {
        out.extend_from_slice(values.get(order[i] as usize))?;
    }
    Ok(())
}
