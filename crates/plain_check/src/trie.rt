//! The filter of a table.
use crate::finding::{Stop, refuse, refuse_sum};
use crate::header::{Header, judge_header};
use crate::leaves::{Leaf, leaves_in};
use crate::levels::judge_levels;
use crate::nodes::nodes_in;
use byte_fields::{Row, fnv1a};
use std::alloc::Global;

/// The leaves of the filter of a row, whose bytes these are.
pub(crate) fn filter_of(alloc: Global, row: &Row, bytes: &[u8]) -> Result<Vec<Leaf>, Stop> {
    refuse_sum(row.filter_sum, fnv1a(bytes))?;
    let header = Header::of(bytes);
    judge_header(bytes, &header)?;
    let nodes = nodes_in(alloc, bytes, &header)?;
    judge_levels(alloc, &header, nodes.as_slice())?;
    let leaves = leaves_in(alloc, bytes, &header, nodes.as_slice())?;
    refuse(header.leaves != row.entries, 12, 11)?;
    let widths = (header.hash_bits, header.real_bits);
    refuse(widths != (row.hash_bits, row.real_bits), 5, 12)?;
    Ok(leaves)
}
