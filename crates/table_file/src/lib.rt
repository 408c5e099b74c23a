//! Tables on a device: built in memory, written to pages, opened again with their filter, searched with one read, and walked
//! block by block.
//!
//! A [`TableBuilder`] takes entries by rising keys and cuts them into blocks as it goes; [`Parts`] are the blocks, the index
//! and the filter of its entries, and [`write_parts`] puts them on a device by three writes and a sync. At `Ok` each image
//! that a crash may leave has the table. [`open_table`] reads index and filter and judges every byte of them before it is
//! trusted, and [`read_index`] and [`read_filter`] do so of one of them; a [`Table`] then answers a [`get`](Table::get) by one
//! read of one block, or by none where its filter denies the key. A [`TableCursor`] walks the entries from a key on: it reads a
//! block where one is due, builds each key in a buffer of its own, and lends each value from the block. The kind of filter and
//! the device are parameters, known by their traits alone.
//!
//! An opened table keeps its index and its filter in memory: about 60 bytes and a key for each block. Building keeps all of
//! the table's bytes, and its keys until the filter is built. Not for entries that come in any order, and not for a change of
//! a table that is written: one writes another.
//!
//! ```text
//! let mut builder = TableBuilder::new(alloc, settings);
//! builder.add(b"a", Some(b"b"))?;
//! let parts: Parts<F> = builder.finish()?;
//! write_parts(&mut disk, 192, &parts)?;
//! let table: Table<F> = open_table(alloc, &mut disk, &parts.row(0, 192))?;
//! table.get(&mut disk, b"a", &mut buf)? == Some(Some(b"b"))      // Some(None) for a tombstone
//! let mut cursor = table.cursor(alloc, b"")?;
//! while let Some((key, value)) = cursor.next(&mut disk, &table)? { .. }
//! ```
#![tactic(auto)]

mod block_buffer;
mod block_row;
mod builder;
mod cursor;
mod fault;
mod index;
mod index_order;
mod index_ranges;
mod index_row;
pub mod laws;
mod opening;
mod padded;
mod parts;
mod row_index;
mod sum_four_blocks;
mod summing;
mod table;
mod tables;
mod writing;

pub use builder::TableBuilder;
pub use cursor::TableCursor;
pub use fault::TableFault;
pub use opening::{fits_device, open_table, read_filter, read_index};
pub use parts::{Parts, pages_of};
pub use row_index::Index;
pub use table::{LARGEST_BLOCK_BYTES, Table};
pub use tables::Tables;
pub use writing::write_parts;
