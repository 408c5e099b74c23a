//! What a table is: its entries, the bytes of its pages on a device, and what may be wrong with them.
//!
//! `specs/Tables` says what a table is to a state, and which one is made of some entries and deleted ranges. A row of the
//! manifest says where a table's blocks, index and filter are there, and keeps the lengths and sums of the last two. `specs/Images` says which table
//! the pages of a row spell, `specs/Written` which row a table has that is written, and `specs/Damage` what is wrong with an
//! index, a block or a filter: another sum than the kept one, or else the first rule that is broken, and where. The kind of
//! filter is a parameter: how it spells, and the first fault of bytes that spell nothing.
//!
//! Nothing here runs. Whoever builds, opens or reads a table is proved against these definitions; the bytes of blocks and
//! indexes are those of `block_model`. The functions have no body: each has laws or examples as its
//! contract.
//!
//! ```text
//! row      level 1, first page 204, a page of blocks, one of the index, one of the filter
//! blocks   at page 204        index   at page 205        filter   at page 206
//! ```
#![tactic(auto)]

pub mod examples;
mod laws;

pub use laws::{
    a_filter_has_one_damage, a_row_has_one_table, damage_is_placed, tables_are_kept,
    tables_have_no_damage,
};
