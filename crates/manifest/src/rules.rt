//! The rules of a body, each with the place at which it is broken.
ghost use Rattle.std.specs.Prelude.{◌≡◌, ◌≤◌, ◌<◌, ◌+◌, ◌*◌, ◌^◌, ◌||◌, ◌==◌, not, nat_lt, position, length, take, drop, map, ◌∷◌, None, IfOk, List};
ghost use Rattle.std.specs.Option.{option_or};
ghost use Rattle.std.specs.List.{list_any};
ghost use Rattle.std.specs.List.Sorted.{IsPermutation};
ghost use Rattle.byte_fields.specs.Faults.{Fault, refuse};
ghost use Rattle.byte_fields.specs.declared.parts.Row as rows;
ghost use Rattle.key_base.specs.Limits.{max_device_pages, max_hash_bits, max_real_bits, max_tables};
ghost use Rattle.manifest_model.specs.Reading.{early_fault, last_zeros_fault, leaves, log_area_fault, meets_row, numbers_fault, settings_fault, table_row_fault, zeros_fault};
ghost use Rattle.manifest_model.specs.Rows.{extent_of};

use crate::writing::{FIRST_FORMAT, FORMAT, HEAD_BYTES, MAGIC, ROW_BYTES};
use block_model::pages_for;
use byte_fields::{Row, get_u16, get_u32, get_u64};
use extent_map::Extents;
use key_base::{
    LOG_PAGES, MAX_DEVICE_PAGES, MAX_HASH_BITS, MAX_LEVEL, MAX_REAL_BITS, MAX_TABLES,
    MIN_DEVICE_PAGES,
};
use std::alloc::AllocError;
use std::marker::Model;

/// A rule that a body breaks, and the place in the body.
#[derive(Drop)]
pub(crate) struct Broken {
    pub(crate) place: u32,
    pub(crate) rule: u8,
}

impl Model for Broken {
    ghost use Rattle.byte_fields.specs.Faults.{Fault};

    ghost Value = { Fault };

    ghost view = { λ b. record { place = b.place; rule = b.rule } };
}

/// The first of two.
pub(crate) fn first_of(first: Option<Broken>, second: Option<Broken>) -> Option<Broken>
    ensures { result ≡ option_or first second }
{
    match first {
        Some(broken) => Some(broken),
        None => second,
    }
}

/// Rules 1 to 3, which are tried before the sum: the magic, the format, the count of tables.
#[tactic(auto, unfolding(manifest_model::specs::Reading::early_fault))]
pub(crate) fn head_rules(head: &[u8]) -> Option<Broken>
    requires { 64 ≤ length head.now }
    ensures { result ≡ early_fault head.now }
{
    if get_u32(head, 0) != MAGIC {
        return Some(Broken { place: 0, rule: 1 });
    }
    let format = get_u16(head, 4);
    if format != FIRST_FORMAT && format != FORMAT {
        return Some(Broken { place: 4, rule: 2 });
    }
    if usize::from(get_u16(head, 6)) > MAX_TABLES {
        return Some(Broken { place: 6, rule: 3 });
    }
    None
}

/// Rules 4 and 5 of the head: the epoch, the pages, the settings of new tables.
#[tactic(auto, unfolding(manifest_model::specs::Reading::numbers_fault))]
pub(crate) fn number_rules(body: &[u8]) -> Option<Broken>
    requires { 64 ≤ length body.now }
    ensures { result ≡ numbers_fault body.now }
{
    if get_u64(body, 8) == 0 {
        return Some(Broken { place: 8, rule: 4 });
    }
    let pages = get_u32(body, 16);
    if pages < MIN_DEVICE_PAGES || pages > MAX_DEVICE_PAGES {
        return Some(Broken { place: 16, rule: 5 });
    }
    if body[20] > MAX_HASH_BITS {
        return Some(Broken { place: 20, rule: 5 });
    }
    if body[21] > MAX_REAL_BITS {
        return Some(Broken { place: 21, rule: 5 });
    }
    None
}

/// Rule 5 of a row that stands at a place: the settings of its table.
fn settings_rule(place: u32, row: &Row) -> Option<Broken>
    requires { place ≤ 2 ^ 30 }
    ensures { result ≡ refuse (nat_lt max_hash_bits row.now.hash_bits) (place + 56) 5 (refuse (nat_lt max_real_bits row.now.real_bits) (place + 57) 5 None) }
{
    if row.hash_bits > MAX_HASH_BITS {
        return Some(Broken {
            place: place + 56,
            rule: 5,
        });
    }
    if row.real_bits > MAX_REAL_BITS {
        return Some(Broken {
            place: place + 57,
            rule: 5,
        });
    }
    None
}

/// Rule 5 of rows, the first of which stands after the head.
pub(crate) fn settings_rules(rows: &[Row]) -> Option<Broken>
    requires { length rows.now ≤ max_tables }
    ensures { result ≡ settings_fault 64 rows.now }
{
    let mut place = HEAD_BYTES as u32;
    for row in rows {
        let broken = settings_rule(place, row);
        if broken.is_some() {
            return broken;
        }
        place += ROW_BYTES as u32;
    }
    None
}

/// Rule 6: the log area.
#[tactic(auto, unfolding(manifest_model::specs::Reading::log_area_fault))]
pub(crate) fn log_area_rules(body: &[u8]) -> Option<Broken>
    requires { 64 ≤ length body.now }
    ensures { result ≡ log_area_fault body.now }
{
    let log_page = get_u32(body, 24);
    if log_page != LOG_PAGES && log_page != 2 * LOG_PAGES {
        return Some(Broken { place: 24, rule: 6 });
    }
    if get_u32(body, 28) != LOG_PAGES {
        return Some(Broken { place: 28, rule: 6 });
    }
    None
}

/// Rule 7, of bytes that must be 0 and stand from a place on.
#[tactic(auto, unfolding(manifest_model::specs::Reading::zeros_fault))]
pub(crate) fn zeros_rule(place: u32, bytes: &[u8]) -> Option<Broken>
    requires { place + length bytes.now ≤ 2 ^ 31 }
    ensures { result ≡ zeros_fault place bytes.now }
{
    match first_other(bytes) {
        Some(at) => Some(Broken {
            place: place + at as u32,
            rule: 7,
        }),
        None => None,
    }
}

// The first byte that is not 0.
fn first_other(bytes: &[u8]) -> Option<usize>
    ensures { result ≡ position (λ b. not (b == 0)) bytes.now }
{
    bytes.iter().position(|byte| *byte != 0)
}

/// Rule 7, of a row that stands at a place.
pub(crate) fn row_zeros_rule(format: u16, place: u32, row: &[u8]) -> Option<Broken>
    requires place { place ≤ 2 ^ 30 }
    requires long { 64 ≤ length row.now }
    ensures { result ≡ option_or (zeros_fault (place + 1) (take 3 (drop 1 row.now))) (last_zeros_fault format place row.now) }
{
    first_of(
        zeros_rule(place + 1, &row[1..4]),
        last_zeros_rule(format, place, row),
    )
}

// Rule 7 of a row's last bytes, from the first on that names no setting.
fn last_zeros_rule(format: u16, place: u32, row: &[u8]) -> Option<Broken>
    requires place { place ≤ 2 ^ 30 }
    requires long { 64 ≤ length row.now }
    ensures { result ≡ last_zeros_fault format place row.now }
{
    if format == FIRST_FORMAT {
        zeros_rule(place + 56, &row[56..64])
    } else {
        zeros_rule(place + 60, &row[60..64])
    }
}

/// Rule 8, of a row that stands at a place: its level, its pages, its entries.
#[tactic(auto, unfolding(manifest_model::specs::Reading::table_row_fault))]
pub(crate) fn row_rule(place: u32, row: &Row) -> Option<Broken>
    requires { place ≤ 2 ^ 30 }
    ensures { result ≡ table_row_fault place row.now }
{
    if row.level > MAX_LEVEL {
        return Some(Broken { place, rule: 8 });
    }
    if row.data_pages == 0 {
        return Some(Broken {
            place: place + 8,
            rule: 8,
        });
    }
    if u64::from(row.index_pages) != pages_for(row.index_len) {
        return Some(Broken {
            place: place + 12,
            rule: 8,
        });
    }
    if u64::from(row.filter_pages) != pages_for(row.filter_len) {
        return Some(Broken {
            place: place + 16,
            rule: 8,
        });
    }
    if row.entries == 0 {
        return Some(Broken {
            place: place + 20,
            rule: 8,
        });
    }
    None
}

/// Rule 9, of a row that stands at a place, behind one of a level.
pub(crate) fn level_rule(place: u32, before: u8, row: &Row) -> Option<Broken>
    ensures { result ≡ refuse (nat_lt row.now.level before) place 9 None }
{
    if row.level < before {
        return Some(Broken { place, rule: 9 });
    }
    None
}

/// Rule 10, of a row with pages that stands at a place: it leaves the pages of tables, or meets an earlier one. Where it
/// does not, its pages are taken.
pub(crate) fn extent_rule(
    place: u32,
    device_pages: u32,
    taken: &mut Extents,
    row: &Row,
) -> Result<Option<Broken>, AllocError>
    requires place { place ≤ 2 ^ 30 }
    requires device { taken.old.pages ≡ device_pages }
    requires few { device_pages ≤ max_device_pages }
    requires some { 0 < row.now.data_pages }
    ensures broken { (earlier : List rows.Row) → IsPermutation (map extent_of earlier) taken.old.extents
        → IfOk result (λ found. found ≡ refuse (leaves device_pages row.now || list_any (meets_row row.now) earlier) (place + 4) 10 None) }
    ensures taken { (earlier : List rows.Row) → IsPermutation (map extent_of earlier) taken.old.extents
        → IfOk result (λ found. found ≡ None → IsPermutation (map extent_of (row.now ∷ earlier)) taken.new.extents) }
    ensures device { taken.new.pages ≡ taken.old.pages }
{
    let broken = Broken {
        place: place + 4,
        rule: 10,
    };
    let pages = u64::from(row.data_pages)
        + u64::from(row.index_pages)
        + u64::from(row.filter_pages);
    if u64::from(row.first_page) + pages > u64::from(device_pages) {
        return Ok(Some(broken));
    }
    let pages = pages as u32;
    if !taken.is_free(row.first_page, pages) {
        return Ok(Some(broken));
    }
    taken.add(row.first_page, pages)?;
    Ok(None)
}
