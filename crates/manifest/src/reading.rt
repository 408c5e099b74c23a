//! What the bytes of a body say.
ghost use Rattle.std.specs.Prelude.{◌≡◌, ◌≤◌, ◌<◌, ◌+◌, ◌*◌, ◌^◌, ◌||◌, ◌∷◌, List, map, length, drop, slice_index, false, None, Some, ◌≢◌, ◌⊎◌, IfOk, IfErr, IfSome, IfNone, OnOk};
ghost use Rattle.std.specs.Option.{option_or};
ghost use Rattle.std.specs.List.{list_any};
ghost use Rattle.std.specs.List.Sorted.{IsPermutation};
ghost use Rattle.byteorder.specs.Endian.{little_number};
ghost use Rattle.byte_fields.specs.Faults.{refuse};
ghost use Rattle.byte_fields.specs.declared.parts.Row as rows;
ghost use Rattle.key_base.specs.Limits.{max_device_pages, max_tables, min_device_pages};
ghost use Rattle.manifest_model.specs.Reading.{body_damage, body_format, table_count_in, early_fault, head_settings, prefix_length_in, kept_sum, leaves, log_area_fault, meets_row, table_row_in, table_rows_in, seen_sum, version_in};
ghost use Rattle.manifest_model.specs.Rows.{extent_of};
ghost use Rattle.manifest_model.specs.Version.{by_format, log_page_of};
ghost use Rattle.manifest.specs.Manifest.{place_of};
ghost use Rattle.manifest.specs.Reading.{IsBodyDamage, IsSpelled, rows_broken, shape_of, sum_of};

use crate::fault::ManifestFault;
use crate::rules::{
    Broken, extent_rule, first_of, level_rule, log_area_rules, number_rules, row_rule,
    row_zeros_rule, settings_rules, zeros_rule,
};
use crate::slots::{BODY_AT, slot_place};
use crate::version::Version;
use crate::writing::{FIRST_FORMAT, HEAD_BYTES, ROW_BYTES, SUM_BYTES};
use byte_fields::{Damage, Part, Row, fnv1a, get_u16, get_u32, get_u64};
use extent_map::Extents;
use filter_api::Settings;
use key_base::LOG_PAGES;
use std::alloc::{AllocError, Global};

// The settings in the head of a body.
fn settings_in(body: &[u8]) -> Settings
    requires { 64 ≤ length body.now }
    ensures { result ≡ head_settings body.now }
{
    Settings {
        hash_bits: body[20],
        real_bits: body[21],
        ratio: get_u16(body, 22),
    }
}

// The settings of the row that bytes begin with: in the first format they are those of the head.
fn row_settings_in(format: u16, head: Settings, bytes: &[u8]) -> Settings
    requires { 64 ≤ length bytes.now }
    ensures hash_bits { result.hash_bits ≡ by_format format head.hash_bits (slice_index bytes.now 56) }
    ensures real_bits { result.real_bits ≡ by_format format head.real_bits (slice_index bytes.now 57) }
    ensures ratio { result.ratio ≡ by_format format head.ratio (little_number 2 (drop 58 bytes.now)) }
{
    if format == FIRST_FORMAT {
        return head;
    }
    Settings {
        hash_bits: bytes[56],
        real_bits: bytes[57],
        ratio: get_u16(bytes, 58),
    }
}

// The row that bytes begin with.
#[tactic(auto, unfolding(manifest_model::specs::Reading::table_row_in))]
fn row_of(format: u16, head: Settings, bytes: &[u8]) -> Row
    requires { 64 ≤ length bytes.now }
    ensures { result ≡ table_row_in format head bytes.now }
{
    let settings = row_settings_in(format, head, bytes);
    Row {
        level: bytes[0],
        first_page: get_u32(bytes, 4),
        data_pages: get_u32(bytes, 8),
        index_pages: get_u32(bytes, 12),
        filter_pages: get_u32(bytes, 16),
        entries: get_u32(bytes, 20),
        index_len: get_u64(bytes, 24),
        filter_len: get_u64(bytes, 32),
        index_sum: get_u64(bytes, 40),
        filter_sum: get_u64(bytes, 48),
        hash_bits: settings.hash_bits,
        real_bits: settings.real_bits,
        ratio: settings.ratio,
    }
}

// The rows of a body, and the first of rules 7 to 10 that they break. One pass: the first break of each rule is kept.
fn judged_rows(
    alloc: Global,
    body: &[u8],
    count: usize,
    pages: u32,
) -> Result<(Vec<Row>, Option<Broken>), AllocError>
    requires few { count ≤ max_tables }
    requires long { 64 + 64 * count ≤ length body.now }
    requires from { min_device_pages ≤ pages }
    requires to { pages ≤ max_device_pages }
    ensures rows { IfOk result (λ found. found.0.items ≡ table_rows_in (body_format body.now) (head_settings body.now) count (drop 64 body.now)) }
    ensures broken { IfOk result (λ found. found.1 ≡ rows_broken (body_format body.now) (head_settings body.now) pages count (drop 64 body.now)) }
{
    let format = get_u16(body, 4);
    let head = settings_in(body);
    let mut rows = Vec::with_capacity(alloc, count)?;
    let mut taken = Extents::new(alloc, pages);
    let mut zeros = None;
    let mut shape = None;
    let mut order = None;
    let mut meeting = None;
    let mut level = 0;
    for i in 0..count {
        let place = HEAD_BYTES + ROW_BYTES * i;
        let bytes = &body[place..];
        let row = row_of(format, head, bytes);
        let place = place as u32;
        zeros = first_of(zeros, row_zeros_rule(format, place, bytes));
        shape = first_of(shape, row_rule(place, &row));
        order = first_of(order, level_rule(place, level, &row));
        meeting = met_with(place, meeting, &shape, pages, &mut taken, &row)?;
        level = row.level;
        rows.push(row)?;
    }
    let broken = first_of(zeros, first_of(shape, first_of(order, meeting)));
    Ok((rows, broken))
}

// The first break of rule 10, with one row more. Where rule 8 is broken it is not looked for.
fn met_with(
    place: u32,
    met: Option<Broken>,
    shape: &Option<Broken>,
    pages: u32,
    taken: &mut Extents,
    row: &Row,
) -> Result<Option<Broken>, AllocError>
    requires place { place ≤ 2 ^ 30 }
    requires pages { taken.old.pages ≡ pages }
    requires few { pages ≤ max_device_pages }
    requires some { shape.now ≡ None → 0 < row.now.data_pages }
    ensures met { (earlier : List rows.Row) → shape.now ≡ None → (met ≡ None → IsPermutation (map extent_of earlier) taken.old.extents)
        → IfOk result (λ found. found ≡ option_or met (refuse (leaves pages row.now || list_any (meets_row row.now) earlier) (place + 4) 10 None)) }
    ensures taken { (earlier : List rows.Row) → shape.now ≡ None → (met ≡ None → IsPermutation (map extent_of earlier) taken.old.extents)
        → IfOk result (λ found. found ≡ None → IsPermutation (map extent_of (row.now ∷ earlier)) taken.new.extents) }
    ensures pages { taken.new.pages ≡ taken.old.pages }
{
    if met.is_some() || shape.is_some() {
        return Ok(met);
    }
    extent_rule(place, pages, taken, row)
}

// The damage of a slot whose body breaks a rule.
pub(crate) fn shape(slot: u8, broken: Broken) -> ManifestFault
    requires { slot ≤ 1 }
    ensures { result ≡ ManifestFault.Damaged (shape_of (place_of slot) broken) }
{
    ManifestFault::Damaged(Damage::Shape {
        part: Part::Manifest,
        at: slot_place(slot) + BODY_AT + u64::from(broken.place),
        rule: broken.rule,
    })
}

// The damage of a slot whose body has another sum than the one that is kept behind its rows.
#[tactic(auto, unfolding(manifest_model::specs::Reading::prefix_length_in))]
fn other_sum(slot: u8, body: &[u8]) -> Option<Damage>
    requires slot { slot ≤ 1 }
    requires long { length body.now ≡ 72 + 64 * table_count_in body.now }
    ensures damage { IfSome result (λ found. found ≡ sum_of (place_of slot) body.now) }
    ensures other { IfSome result (λ _. kept_sum body.now ≢ seen_sum body.now) }
    ensures same { IfNone result (kept_sum body.now ≡ seen_sum body.now) }
{
    let end = body.len() - SUM_BYTES;
    let kept = get_u64(body, end);
    let seen = fnv1a(&body[..end]);
    if kept == seen {
        return None;
    }
    Some(Damage::Sum {
        part: Part::Manifest,
        at: slot_place(slot) + BODY_AT,
        kept,
        seen,
    })
}

// The log area that begins at a page.
fn area_of(first_page: u32) -> u8
    requires { (first_page ≡ log_page_of 0) ⊎ (first_page ≡ log_page_of 1) }
    ensures { log_page_of result ≡ first_page }
{
    if first_page == LOG_PAGES { 0 } else { 1 }
}

// The version that a body says whose log area keeps its rule. Of the other slot nothing is known.
#[tactic(auto, unfolding(manifest_model::specs::Reading::version_in))]
fn version_of(slot: u8, body: &[u8], rows: Vec<Row>) -> Version
    requires long { 64 ≤ length body.now }
    requires log_area { log_area_fault body.now ≡ None }
    requires rows { rows.items ≡ table_rows_in (body_format body.now) (head_settings body.now) (table_count_in body.now) (drop 64 body.now) }
    ensures { result ≡ record { version = version_in body.now; slot = slot; other_open = false } }
{
    Version {
        settings: settings_in(body),
        pages: get_u32(body, 16),
        epoch: get_u64(body, 8),
        log_area: area_of(get_u32(body, 24)),
        slot,
        other_open: false,
        rows,
    }
}

/// The version that the body of a slot spells, whose head keeps rules 1 to 3; else what is wrong with it.
pub(crate) fn read_body(alloc: Global, slot: u8, body: &[u8]) -> Result<Version, ManifestFault>
    requires slot { slot ≤ 1 }
    requires head { early_fault body.now ≡ None }
    requires few { table_count_in body.now ≤ max_tables }
    requires long { length body.now ≡ 72 + 64 * table_count_in body.now }
    ensures version { IfOk result (λ v. v ≡ record { version = version_in body.now; slot = slot; other_open = false }) }
    ensures sound { OnOk result (IsSpelled body.now) }
    ensures damage { IfErr result (IsBodyDamage (body_damage (place_of slot) body.now)) }
{
    if let Some(damage) = other_sum(slot, body) {
        return Err(ManifestFault::Damaged(damage));
    }
    if let Some(broken) = number_rules(body) {
        return Err(shape(slot, broken));
    }
    let count = usize::from(get_u16(body, 6));
    let (rows, later) = judged_rows(alloc, body, count, get_u32(body, 16))?;
    let zeros = first_of(zeros_rule(32, &body[32..64]), later);
    let log_area = first_of(log_area_rules(body), zeros);
    if let Some(broken) = first_of(settings_rules(&rows), log_area) {
        return Err(shape(slot, broken));
    }
    Ok(version_of(slot, body, rows))
}
