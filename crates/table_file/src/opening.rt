//! A table is opened: its index and its filter are read and judged.
ghost use Rattle.std.specs.Prelude.{◌≡◌, ◌+◌, ◌*◌, ◌^◌, ◌≤◌, ◌<◌, length, IsTrue, true, IfOk, IfErr, MatchResult, None};
ghost use Rattle.byte_fields.specs.Sums.{fnv_of};
ghost use Rattle.disk_trait.specs.Image.{Image, window};
ghost use Rattle.disk_trait.specs.World.{ReadMoves};
ghost use Rattle.filter_api.specs.Ranges.{IsRowInRange};
ghost use Rattle.filter_api.specs.Spellings.{IsSpelling};
ghost use Rattle.key_base.specs.Limits.{max_ratio};
ghost use Rattle.map_model.specs.SortedMap.{Bytes};
ghost use Rattle.block_model.specs.IndexReading.{index_fault, index_in};
ghost use Rattle.block_model.specs.Places.{FitsDevice, byte_of_page, end_page, filter_page, index_page};
ghost use Rattle.table_model.specs.Damage.{HasWidths, filter_part, part_damage};
ghost use Rattle.table_file.specs.Faults.{HasOpenCause, HasReadCause, IsDamage, IsDamageOf, IsDamagedFilter, IsDamagedTable, IsFilterAnswer, IsIndexAnswer, IsNoDamage, IsNoDevice, IsOtherSum};
ghost use Rattle.table_file.specs.Opened.{IsOpen, IsReadFilter, IsReadIndex};

use crate::fault::TableFault;
use crate::index::BlockIndex;
use crate::row_index::Index;
use crate::table::Table;
use block_model::pages_for;
use byte_fields::{Damage, Part, PartFault, Row, fnv1a};
use disk_trait::Disk;
use filter_api::{DecodeError, RangeFilter};
use key_base::{MAX_DEVICE_PAGES, PAGE_BYTES};
use std::alloc::Global;

// The place in a filter that is named where it has other leaves than the table has entries, and that rule.
const LEAVES_AT: u64 = 12;

const OTHER_LEAVES: u8 = 11;

// The same of one that has other widths than the row's settings say.
const WIDTHS_AT: u64 = 5;

const OTHER_WIDTHS: u8 = 12;

/// Opens the table of a row: reads its index and its filter, and judges every byte of them. At most two reads, and
/// memory for both. The row has to [fit the device](fits_device).
///
/// `Ok` exactly where index and filter keep their sums and rules and the row's counts, and the filter has the widths that the
/// row names, unless memory runs out or the device fails; else the first damage. The row's ratio is compared with
/// nothing: no filter shows it.
pub fn open_table<F: RangeFilter, D: Disk>(
    alloc: Global,
    disk: &mut D,
    row: &Row,
) -> Result<Table<F>, TableFault>
    requires { FitsDevice row.now }
    ensures row { IfOk result (λ t. t.row ≡ row.now) }
    ensures stands { IsTrue D.tells → IfOk result (λ t. IsOpen F.spelling t (D.world disk.old).seen.held) }
    ensures damaged { IsTrue D.tells → IfErr result (IsDamagedTable F.spelling F.first_fault row.now (D.world disk.old).seen.held) }
    ensures cause { IfErr result (HasOpenCause row.now (D.world disk.old) (D.world disk.new)) }
    ensures moves { ReadMoves 2 (D.world disk.old) (D.world disk.new) }
{
    let index = read_index(alloc, disk, row)?;
    let filter: F = read_filter(alloc, disk, row)?;
    Ok(index.into_table(filter))
}

/// Reads the index of a row, and judges every byte of it. One read, and memory for it. The row has to
/// [fit the device](fits_device).
///
/// `Ok` exactly where the index has the sum that the row keeps and breaks no rule, unless memory runs out or the device
/// fails; else its damage.
pub fn read_index<D: Disk>(alloc: Global, disk: &mut D, row: &Row) -> Result<Index, TableFault>
    requires { FitsDevice row.now }
    ensures row { IfOk result (λ x. x.row ≡ row.now) }
    ensures answer { IsTrue D.tells → MatchResult result (IsReadIndex row.now (D.world disk.old).seen.held) (IsIndexAnswer row.now (D.world disk.old).seen.held) }
    ensures part { IfErr result (IsDamageOf Part.Index (byte_of_page (index_page row.now)) row.now.index_sum) }
    ensures cause { IfErr result (HasReadCause (byte_of_page (index_page row.now)) (D.world disk.old) (D.world disk.new)) }
    ensures moves { ReadMoves 1 (D.world disk.old) (D.world disk.new) }
{
    let page = u64::from(row.first_page) + u64::from(row.data_pages);
    let bytes = read_part(alloc, disk, page, row.index_len)?;
    let blocks = judged_index(alloc, row, &bytes)?;
    Ok(Index::new(*row, blocks))
}

/// Reads the filter of a row, and judges every byte of it. One read, and memory for it. The row has to
/// [fit the device](fits_device).
///
/// `Ok` exactly where the filter has the sum that the row keeps, is of its kind's bytes, and has as many leaves as the row
/// has entries and the widths that the row names, unless memory runs out or the device fails; else its first damage.
pub fn read_filter<F: RangeFilter, D: Disk>(
    alloc: Global,
    disk: &mut D,
    row: &Row,
) -> Result<F, TableFault>
    requires { FitsDevice row.now }
    ensures answer { IsTrue D.tells → MatchResult result
        (λ f. IsReadFilter F.spelling row.now (D.world disk.old).seen.held (record { hash_bits = F.hash_bits f; real_bits = F.real_bits f; cutoff = F.cutoff f; leaves = F.leaf_list f }))
        (IsFilterAnswer F.spelling F.first_fault row.now (D.world disk.old).seen.held) }
    ensures many { IfOk result (λ f. length (F.leaf_list f) ≡ row.now.entries) }
    ensures wide { IfOk result (λ f. HasWidths row.now (F.hash_bits f) (F.real_bits f)) }
    ensures range { IfOk result (λ _. IsRowInRange row.now) }
    ensures part { IfErr result (IsDamageOf Part.Filter (byte_of_page (filter_page row.now)) row.now.filter_sum) }
    ensures cause { IfErr result (HasReadCause (byte_of_page (filter_page row.now)) (D.world disk.old) (D.world disk.new)) }
    ensures moves { ReadMoves 1 (D.world disk.old) (D.world disk.new) }
{
    let page = u64::from(row.first_page) + u64::from(row.data_pages) + u64::from(row.index_pages);
    let bytes = read_part(alloc, disk, page, row.filter_len)?;
    judged_filter(alloc, row, &bytes)
}

/// Whether the table of a row lies within the largest device, and index and filter have the pages that their lengths want, as
/// [`open_table`] asks.
pub fn fits_device(row: &Row) -> bool
    ensures fits { result ≡ true → FitsDevice row.now }
    ensures all { FitsDevice row.now → result ≡ true }
{
    u64::from(row.index_pages) == pages_for(row.index_len)
        && u64::from(row.filter_pages) == pages_for(row.filter_len)
        && end_of(row) <= u64::from(MAX_DEVICE_PAGES)
}

// The page after the table of a row.
fn end_of(row: &Row) -> u64
    ensures { result ≡ end_page row.now }
{
    u64::from(row.first_page)
        + u64::from(row.data_pages)
        + u64::from(row.index_pages)
        + u64::from(row.filter_pages)
}

// A given number of bytes from a page on.
fn read_part<D: Disk>(
    alloc: Global,
    disk: &mut D,
    page: u64,
    bytes: u64,
) -> Result<Vec<u8>, TableFault>
    requires { byte_of_page page + bytes ≤ 2 ^ 48 }
    ensures read { IsTrue D.tells → IfOk result (λ read. read.items ≡ window (D.world disk.old).seen.held (byte_of_page page) bytes) }
    ensures size { IfOk result (λ read. length read.items ≡ bytes) }
    ensures undamaged { IfErr result IsNoDamage }
    ensures cause { IfErr result (HasReadCause (byte_of_page page) (D.world disk.old) (D.world disk.new)) }
    ensures moves { ReadMoves 1 (D.world disk.old) (D.world disk.new) }
{
    let mut read = vec![in alloc; 0; bytes as usize]?;
    disk.read(PAGE_BYTES as u64 * page, &mut read)?;
    Ok(read)
}

/// Whether the bytes of a part have the sum that is kept.
pub(crate) fn check_sum(part: Part, at: u64, kept: u64, bytes: &[u8]) -> Result<(), TableFault>
    ensures other { IfErr result (IsOtherSum part at kept bytes.now) }
    ensures same { IfOk result (λ _. kept ≡ fnv_of bytes.now) }
{
    same_sum(part, at, kept, fnv1a(bytes))
}

/// Whether the bytes of a part, whose sum was seen, have the one that is kept.
pub(crate) fn same_sum(part: Part, at: u64, kept: u64, seen: u64) -> Result<(), TableFault>
    ensures other { (bytes : Bytes) → seen ≡ fnv_of bytes → IfErr result (IsOtherSum part at kept bytes) }
    ensures same { IfOk result (λ _. kept ≡ seen) }
{
    if seen != kept {
        return Err(TableFault::Damaged(Damage::Sum {
            part,
            at,
            kept,
            seen,
        }));
    }
    Ok(())
}

// The index of a row, from its bytes.
fn judged_index(alloc: Global, row: &Row, bytes: &[u8]) -> Result<BlockIndex, TableFault>
    requires fits { FitsDevice row.now }
    requires size { length bytes.now ≡ row.now.index_len }
    ensures damaged { IfErr result (IsDamage (part_damage Part.Index (byte_of_page (index_page row.now)) row.now.index_sum bytes.now (index_fault row.now.data_pages bytes.now))) }
    ensures part { IfErr result (IsDamageOf Part.Index (byte_of_page (index_page row.now)) row.now.index_sum) }
    ensures sum { IfOk result (λ _. row.now.index_sum ≡ fnv_of bytes.now) }
    ensures kept { IfOk result (λ _. index_fault row.now.data_pages bytes.now ≡ None) }
    ensures index { IfOk result (λ x. x ≡ index_in bytes.now) }
{
    let at = PAGE_BYTES as u64 * (u64::from(row.first_page) + u64::from(row.data_pages));
    check_sum(Part::Index, at, row.index_sum, bytes)?;
    match BlockIndex::read(alloc, bytes, row.data_pages) {
        Ok(index) => Ok(index),
        Err(PartFault::Memory) => Err(TableFault::Memory),
        Err(PartFault::Shape { place, rule }) => Err(TableFault::Damaged(Damage::Shape {
            part: Part::Index,
            at: at + place as u64,
            rule,
        })),
    }
}

// The filter of a row, from its bytes.
fn judged_filter<F: RangeFilter>(alloc: Global, row: &Row, bytes: &[u8]) -> Result<F, TableFault>
    requires fits { FitsDevice row.now }
    requires size { length bytes.now ≡ row.now.filter_len }
    ensures damaged { (image : Image) → filter_part row.now image ≡ bytes.now → IfErr result (IsDamagedFilter F.spelling F.first_fault row.now image) }
    ensures part { IfErr result (IsDamageOf Part.Filter (byte_of_page (filter_page row.now)) row.now.filter_sum) }
    ensures cause { IfErr result IsNoDevice }
    ensures sum { IfOk result (λ _. row.now.filter_sum ≡ fnv_of bytes.now) }
    ensures filter { IfOk result (λ f. IsSpelling F.spelling (F.hash_bits f) (F.real_bits f) (F.cutoff f) (F.leaf_list f) bytes.now) }
    ensures many { IfOk result (λ f. length (F.leaf_list f) ≡ row.now.entries) }
    ensures wide { IfOk result (λ f. HasWidths row.now (F.hash_bits f) (F.real_bits f)) }
    ensures ratio { row.now.ratio ≤ max_ratio }
{
    let at = PAGE_BYTES as u64
        * (u64::from(row.first_page) + u64::from(row.data_pages) + u64::from(row.index_pages));
    check_sum(Part::Filter, at, row.filter_sum, bytes)?;
    let filter: F = match F::decode(alloc, bytes) {
        Ok(filter) => filter,
        Err(DecodeError::Memory) => return Err(TableFault::Memory),
        Err(DecodeError::Fault(fault)) => return Err(shape(at + fault.place, fault.rule)),
    };
    if filter.leaves() != row.entries {
        return Err(shape(at + LEAVES_AT, OTHER_LEAVES));
    }
    if filter.widths() != (row.hash_bits, row.real_bits) {
        return Err(shape(at + WIDTHS_AT, OTHER_WIDTHS));
    }
    Ok(filter)
}

// A rule that a filter breaks at a byte of the device.
fn shape(at: u64, rule: u8) -> TableFault
    ensures { result ≡ TableFault.Damaged (Damage.Shape Part.Filter at rule) }
{
    TableFault::Damaged(Damage::Shape {
        part: Part::Filter,
        at,
        rule,
    })
}
