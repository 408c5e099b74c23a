//! The parts of a table on their way to a device.
ghost use Rattle.std.specs.Prelude.{◌≡◌, ◌+◌, ◌*◌, ◌^◌, ◌≤◌, ℕ, length, IsTrue, IfErr, OnOk, OnErr};
ghost use Rattle.disk_trait.specs.World.{IsDurable, Now, Rose, WriteMoves};
ghost use Rattle.block_model.specs.Pages.{page_bytes};
ghost use Rattle.key_base.specs.Limits.{max_device_pages};
ghost use Rattle.block_model.specs.Places.{byte_of_page, filter_page, index_page};
ghost use Rattle.table_model.specs.Images.{IsTableOf};
ghost use Rattle.table_model.specs.Tables.{filter_bytes_of, source_pages, table_from};
ghost use Rattle.table_file.specs.Building.{source_in};
ghost use Rattle.table_file.specs.Writing.{AreWritten, IsWriteOf, StandsWith, made_filter, made_row, opened_of, three_written};

use crate::parts::Parts;
use disk_trait::{Disk, DiskFault};
use filter_api::RangeFilter;
use key_base::PAGE_BYTES;

/// Writes a table's blocks, index and filter from a page on, and makes them last: three writes and a sync, no memory. The
/// [pages of the table](crate::pages_of) end within the 2^24 of the largest device.
///
/// At `Ok` each image that a crash may leave has the table there, and it is the one that
/// [`into_table`](crate::Parts::into_table) makes of the parts. At `Err` any bytes may be in its pages.
pub fn write_parts<F: RangeFilter, D: Disk>(
    disk: &mut D,
    first_page: u32,
    parts: &Parts<F>,
) -> Result<(), DiskFault>
    requires { first_page + source_pages (filter_bytes_of F.spelling F.built_cutoff) parts.now.settings (source_in parts.now) ≤ max_device_pages }
    ensures written { (level : ℕ) → IsTrue D.tells → OnOk result (Now (AreWritten (made_row F.spelling F.built_cutoff parts.now level first_page)
        (source_in parts.now) (made_filter F.spelling F.built_cutoff parts.now)) (D.world disk.new)) }
    ensures table { (level : ℕ) → IsTrue D.tells → OnOk result (Now (IsTableOf F.spelling
        (made_row F.spelling F.built_cutoff parts.now level first_page)
        (table_from (filter_bytes_of F.spelling F.built_cutoff) parts.now.settings level first_page (source_in parts.now))) (D.world disk.new)) }
    ensures stands { (level : ℕ) → IsTrue D.tells → OnOk result (Now (StandsWith F.spelling
        (opened_of F.built_cutoff parts.now (made_row F.spelling F.built_cutoff parts.now level first_page)) parts.now.entries) (D.world disk.new)) }
    ensures moves { WriteMoves (byte_of_page first_page) (page_bytes * source_pages (filter_bytes_of F.spelling F.built_cutoff) parts.now.settings (source_in parts.now)) (D.world disk.old) (D.world disk.new) }
    ensures fault { (level : ℕ) → IfErr result (IsWriteOf (byte_of_page first_page)
        (byte_of_page (index_page (made_row F.spelling F.built_cutoff parts.now level first_page)))
        (byte_of_page (filter_page (made_row F.spelling F.built_cutoff parts.now level first_page)))) }
    ensures cause { OnErr result (Rose (D.world disk.old).seen.write_faults (D.world disk.new).seen.write_faults) }
{
    write_three(
        disk,
        PAGE_BYTES as u64 * u64::from(first_page),
        parts.blocks.as_slice(),
        parts.index_part.whole(),
        parts.filter_part.whole(),
    )
}

// Writes three pieces one after the other, and makes them last.
fn write_three<D: Disk>(
    disk: &mut D,
    at: u64,
    first: &[u8],
    second: &[u8],
    third: &[u8],
) -> Result<(), DiskFault>
    requires { at + length first.now + length second.now + length third.now ≤ 2 ^ 48 }
    ensures written { IsTrue D.tells → OnOk result ((D.world disk.new).seen.held ≡ three_written (D.world disk.old).seen.held at first.now second.now third.now) }
    ensures durable { OnOk result (IsDurable (D.world disk.new)) }
    ensures moves { WriteMoves at (length first.now + length second.now + length third.now) (D.world disk.old) (D.world disk.new) }
    ensures fault { IfErr result (IsWriteOf at (at + length first.now) (at + length first.now + length second.now)) }
    ensures cause { OnErr result (Rose (D.world disk.old).seen.write_faults (D.world disk.new).seen.write_faults) }
{
    let second_at = at + first.len() as u64;
    disk.write(at, first)?;
    disk.write(second_at, second)?;
    disk.write(second_at + second.len() as u64, third)?;
    disk.sync()
}
