//! The blocks that the next row needs.
ghost use Rattle.disk_trait.specs.World.{ReadMoves};
ghost use Rattle.merge_rows.specs.Filling.{AsksWalks, FillsWalks};
ghost use Rattle.merge_rows.specs.SourcePlaces.{IsChosenIn};
ghost use Rattle.merge_rows.specs.Steps.{AreWalksIn, IsPassed, stands};

use crate::choosing::Source;
use crate::floor::Floor;
use crate::table_source::{TableSource, fill_first, pass_one, wants_any};
use disk_trait::Disk;
use filter_api::RangeFilter;
use table_file::{TableFault, Tables};

/// Reads a block for the first of the walks that needs one, as [`fill_first`] does. The walk of the last row passes its entry
/// first: which one that is needs no guess then, and all the others are above the floor, but for older entries of its key.
#[inline(always)]
pub(crate) fn fill_behind<F: RangeFilter, D: Disk>(
    row: Option<Source>,
    walks: &mut [TableSource],
    disk: &mut D,
    tables: &Tables<F>,
    floor: &Floor,
) -> Result<bool, TableFault>
    requires known { AreWalksIn tables.now.tables (stands walks.old) }
    requires there { IsChosenIn row walks.old }
    ensures { FillsWalks D.tells floor.now tables.now.tables walks.old walks.new result (D.world disk.old) (D.world disk.new) }
{
    pass_row(row, walks, disk, tables, floor);
    fill_first(walks, disk, tables, floor)
}

/// Whether one of the walks needs a block, as [`wants_any`] says. The walk of the last row passes its entry first.
pub(crate) fn wants_behind<F: RangeFilter, D: Disk>(
    row: Option<Source>,
    walks: &mut [TableSource],
    disk: &mut D,
    tables: &Tables<F>,
    floor: &Floor,
) -> bool
    requires known { AreWalksIn tables.now.tables (stands walks.old) }
    requires there { IsChosenIn row walks.old }
    ensures asks { AsksWalks D.tells floor.now tables.now.tables (D.world disk.old).seen.held walks.old walks.new result }
    ensures moves { ReadMoves 0 (D.world disk.old) (D.world disk.new) }
{
    pass_row(row, walks, disk, tables, floor);
    wants_any(walks, disk, tables, floor)
}

// The walk of the last row, where it is one, passes over the entries in memory that are not above the floor.
fn pass_row<F: RangeFilter, D: Disk>(
    row: Option<Source>,
    walks: &mut [TableSource],
    disk: &mut D,
    tables: &Tables<F>,
    floor: &Floor,
)
    requires known { AreWalksIn tables.now.tables (stands walks.old) }
    requires there { IsChosenIn row walks.old }
    ensures passed { IsPassed D.tells floor.now tables.now.tables (D.world disk.old).seen.held walks.old walks.new }
    ensures moves { ReadMoves 0 (D.world disk.old) (D.world disk.new) }
{
    if let Some(Source::Table(at)) = row {
        pass_one(walks, at, disk, tables, floor);
    }
}
