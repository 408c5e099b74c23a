//! Rows that are taken from a merge into an output.
ghost use Rattle.std.specs.Prelude.{◌≡◌, ◌≢◌, ◌<◌, ◌≤◌, ◌-◌, ◌*◌, ◌++◌, true, false, length, None, is_some, IsTrue, IfOk, IfErr, IfSome, OnOk, OnErr, [], ◌∷◌};
ghost use Rattle.block_model.specs.Order.{Follow, is_any};
ghost use Rattle.disk_trait.specs.World.{ReadMoves};
ghost use Rattle.entry_model.specs.Entries.{IsEntry, keys_of};
ghost use Rattle.level_merge.specs.JobValue.{IsBuilding, at_hand, is_full};
ghost use Rattle.level_merge.specs.SliceSteps.{FillsOutput, IsStop, IsTakeFault, KeepsRows, PassesBlocks, StopsAtEnd, left_of};
ghost use Rattle.level_merge.specs.declared.fault.JobFault.TheVariants.{Memory};
ghost use Rattle.merge_rows.specs.Reads.{HaveReadAll, OnlyReads, blocks_left, wanted};
ghost use Rattle.merge_rows.specs.Steps.{AreCaughtUp, AreHeadsClear, AreWalksIn, IsSoundMerge, SourcesStay, numbers, stands};
ghost use Rattle.state_model.specs.Merges.{lasting};

use crate::fault::JobFault;
use disk_trait::Disk;
use filter_api::RangeFilter;
use key_base::MERGE_DATA_PAGES;
use merge_rows::MergeRows;
use std::alloc::AllocError;
use table_file::{TableBuilder, Tables};

/// Why rows were taken no further.
pub(crate) enum Stop {
    /// The next row needs a block, and as many were read as may be.
    Blocks,
    /// The output that is built is full.
    Full,
    /// No row is left.
    End,
}

/// Adds rows to the output that is built, until it is full, no row is left, or the next one needs a block and as many were read
/// as may be. Tombstones are left out where they are dropped; a given number of outputs may come beside the one that is built.
pub(crate) fn take_rows<'m, F: RangeFilter, D: Disk>(
    rows: &mut MergeRows<'m>,
    built: &mut TableBuilder,
    drops: bool,
    beside: usize,
    disk: &mut D,
    tables: &Tables<F>,
    blocks: u32,
) -> Result<Stop, JobFault>
    requires there { AreWalksIn tables.now.tables (stands rows.old.walks) }
    requires whole { rows.old.drops ≡ false }
    requires begun { IsBuilding rows.old.floor built.old.entries }
    ensures sources { SourcesStay D.tells tables.now.tables (D.world disk.old).seen.held rows.old rows.new }
    ensures building { IsBuilding rows.new.floor built.new.entries }
    ensures settings { built.new.settings ≡ built.old.settings }
    ensures ranges { built.new.ranges ≡ built.old.ranges }
    ensures taken { OnOk result (FillsOutput D.tells tables.now.tables (D.world disk.old).seen.held beside drops rows.old rows.new built.old.entries built.new.entries) }
    ensures stop { IfOk result (IsStop D.tells blocks tables.now.tables (D.world disk.old).seen.held beside rows.old rows.new built.new.entries) }
    ensures ended { IfOk result (StopsAtEnd tables.now.tables rows.new) }
    ensures passes { PassesBlocks D.tells tables.now.tables (D.world disk.old).seen.held blocks rows.old.walks rows.new.walks }
    ensures fault { IfErr result (IsTakeFault D.tells tables.now.tables (numbers rows.old.walks) (D.world disk.old) (D.world disk.new)) }
    ensures unread { blocks ≡ 0 → IfErr result (λ why. why ≡ Memory) }
    ensures met { IsTrue D.tells → IsSoundMerge rows.old tables.now.tables (D.world disk.old).seen.held → IfErr result (λ why. why ≢ Memory → 1 ≤ blocks_left tables.now.tables rows.old.walks) }
    ensures moves { OnlyReads (D.world disk.old) (D.world disk.new) }
    ensures twice { ReadMoves (2 * blocks) (D.world disk.old) (D.world disk.new) }
    ensures bounded { IsTrue D.tells → IsSoundMerge rows.old tables.now.tables (D.world disk.old).seen.held → ReadMoves blocks (D.world disk.old) (D.world disk.new) }
{
    let mut left = blocks;
    while !is_full(beside, built) {
        let ahead = read_ahead(rows, disk, tables, left)?;
        let Some(rest) = ahead else {
            return Ok(Stop::Blocks);
        };
        left = rest;
        if !rows.advance_filled() {
            return Ok(Stop::End);
        }
        add_row(rows, drops, built)?;
    }
    Ok(Stop::Full)
}

// Whether an output is closed: it has the data pages of an output, and another one may come.
fn is_full(beside: usize, built: &TableBuilder) -> bool
    ensures { result ≡ is_full beside built.now.entries }
{
    beside > 0 && built.data_pages() >= u64::from(MERGE_DATA_PAGES)
}

// Reads the blocks that the next row needs, at most that many, and answers how many may still be read; or `None` where it needs one
// more.
fn read_ahead<'m, F: RangeFilter, D: Disk>(
    rows: &mut MergeRows<'m>,
    disk: &mut D,
    tables: &Tables<F>,
    blocks: u32,
) -> Result<Option<u32>, JobFault>
    requires there { AreWalksIn tables.now.tables (stands rows.old.walks) }
    ensures kept { KeepsRows D.tells tables.now.tables (D.world disk.old).seen.held rows.old rows.new }
    ensures within { IfOk result (λ ahead. left_of ahead ≤ blocks) }
    ensures fewer { OnOk result (blocks_left tables.now.tables rows.new.walks ≤ blocks_left tables.now.tables rows.old.walks) }
    ensures some { IfOk result (λ ahead. left_of ahead < blocks → blocks_left tables.now.tables rows.new.walks < blocks_left tables.now.tables rows.old.walks) }
    ensures more { IfOk result (λ ahead. ahead ≡ None → 1 ≤ blocks_left tables.now.tables rows.new.walks) }
    ensures none_wanted { IfOk result (λ ahead. is_some ahead ≡ true → wanted rows.new tables.now.tables ≡ 0) }
    ensures read_all { IfOk result (λ ahead. is_some ahead ≡ true → HaveReadAll tables.now.tables rows.new.walks) }
    ensures passes { PassesBlocks D.tells tables.now.tables (D.world disk.old).seen.held blocks rows.old.walks rows.new.walks }
    ensures heads_pass { IfOk result (λ ahead. is_some ahead ≡ true → AreHeadsClear rows.new.floor rows.new.walks) }
    ensures caught_up { IsTrue D.tells → IfOk result (λ ahead. is_some ahead ≡ true → AreCaughtUp rows.new.floor tables.now.tables (D.world disk.old).seen.held rows.new.walks) }
    ensures fault { IfErr result (IsTakeFault D.tells tables.now.tables (numbers rows.old.walks) (D.world disk.old) (D.world disk.new)) }
    ensures unread { OnErr result (0 < blocks) }
    ensures met { IsTrue D.tells → IsSoundMerge rows.old tables.now.tables (D.world disk.old).seen.held → OnErr result (1 ≤ blocks_left tables.now.tables rows.old.walks) }
    ensures moves { OnlyReads (D.world disk.old) (D.world disk.new) }
    ensures caught_up_past { IfOk result (λ ahead. ReadMoves (2 * (blocks - left_of ahead)) (D.world disk.old) (D.world disk.new)) }
    ensures twice { ReadMoves (2 * blocks) (D.world disk.old) (D.world disk.new) }
    ensures bounded { IsTrue D.tells → IsSoundMerge rows.old tables.now.tables (D.world disk.old).seen.held → ReadMoves blocks (D.world disk.old) (D.world disk.new) }
    ensures counted { IsTrue D.tells → IsSoundMerge rows.old tables.now.tables (D.world disk.old).seen.held → IfOk result (λ ahead. ReadMoves (blocks - left_of ahead) (D.world disk.old) (D.world disk.new)) }
{
    let mut left = blocks;
    while left > 0 {
        match rows.fill(disk, tables) {
            Ok(true) => left -= 1,
            Ok(false) => return Ok(Some(left)),
            Err(why) => return Err(JobFault::from(why)),
        }
    }
    if rows.wants_block(disk, tables) {
        return Ok(None);
    }
    Ok(Some(0))
}

// Adds the row at hand, but for a tombstone that is left out.
fn add_row<'m>(
    rows: &MergeRows<'m>,
    drops: bool,
    built: &mut TableBuilder,
) -> Result<(), AllocError>
    requires sound { IfSome rows.now.now IsEntry }
    requires above { IfSome rows.now.now (λ e. Follow is_any (keys_of (built.old.entries ++ e ∷ []))) }
    ensures added { OnOk result (built.new ≡ record built.old { entries = built.old.entries ++ lasting drops (at_hand rows.now.now) }) }
    ensures unchanged { OnErr result (built.new ≡ built.old) }
{
    match rows.entry() {
        Some((key, value)) => {
            if drops && value.is_none() {
                return Ok(());
            }
            built.add(key, value)
        }
        None => Ok(()),
    }
}
