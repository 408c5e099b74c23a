//! What is wrong with one table.
ghost use Rattle.std.specs.Prelude.{◌≡◌, ◌≤◌, ◌++◌, ◌&&◌, [], not, length, true, IsTrue, IfOk, IfErr, IfSome, OnOk, OnErr};
ghost use Rattle.entry_model.specs.Entries.{keys_of};
ghost use Rattle.filter_model.specs.Keys.{IsKeyList};
ghost use Rattle.block_model.specs.Laws.{joined};
ghost use Rattle.block_model.specs.Places.{FitsDevice};
ghost use Rattle.image_model.specs.Findings.{AtLeast, are_sound_blocks, block_findings as findings_from, blocks_at, count_findings, findings_of_blocks, index_findings as findings_of_index, known_keys};
ghost use Rattle.table_file.specs.Opened.{IsReadIndex};
ghost use Rattle.store_check.specs.Causes.{HasCause, IsFree, OnlyReads};
ghost use Rattle.store_check.specs.Keys.{AreKeys};
ghost use Rattle.store_check.specs.Lists.{IsBegun, listed};
ghost use Rattle.store_check.specs.Tables.{AreTableFindings, IsIndexRead, counted_findings};

use crate::blocks::{BlocksSeen, read_bytes};
use crate::error::{CheckError, damage_in};
use crate::filter::filter_findings;
use crate::finding::{Finding, What, add, found_by};
use crate::keys::known;
use byte_fields::{Part, Row};
use disk_trait::Disk;
use filter_api::RangeFilter;
use key_base::{KeyList, PAGE_BYTES};
use std::alloc::Global;
use table_file::{Index, read_index};

/// Reads all of a table, and adds what is wrong with it to an empty list, in order: of its index, of its blocks, how many entries
/// they have, and of its filter. Answers the index where it is not damaged. The row has to fit the device.
///
/// At `Err` memory ran out or the device failed, and the list is the beginning of what there is to find.
pub(crate) fn table_findings<F: RangeFilter, D: Disk>(
    alloc: Global,
    disk: &mut D,
    row: &Row,
    found: &mut Vec<Finding>,
) -> Result<Option<Index>, CheckError>
    requires fits { FitsDevice row.now }
    requires none { found.old.items ≡ [] }
    ensures found { IsTrue D.tells → OnOk result (AreTableFindings F.spelling F.first_fault row.now (D.world disk.old).seen.held found.new.items) }
    ensures begun { IsTrue D.tells → OnErr result (IsBegun found.new.items (findings_of_index row.now (D.world disk.old).seen.held)) }
    ensures index { IsTrue D.tells → IfOk result (IsIndexRead row.now (D.world disk.old).seen.held) }
    ensures row { IfOk result (λ read. IfSome read (λ x. x.row ≡ row.now)) }
    ensures cause { IfErr result (HasCause (D.world disk.old) (D.world disk.new)) }
    ensures free { IfErr result IsFree }
    ensures moves { OnlyReads (D.world disk.old) (D.world disk.new) }
{
    let (index, keys) = index_findings(alloc, disk, row, found)?;
    filter_findings::<F, D>(alloc, disk, row, keys, found)?;
    Ok(index)
}

// Adds what is wrong with index, blocks and count of a row. Answers the index where it is not damaged, and the keys where they
// are known.
fn index_findings<D: Disk>(
    alloc: Global,
    disk: &mut D,
    row: &Row,
    found: &mut Vec<Finding>,
) -> Result<(Option<Index>, Option<KeyList>), CheckError>
    requires fits { FitsDevice row.now }
    requires none { found.old.items ≡ [] }
    ensures found { IsTrue D.tells → OnOk result (found.new.items ≡ findings_of_index row.now (D.world disk.old).seen.held) }
    ensures begun { IsTrue D.tells → OnErr result (IsBegun found.new.items (findings_of_index row.now (D.world disk.old).seen.held)) }
    ensures index { IsTrue D.tells → IfOk result (λ read. IsIndexRead row.now (D.world disk.old).seen.held read.0) }
    ensures row { IfOk result (λ read. IfSome read.0 (λ x. x.row ≡ row.now)) }
    ensures known { IsTrue D.tells → IfOk result (λ read. read.1 ≡ known_keys row.now (D.world disk.old).seen.held) }
    ensures keys { IfOk result (λ read. IfSome read.1 IsKeyList) }
    ensures cause { IfErr result (HasCause (D.world disk.old) (D.world disk.new)) }
    ensures free { IfErr result IsFree }
    ensures moves { OnlyReads (D.world disk.old) (D.world disk.new) }
{
    let index = match read_index(alloc, disk, row) {
        Ok(index) => index,
        Err(fault) => {
            let damage = damage_in(fault)?;
            add(found, Some(found_by(damage)))?;
            return Ok((None, None));
        }
    };
    let keys = known_findings(alloc, disk, &index, found)?;
    Ok((Some(index), keys))
}

// Adds what is wrong with the blocks and the count of an index that was read, and answers the keys where they are known.
fn known_findings<D: Disk>(
    alloc: Global,
    disk: &mut D,
    index: &Index,
    found: &mut Vec<Finding>,
) -> Result<Option<KeyList>, CheckError>
    requires { found.old.items ≡ [] }
    ensures found { IsTrue D.tells → IsReadIndex index.now.row (D.world disk.old).seen.held index.now
        → OnOk result (found.new.items ≡ findings_of_blocks index.now.row (D.world disk.old).seen.held ++ count_findings index.now.row (D.world disk.old).seen.held) }
    ensures begun { IsTrue D.tells → IsReadIndex index.now.row (D.world disk.old).seen.held index.now
        → OnErr result (IsBegun found.new.items (findings_of_blocks index.now.row (D.world disk.old).seen.held ++ count_findings index.now.row (D.world disk.old).seen.held)) }
    ensures known { IsTrue D.tells → IsReadIndex index.now.row (D.world disk.old).seen.held index.now
        → IfOk result (λ keys. keys ≡ known_keys index.now.row (D.world disk.old).seen.held) }
    ensures keys { IfOk result (λ keys. IfSome keys IsKeyList) }
    ensures cause { IfErr result (HasCause (D.world disk.old) (D.world disk.new)) }
    ensures free { IfErr result IsFree }
    ensures moves { OnlyReads (D.world disk.old) (D.world disk.new) }
{
    let seen = block_findings(alloc, disk, index, found)?;
    let right = found.is_empty();
    let counted = wrong_count(index.row(), &seen);
    let keys = known(seen.keys, right)?;
    add(found, counted)?;
    Ok(keys)
}

// Another number of entries than the row says, where no block is damaged.
fn wrong_count(row: &Row, seen: &BlocksSeen) -> Option<Finding>
    ensures { listed result ≡ counted_findings row.now seen.now.sound (length seen.now.keys) }
{
    if seen.sound && seen.keys.len() != row.entries as usize {
        return Some(Finding {
            part: Part::Index,
            at: PAGE_BYTES as u64 * (u64::from(row.first_page) + u64::from(row.data_pages)),
            what: What::WrongCount,
        });
    }
    None
}

// Adds what is wrong with each block of an index that was read, one after the other.
fn block_findings<D: Disk>(
    alloc: Global,
    disk: &mut D,
    index: &Index,
    found: &mut Vec<Finding>,
) -> Result<BlocksSeen, CheckError>
    requires { found.old.items ≡ [] }
    ensures found { IsTrue D.tells
        → OnOk result (found.new.items ≡ findings_from index.now.row.first_page (AtLeast index.now.index.least) index.now.index.rows (D.world disk.old).seen.held) }
    ensures begun { IsTrue D.tells
        → OnErr result (IsBegun found.new.items (findings_from index.now.row.first_page (AtLeast index.now.index.least) index.now.index.rows (D.world disk.old).seen.held)) }
    ensures sound { IsTrue D.tells → IfOk result (λ seen. seen.sound ≡ are_sound_blocks index.now.row.first_page index.now.index.rows (D.world disk.old).seen.held) }
    ensures keys { IsTrue D.tells
        → IfOk result (λ seen. seen.sound ≡ true → seen.keys ≡ keys_of (joined (blocks_at index.now.row.first_page index.now.index.rows (D.world disk.old).seen.held))) }
    ensures risen { found.new.items ≡ [] → IfOk result (λ seen. AreKeys seen.keys × (1 ≤ length index.now.index.rows → 1 ≤ length seen.keys)) }
    ensures cause { IfErr result (HasCause (D.world disk.old) (D.world disk.new)) }
    ensures free { IfErr result IsFree }
    ensures moves { OnlyReads (D.world disk.old) (D.world disk.new) }
{
    let mut seen = BlocksSeen::new(alloc, index.least())?;
    for n in 0..index.blocks() {
        let bytes = read_bytes(alloc, disk, index, n)?;
        let finding = seen.judge(alloc, index, n, &bytes)?;
        add(found, finding)?;
    }
    Ok(seen)
}
