//! An output that is closed.
ghost use Rattle.std.specs.Prelude.{◌≡◌, ◌<◌, ◌++◌, length, IsTrue, IfErr, OnOk, [], ◌∷◌};
ghost use Rattle.std.specs.List.{AllByRecursion};
ghost use Rattle.block_model.specs.Order.{Follow, is_any};
ghost use Rattle.disk_trait.specs.World.{Now};
ghost use Rattle.entry_model.specs.Entries.{IsEntry, keys_of};
ghost use Rattle.store_search.specs.TablesAgree.{TableAgrees};
ghost use Rattle.level_merge.specs.Outputs.{IsCloseFault, PlacesOutput, WritesPlaced, built_table, last_row};
ghost use Rattle.range_model.specs.Sources.{BeginsAtOne};
ghost use Rattle.table_file.specs.Building.{source_in};
ghost use Rattle.table_file.specs.Writing.{opened_of};
ghost use Rattle.table_model.specs.Tables.{filter_bytes_of, source_pages};

use crate::fault::JobFault;
use byte_fields::Row;
use disk_trait::Disk;
use extent_map::Extents;
use filter_api::RangeFilter;
use table_file::{Parts, Table, TableBuilder, pages_of, write_parts};

/// Writes an output in the first gap that holds it: three writes and a sync.
///
/// Its pages are taken and its row is added before it is written, its table once it is written.
pub(crate) fn write_output<F: RangeFilter, D: Disk>(
    built: TableBuilder,
    level: u8,
    disk: &mut D,
    extents: &mut Extents,
    outputs: &mut Vec<Row>,
    made: &mut Vec<Table<F>>,
) -> Result<(), JobFault>
    requires some { 0 < length built.entries }
    requires each { AllByRecursion IsEntry built.entries }
    requires rising { Follow is_any (keys_of built.entries) }
    requires begin { AllByRecursion (BeginsAtOne built.entries) built.ranges }
    ensures placed { OnOk result (PlacesOutput F.spelling F.built_cutoff built level outputs.old.items outputs.new.items extents.old extents.new (last_row outputs.new.items)) }
    ensures made { OnOk result (made.new.items ≡ made.old.items ++ opened_of F.built_cutoff built (last_row outputs.new.items) ∷ []) }
    ensures stands { IsTrue D.tells → OnOk result (Now (TableAgrees F.spelling (opened_of F.built_cutoff built (last_row outputs.new.items)) (built_table F.spelling F.built_cutoff built level (last_row outputs.new.items).first_page)) (D.world disk.new)) }
    ensures writes { WritesPlaced F.spelling F.built_cutoff built level outputs.old.items outputs.new.items extents.old extents.new (D.world disk.old) (D.world disk.new) }
    ensures fault { IfErr result (IsCloseFault (source_pages (filter_bytes_of F.spelling F.built_cutoff) built.settings (source_in built)) extents.old (D.world disk.old) (D.world disk.new)) }
{
    let parts: Parts<F> = match built.finish() {
        Ok(parts) => parts,
        Err(_) => return Err(JobFault::Memory),
    };
    let need = pages_of(&parts);
    let first = match extents.gap(need) {
        Ok(first) => first,
        Err(none) => return Err(JobFault::from(none)),
    };
    let row = parts.row(level, first);
    if outputs.reserve(1).is_err() || made.reserve(1).is_err() {
        return Err(JobFault::Memory);
    }
    extents.add(first, need as u32)?;
    outputs.push_reserved(row);
    match write_parts(disk, first, &parts) {
        Ok(()) => {
            made.push_reserved(parts.into_table(row));
            Ok(())
        }
        Err(cause) => Err(JobFault::Device(cause)),
    }
}
