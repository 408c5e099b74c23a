//! The law of merges that open tables late; the function does nothing.
ghost use Rattle.late_rows.specs.Laws.{StandingSleepers};

/// Law: where tables stand on a device and none has an entry from the bound on below its waking key, the merge is sound, and
/// its rows are the newest entries of memory and tables, those of tables that sleep too.
pub fn standing_tables_sleep()
    ensures { StandingSleepers }
{
    // the laws of the layers below: of a merge that opens all at once, and of a walk over one table
    merge_rows::laws::standing_tables_are_merged();
    table_file::laws::standing_tables_are_read();
}
