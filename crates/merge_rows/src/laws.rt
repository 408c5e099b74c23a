//! The laws of merged rows; the functions do nothing.
ghost use Rattle.merge_rows.specs.Laws.{StandingMerges};
ghost use Rattle.merge_rows.specs.RowLaws.{MergedLaws};

/// Law: the keys of merged rows rise, and of each key they say what the first source says that has it.
pub fn merged_laws()
    ensures { MergedLaws }
{}

/// Law: a merge of tables that are on a device is sound, and its rows are the newest entries of memory and tables.
pub fn standing_tables_are_merged()
    ensures { StandingMerges }
{
    // the law of the tables below: a walk over one gives its entries
    table_file::laws::standing_tables_are_read();
}
