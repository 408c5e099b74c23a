//! The laws of tables. They are proved and never called.
ghost use Rattle.table_model.specs.Laws.{BlockRules, BlocksHaveNone, FilterHasNone, FilterIsOfTheKeys, FilterIsSoundOrDamaged, FilterRules, IndexHasNone, IndexRules, OneFilterDamage, OneTable, SoundFilterHasNone, TableIsKept, TableStands};

/// A row's pages spell one table at most. Where the blocks, the index and the filter of some entries are at the pages of
/// the row that is made for them, it is the table of these entries.
pub fn a_row_has_one_table()
    ensures one { OneTable }
    ensures stands { TableStands }
{}

/// What is written apart from a row's pages, done or cut short, changes nothing of its table.
pub fn tables_are_kept()
    ensures { TableIsKept }
{}

/// The index, the blocks and the filter of a table have no damage, and the filter stands for the table's keys.
pub fn tables_have_no_damage()
    ensures index { IndexHasNone }
    ensures blocks { BlocksHaveNone }
    ensures filter { FilterHasNone }
    ensures of_the_keys { FilterIsOfTheKeys }
{}

/// A filter part has one damage at most, and none where it keeps its sum, spells as many leaves as the row has entries,
/// and has the widths of the row's settings; it is one of the two, where the kind of filter can tell what spells nothing. Each
/// rule has its place.
pub fn a_filter_has_one_damage()
    ensures one { OneFilterDamage }
    ensures none { SoundFilterHasNone }
    ensures one_of_two { FilterIsSoundOrDamaged }
    ensures placed { FilterRules }
{}

/// What is wrong with an index and with a block: another sum, at the part's first byte, before any rule; else the first
/// broken rule, at its place.
pub fn damage_is_placed()
    ensures index { IndexRules }
    ensures block { BlockRules }
{}
