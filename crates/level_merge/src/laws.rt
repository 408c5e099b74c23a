//! The laws of tables that are merged. They are proved and never called.
ghost use Rattle.level_merge.specs.FollowLaws.{BegunFollows, CompactionMakes, FlushedIsFollowed, MergeBegins, OtherImageIsFollowed};
ghost use Rattle.level_merge.specs.Laws.{OutputsFollow, StandingAgrees};

/// Law: an open table that is a state's on a device, without ranges, agrees with it as far as memory tells.
pub fn standing_tables_agree()
    ensures { StandingAgrees }
{
    table_file::laws::standing_tables_are_read();
}

/// Law: where nothing is built, a merge still makes the outputs of its rows.
pub fn outputs_follow()
    ensures { OutputsFollow }
{}

/// Law: a merge of tables that are on a device begins with the outputs of their newest entries: that of a plan follows the job
/// of the plan, and that of the memory and of all tables makes the tables of a compaction.
pub fn merges_begin()
    ensures begun { MergeBegins }
    ensures follows { BegunFollows }
    ensures compaction { CompactionMakes }
{
    merge_rows::laws::standing_tables_are_merged();
    table_file::laws::standing_tables_are_read();
}

/// Law: a merge that follows a job of a state goes on to follow it where a flush puts a table before all others, and on another
/// image that shows its tables and its outputs.
pub fn jobs_are_followed()
    ensures flush { FlushedIsFollowed }
    ensures image { OtherImageIsFollowed }
{
    table_file::laws::standing_tables_are_read();
}
