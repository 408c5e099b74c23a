//! The laws of the definitions; the functions do nothing.
ghost use Rattle.state_model.specs.CauseLaws.{CausesHaveReplies, RefusalsHaveCauses, RepliesHaveCauses, SlicesHaveReasons, SlicesHaveReplies};
ghost use Rattle.state_model.specs.FaultLaws.{FaultsAreMet, FaultsHaveCauses, NoJobIsLeft, DeviceIsKept, StepsAreAnswers, SlicesReadBlocks, SlicesWrite};
ghost use Rattle.state_model.specs.Laws.{ViewLaws, ChangeLaws, InstallLaws, MergeLaws, ChoiceLaws, OutputLaws};
ghost use Rattle.state_model.specs.PlayLaws.{AnswersGoOn, OthersHaveNoSlice, PlayLaws, SlicesAreAllowed, ScriptsGoOn, ScriptsThatEnd, ScriptsToLast};
ghost use Rattle.state_model.specs.ReadLaws.{HeldIsSearched, GetsAreBounded, NothingIsRead, SeeksLookNoFarther, SteppedAreDeleted, EstimateIsEnough};
ghost use Rattle.state_model.specs.Refusals.{RefusalLaws};
ghost use Rattle.state_model.specs.WithoutRanges.{WithoutRanges};
ghost use Rattle.state_model.specs.SoundLaws.{PlacedAreLaid, SettingsKeepSound, PagesKeepSound, ResetsHoldTheSame, NewIsSound, FlushKeepsSound, WriteKeepsSound, CompactionKeepsSound, WorkKeepsSound, DropKeepsSound, SliceKeepsSound, SliceKeepsMap, NeverTends, NeverSteps, PlayedIsSound, LinesAreOfBytes, SpeakingAsks, LineKeepsSound, StepsAtFirst, WorkedLowersSteps, LinesRaiseNoSteps, JobEnds, ScriptsKeepSound, LimitsAreKept, KeysAreAList};

/// Law: the map of a sound state has at each key what its view says: the memory first, then the tables in their order.
pub fn view_laws()
    ensures { ViewLaws }
{}

/// Law: a flush and a compaction keep the map, a written change is made of it, and no line that is not answered
/// as done changes it.
pub fn change_laws()
    ensures { ChangeLaws }
{}

/// Law: what a merge writes says what its inputs say, tombstones apart where no table lies deeper; it is cut in order,
/// into no more outputs than inputs, each of them sound and none empty.
pub fn merge_laws()
    ensures { MergeLaws }
{}

/// Law: a job that is done is installed without a change of the map.
pub fn install_laws()
    ensures { InstallLaws }
{}

/// Law: what is chosen is some of the tables, in their order, and becomes tables of a level from 1 to the last; so it is with what
/// a job merges.
pub fn choice_laws()
    ensures { ChoiceLaws }
{}

/// Law: an output is closed by the entry with which it has the data pages of an output.
pub fn output_laws()
    ensures { OutputLaws }
{}

/// Law: a line is refused by the first limit that it breaks, and a change within the limits by the first cause that holds:
/// a flush by the number of tables, by room, by the epoch; a compaction by the epoch, by room. No line is refused for
/// another cause. A flush has no room exactly where its table has more pages than the largest gap.
pub fn refusal_laws()
    ensures { RefusalLaws }
{}

/// Law: a sound table that has an entry of a key is searched for it, and its filter denies no bounds around one.
pub fn held_is_searched()
    ensures { HeldIsSearched }
{}

/// Law: a get reads at most as many blocks as tables admit its key, and after a compaction at most one.
pub fn gets_are_bounded()
    ensures { GetsAreBounded }
{}

/// Law: what the bound of a closed seek counts beside the one a table are entries of deleted keys between its bounds.
pub fn stepped_are_deleted()
    ensures { SteppedAreDeleted }
{}

/// Law: a closed seek looks no farther than its answer, so its bound is at most that of the tables that admit all its bounds.
pub fn seeks_look_no_farther()
    ensures { SeeksLookNoFarther }
{}

/// Law: an estimate between two byte strings is not below the true count.
pub fn estimate_is_enough()
    ensures { EstimateIsEnough }
{}

/// Law: a whole merge is one merge slice, and the lines that are played from a state without a job are a script in which
/// memory lasts and the device holds.
pub fn play_laws()
    ensures { PlayLaws }
{}

/// Law: what is computed of a merge slice of one block or more is one that ends no script, whether a job runs or is chosen.
pub fn slices_are_allowed()
    ensures { SlicesAreAllowed }
{}

/// Law: a merge slice comes after a put and a del alone; after any other line the state stays and the script goes on.
pub fn others_have_no_slice()
    ensures { OthersHaveNoSlice }
{}

/// Law: first lines that went on, and a script from the state after them, are a script.
pub fn scripts_go_on()
    ensures { ScriptsGoOn }
{}

/// Law: lines that were answered, the last of them with a reply and a merge slice that go on, have gone on.
pub fn answers_go_on()
    ensures { AnswersGoOn }
{}

/// Law: a script that ends before its last line has answered some first lines, with all that it says, and ends at the last
/// of them, by its reply or by the merge slice after it.
pub fn scripts_that_end()
    ensures { ScriptsThatEnd }
{}

/// Law: a script to its last line has answered all lines.
pub fn scripts_to_last()
    ensures { ScriptsToLast }
{}

/// Law: tables that are placed are on the device, and apart from one another and from what is taken.
pub fn places_are_free()
    ensures { PlacedAreLaid }
{}

/// Law: a store as it is made is sound.
pub fn new_is_sound()
    ensures { NewIsSound }
{}

/// Law: a flush and a change that is written keep soundness.
pub fn changes_keep_sound()
    ensures flush { FlushKeepsSound }
    ensures write { WriteKeepsSound }
{}

/// Law: a compaction keeps soundness.
pub fn compaction_keeps_sound()
    ensures { CompactionKeepsSound }
{}

/// Law: a job that goes on leaves a sound state, and so does one that is dropped.
pub fn jobs_keep_sound()
    ensures work { WorkKeepsSound }
    ensures drop { DropKeepsSound }
{}

/// Law: settings in range keep soundness, and so do more pages up to the most. Neither changes the map, the log, the
/// tables or what is kept.
pub fn resets_keep_sound()
    ensures settings { SettingsKeepSound }
    ensures pages { PagesKeepSound }
    ensures same { ResetsHoldTheSame }
{}

/// Law: whatever a merge slice is answered leaves a sound state, which is the same map.
pub fn slices_keep_sound()
    ensures sound { SliceKeepsSound }
    ensures map { SliceKeepsMap }
{}

/// Law: what these laws say where any cause may be, they say where none is.
pub fn any_cause()
    ensures tends { NeverTends }
    ensures steps { NeverSteps }
{}

/// Law: whatever a line is answered leaves a sound state, and so do all lines that are played. All keys, values and bounds
/// of a line are bytes.
pub fn lines_keep_sound()
    ensures line { LineKeepsSound }
    ensures played { PlayedIsSound }
    ensures bytes { LinesAreOfBytes }
    ensures asks { SpeakingAsks }
{}

/// Law: a job of a given number of blocks and a given number of outputs sees at most these and one more answers of a merge slice that worked.
pub fn jobs_end()
    ensures first { StepsAtFirst }
    ensures lower { WorkedLowersSteps }
    ensures lines { LinesRaiseNoSteps }
    ensures ends { JobEnds }
{}

/// Law: each state of a script from a sound one is sound, and so is the state after some first lines, and after the reply
/// to the next.
pub fn scripts_keep_sound()
    ensures { ScriptsKeepSound }
{}

/// Law: a state of more tables than the most, of a log that is full, or with a table before the first page of tables is not
/// sound. A flush is refused by the most tables and by no fewer.
pub fn limits_are_kept()
    ensures { LimitsAreKept }
{}

/// Law: the keys of a sound table are what filters are built of: one or more keys, strictly rising.
pub fn keys_are_a_list()
    ensures { KeysAreAList }
{}

/// Law: lack of memory is met by no get, a failed read and damage by no put, del and flush, a failed write by nothing that
/// asks for no change. An estimate and an explain have their answers, whatever may be met.
pub fn faults_are_met()
    ensures { FaultsAreMet }
{}

/// Law: where one of these cases rules a cause out, the step is the answer: what is refused writes nothing, and nothing is
/// read where the bound allows no block, or for no pairs. What a range has said before a fault is of its answer.
pub fn faults_have_causes()
    ensures { FaultsHaveCauses }
{}

/// Law: the bounds allow no block without tables, nor for a get of what the memory has, nor between crossed bounds.
pub fn nothing_is_read()
    ensures { NothingIsRead }
{}

/// Law: no job runs after a compaction, however it is answered, nor after a merge slice that is refused.
pub fn no_job_is_left()
    ensures { NoJobIsLeft }
{}

/// Law: no line and no merge slice changes settings and pages, also where a write fails.
pub fn device_is_kept()
    ensures { DeviceIsKept }
{}

/// Law: a failed write apart, a line has its answer, or tells of a fault and changes nothing, but that a compaction drops
/// the job; so the map changes by the lines that are answered as done alone. After a failed write holds the map before
/// the line or after it. A quit and a bad line always have their answers.
pub fn steps_are_answers()
    ensures { StepsAreAnswers }
{}

/// Law: a merge slice of a job of which no block is to read tells of no failed read and of no damage.
pub fn slices_read_blocks()
    ensures { SlicesReadBlocks }
{}

/// Law: a merge slice meets no failed write where the next output of its job has no room, nor where all is written at the
/// last epoch.
pub fn slices_write()
    ensures { SlicesWrite }
{}

/// Law: each cause has its own reply: where it alone may be met, a line has its answer or tells of it, a range after its
/// first pairs, and changes nothing. What breaks a limit is answered by that limit, whatever may be met.
pub fn causes_have_replies()
    ensures { CausesHaveReplies }
{}

/// Law: where one cause alone may be met, a merge slice is an ordinary one, or is refused for that cause and drops its job; a
/// failed write keeps the map. One that has no room names a gap that is smaller than its need.
pub fn slices_have_replies()
    ensures { SlicesHaveReplies }
{}

/// Law: whichever causes may be met, a line is told of one that is allowed, where its request takes memory, reads or
/// writes, or it has its answer. So it is with a merge slice that is refused.
pub fn replies_have_causes()
    ensures line { RepliesHaveCauses }
    ensures slice { RefusalsHaveCauses }
{}

/// Law: a merge slice is idle only where no job runs and none is to be chosen; it is refused at the last epoch only with a
/// job that is done, and for room only with the numbers of its next output.
pub fn slices_have_reasons()
    ensures { SlicesHaveReasons }
{}

/// Law: where the log sets entries and no table has a range, memory and merges are the newest entries, outputs are entries
/// alone, and tables meet by their keys. No table that is made of them has a range.
pub fn without_ranges()
    ensures { WithoutRanges }
{}
