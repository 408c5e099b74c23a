//! The laws of deleted ranges; the functions do nothing.
ghost use Rattle.range_model.specs.Laws.{ClearLaws, OneRangeMore, RangesAreCut, SourceSays, SourceIs, SourceHasBounds, SetsAlone, SourceAgain, ChangesSay, MapSays, SourceKeepsMap, MergeShows, MergeRises, OutputsSay, OutputsAreCut, OutputsAre, OutputsHaveBounds, OutputsLieApart, NoRanges, NothingBelow, NothingFrom, SilentFrom, RowsInSight, PairsInSight, RangesTogether};

/// Law: `get` after `clear` gives nothing from its lower key on and below its upper one, and what was there at every other,
/// and keys keep rising. Crossed or equal keys clear nothing.
pub fn clear_laws()
    ensures { ClearLaws }
{}

/// Law: ranges with one more cover what they covered and what it covers. What lies below a key and what lies from it on
/// cover together what they covered. All these are ranges, rise, and have bounds of those that were given.
pub fn range_laws()
    ensures more { OneRangeMore }
    ensures cut { RangesAreCut }
{}

/// Law: the source that changes make is sound and says of each key what the last change says that speaks of it, and so does
/// the map that they make; a source, as changes, says what it says, makes the same map, and makes it again.
pub fn source_laws()
    ensures says { SourceSays }
    ensures sound { SourceIs }
    ensures bounds { SourceHasBounds }
    ensures sets { SetsAlone }
    ensures again { SourceAgain }
    ensures changes { ChangesSay }
    ensures map { MapSays }
    ensures keeps { SourceKeepsMap }
{}

/// Law: behind the changes of a source the entries are its own and those older ones that its ranges do not hide, by rising
/// keys.
pub fn merged_laws()
    ensures shows { MergeShows }
    ensures rises { MergeRises }
{}

/// Law: outputs of one entry or more, each with its part of the ranges, say what all their entries with all the ranges say,
/// and are sound where these are, each below the first key of the next. Without ranges they are their entries.
pub fn output_laws()
    ensures cut { OutputsAreCut }
    ensures say { OutputsSay }
    ensures are { OutputsAre }
    ensures bounds { OutputsHaveBounds }
    ensures apart { OutputsLieApart }
    ensures none { NoRanges }
{}

/// Law: a sound source says nothing of a key below its first one, nor of one from a key on below which it lies; and where it
/// says nothing from a key on, it lies below that key.
pub fn reach_laws()
    ensures below { NothingBelow }
    ensures from { NothingFrom }
    ensures silent { SilentFrom }
{}

/// Law: the newest entries of some sources that no newer range hides are the entries of their merge, and of any sources with
/// rising keys they give each key the value that the sources give it. The ranges of the merge cover what theirs cover.
pub fn hiding_laws()
    ensures rows { RowsInSight }
    ensures pairs { PairsInSight }
    ensures ranges { RangesTogether }
{}
