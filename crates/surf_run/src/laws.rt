//! What holds of replies, whatever merge runs, of runs that follow one another, and of dumps.
ghost use Rattle.surf_run.specs.Chaining.{RunsChain};
ghost use Rattle.surf_run.specs.Copies.{DumpsAreCopies};
ghost use Rattle.surf_run.specs.Independence.{RepliesAreOfTheMap};
ghost use Rattle.surf_run.specs.Kind.{filter_kind};

use filter_api::RangeFilter;
use outside::Outside;

/// Law: a reply that tells pairs depends on the map alone, and not on how far a merge has come. It does nothing.
pub fn replies_are_of_the_map()
    ensures { RepliesAreOfTheMap }
{}

/// Law: a run of `serve` that is stopped at any moment, begun again with any image that a crash may leave there, answers by the map
/// after the lines that were acknowledged by then, or after one more. It does nothing.
pub fn runs_chain<F: RangeFilter, W: Outside>()
    ensures { RunsChain W.world W.tells W.tells_input W.tells_output (filter_kind F.spelling F.built_cutoff) F.first_fault }
{}

/// Law: the lines of a dump, each answered `ok` over an empty store, make the map that was dumped. It does nothing.
pub fn dumps_are_copies()
    ensures { DumpsAreCopies }
{}
