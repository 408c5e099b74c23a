//! A load: steps that follow from a seed, made over an opened store, and the summary of its map.
ghost use Rattle.std.specs.Prelude.{◌≡◌, ◌⊎◌, ◌*◌, ◌++◌, ℕ, [], false, None, IfErr, IfOk, IsTrue, MatchResult};
ghost use Rattle.block_model.specs.Pages.{page_bytes};
ghost use Rattle.disk_trait.specs.World.{Now, WriteMoves};
ghost use Rattle.entry_model.specs.Entries.{entry_of};
ghost use Rattle.image_model.specs.Stands.{IsStateOf};
ghost use Rattle.line_model.specs.Limits.{limit_of};
ghost use Rattle.line_model.specs.Requests.{Seek};
ghost use Rattle.lines_in.specs.Causes.{LineMoves, SayFailed, StatusCause, WritesWithin, SomeFailed};
ghost use Rattle.lines_in.specs.Statuses.{done_status, damaged_status, output_status, memory_status, store_status};
ghost use Rattle.load_gen.specs.Summary.{summary_of, summary_text};
ghost use Rattle.manifest_model.specs.Slots.{IsNoStore, IsVersionOf};
ghost use Rattle.manifest_model.specs.Version.{Version};
ghost use Rattle.merge_rows.specs.Reads.{OnlyReads};
ghost use Rattle.outside.specs.Streams.{SayMoves, SaysPrefix};
ghost use Rattle.state_model.specs.State.{State};
ghost use Rattle.state_model.specs.Steps.{Reads};
ghost use Rattle.state_model.specs.View.{state_map};
ghost use Rattle.store_core.specs.Answers.{AnswersRequest, IsTried, IsWriteRefusal, stopped_by, told_change};
ghost use Rattle.store_core.specs.Counts.{IsCountRefusal};
ghost use Rattle.store_core.specs.Getting.{IsUndamaged};
ghost use Rattle.store_core.specs.Scans.{IsScanShown};
ghost use Rattle.store_core.specs.Represents.{Represents};
ghost use Rattle.surf_run.specs.Causes.{IfDevice, RunMeetsDamage, ShowsSomeDamage, WithinPages};
ghost use Rattle.surf_run.specs.ServedOrNot.{HasNoState, NoLineAnswered, TellsDamage};
ghost use Rattle.surf_run.specs.Dialogue.{slice_blocks};
ghost use Rattle.surf_run.specs.Kind.{filter_kind};
ghost use Rattle.surf_run.specs.Loading.{IsChanged, IsStepped, LoadInvariant, MakesStep, StepCause, is_passed_over};
ghost use Rattle.surf_run.specs.Loads.{IsLoading, LoadEnds, Loads, change_of};
ghost use Rattle.surf_run.specs.Open.{OpeningEnds};
ghost use Rattle.table_model.specs.Tables.{filter_bytes_of};

use crate::one_line::{SLICE_BLOCKS, merge_slice};
use crate::opening::{open_or_say, say_why};
use filter_api::RangeFilter;
use lines_in::{LineEnd, Status, say_last};
use load_gen::{LINE_BYTES, LoadGen, LoadStep, Summary, spell_summary};
use outside::Outside;
use program_words::Load;
use std::alloc::Global;
use store_core::{Store, StoreError};

// Whether a step that is refused so is counted and passed over.
fn is_passed_over(why: &StoreError) -> bool
    ensures { result ≡ is_passed_over why.now }
{
    matches!(why, StoreError::Limit(_) | StoreError::Full { .. })
}

// Writes what a step puts or deletes.
fn write_step<F: RangeFilter, W: Outside>(
    store: &mut Store<F>,
    out: &mut W,
    step: LoadStep,
) -> Result<(), StoreError>
    requires running { store.old.stopped ≡ false }
    ensures answered { (s : State) → IsTrue W.tells → Represents F.spelling (filter_bytes_of F.spelling F.built_cutoff) store.old s (W.world out.old)
        → AnswersRequest F.spelling (filter_bytes_of F.spelling F.built_cutoff) s (change_of (entry_of step.key step.value)) (told_change result) store.new (W.world out.old) (W.world out.new) }
    ensures refused { MatchResult result (λ _. IsTried store.old.stopped (limit_of (change_of (entry_of step.key step.value)))) (IsWriteRefusal store.old.stopped (limit_of (change_of (entry_of step.key step.value))) (W.world out.old) (W.world out.new)) }
    ensures stopped { store.new.stopped ≡ stopped_by result }
    ensures pages { store.new.manifest.version.pages ≡ store.old.manifest.version.pages }
    ensures moves { WriteMoves 0 (page_bytes * store.old.manifest.version.pages) (W.world out.old) (W.world out.new) }
{
    match step.value {
        Some(value) => store.put(out, &step.key, &value),
        None => store.delete(out, &step.key),
    }
}

// Makes the change of a step, and answers whether it was done or passed over; or says why the run ends, and answers its status.
fn make_change<F: RangeFilter, W: Outside>(
    store: &mut Store<F>,
    out: &mut W,
    step: LoadStep,
) -> Result<bool, u8>
    requires running { store.old.stopped ≡ false }
    ensures { MakesStep (λ s done. IsChanged (filter_kind F.spelling F.built_cutoff) (entry_of step.key step.value) s store.new (W.world out.old) (W.world out.new) done) 0 (filter_kind F.spelling F.built_cutoff)
        W.tells W.tells_output (entry_of step.key step.value) result store.old store.new (W.world out.old) (W.world out.new) }
{
    let written = write_step(store, out, step);
    store.consistency_law();
    match written {
        Ok(()) => Ok(true),
        Err(why) => {
            if is_passed_over(&why) {
                return Ok(false);
            }
            Err(say_why(out, why))
        }
    }
}

// Makes a step and the merge slice after it. Of a slice nothing is said.
fn make_step<F: RangeFilter, W: Outside>(
    store: &mut Store<F>,
    out: &mut W,
    step: LoadStep,
) -> Result<bool, u8>
    requires running { store.old.stopped ≡ false }
    ensures { MakesStep (λ s done. IsStepped (filter_kind F.spelling F.built_cutoff) (entry_of step.key step.value) s store.new (W.world out.old) (W.world out.new) done) slice_blocks (filter_kind F.spelling F.built_cutoff)
        W.tells W.tells_output (entry_of step.key step.value) result store.old store.new (W.world out.old) (W.world out.new) }
{
    let done = make_change(store, out, step)?;
    match merge_slice(store, out, SLICE_BLOCKS) {
        LineEnd::End(status) => Err(status),
        _ => Ok(done),
    }
}

// Makes all steps, and answers how many were refused; or the status of a run that ends before the last.
fn make_steps<F: RangeFilter, W: Outside>(
    store: &mut Store<F>,
    out: &mut W,
    load: Load,
) -> Result<u64, u8>
    requires running { store.old.stopped ≡ false }
    ensures made { (start : State) (first : _) → IsTrue W.tells → IsTrue W.tells_output → LoadInvariant (filter_kind F.spelling F.built_cutoff) start load.seed 0 0 store.old (W.world first) (W.world out.old)
        → MatchResult result (λ refused. LoadInvariant (filter_kind F.spelling F.built_cutoff) start load.seed load.count refused store.new (W.world first) (W.world out.new))
        (λ status. LoadEnds (filter_kind F.spelling F.built_cutoff) status start load.seed load.count (W.world first) (W.world out.new)) }
    ensures running { IfOk result (λ _. store.new.stopped ≡ false) }
    ensures cause { IfErr result (λ status. StepCause (IsTrue W.tells) status (W.world out.old) (W.world out.new)) }
    ensures moves { LineMoves (W.world out.old) (W.world out.new) }
    ensures within { WithinPages store.old store.new (W.world out.old) (W.world out.new) }
{
    let mut steps = LoadGen::new(load.seed);
    let mut refused = 0;
    for _ in 0..load.count {
        if !make_step(store, out, steps.next())? {
            refused += 1;
        }
    }
    Ok(refused)
}

// The summary of all pairs, by one walk over the store.
fn summarise<F: RangeFilter, W: Outside>(
    store: &Store<F>,
    out: &mut W,
) -> Result<Summary, StoreError>
    requires running { store.now.stopped ≡ false }
    ensures answer { (s : State) → IsTrue W.tells → Represents F.spelling (filter_bytes_of F.spelling F.built_cutoff) store.now s (W.world out.old)
        → IfOk result (λ summary. summary ≡ summary_of (state_map s)) }
    ensures undamaged { (s : State) → IsTrue W.tells → Represents F.spelling (filter_bytes_of F.spelling F.built_cutoff) store.now s (W.world out.old) → IfErr result IsUndamaged }
    ensures only_if_read { (s : State) → IsTrue W.tells → Represents F.spelling (filter_bytes_of F.spelling F.built_cutoff) store.now s (W.world out.old) → IfErr result (IfDevice (Reads s (Seek [] None))) }
    ensures shown { IsTrue W.tells → IfErr result (IsScanShown store.now.tables (W.world out.old).seen.held) }
    ensures refused { IfErr result (IsCountRefusal false None (W.world out.old) (W.world out.new)) }
    ensures moves { OnlyReads (W.world out.old) (W.world out.new) }
{
    let mut scan = store.seek(&[], None)?;
    let mut summary = Summary::new();
    for _ in 0..u64::MAX {
        if !scan.advance(out)? {
            return Ok(summary);
        }
        let Some((_, value)) = scan.pair() else {
            unreachable!()
        };
        summary.add(value);
    }
    Ok(summary)
}

// Says the summary line of a given number of steps, of which that many were refused.
fn say_summary<W: Outside>(out: &mut W, summary: &Summary, count: u64, refused: u64) -> u8
    ensures said { IsTrue W.tells_output → result ≡ done_status → (W.world out.new).beside.said ≡ (W.world out.old).beside.said ++ summary_text count refused summary.now }
    ensures prefix { IsTrue W.tells_output → SaysPrefix (summary_text count refused summary.now) (W.world out.old).beside.said (W.world out.new).beside.said }
    ensures ends { (result ≡ done_status) ⊎ ((result ≡ output_status) × SayFailed (W.world out.old) (W.world out.new)) }
    ensures moves { SayMoves (W.world out.old) (W.world out.new) }
{
    let mut line = [0; LINE_BYTES];
    let end = spell_summary(count, refused, summary, &mut line);
    say_last(out, &line[..end], Status::Done as u8)
}

// Ends a load whose steps were all made, with its summary, or with why there is none.
fn end_load<F: RangeFilter, W: Outside>(
    store: &Store<F>,
    out: &mut W,
    count: u64,
    refused: u64,
) -> u8
    requires running { store.now.stopped ≡ false }
    ensures ends { (start : State) (seed : ℕ) (first : _) → IsTrue W.tells → IsTrue W.tells_output → LoadInvariant (filter_kind F.spelling F.built_cutoff) start seed count refused store.now (W.world first) (W.world out.old)
        → LoadEnds (filter_kind F.spelling F.built_cutoff) result start seed count (W.world first) (W.world out.new) }
    ensures shown { IsTrue W.tells → IsTrue W.tells_output → result ≡ damaged_status → ShowsSomeDamage (W.world out.new) }
    ensures causes { StatusCause result (W.world out.old) (W.world out.new) }
    ensures statuses { IsLoading result }
    ensures moves { LineMoves (W.world out.old) (W.world out.new) }
    ensures within { WritesWithin (page_bytes * store.now.manifest.version.pages) (W.world out.old) (W.world out.new) }
{
    match summarise(store, out) {
        Ok(summary) => say_summary(out, &summary, count, refused),
        Err(why) => say_why(out, why),
    }
}

// Makes the steps of a load over an opened store, and ends it.
fn load_store<F: RangeFilter, W: Outside>(store: Store<F>, out: &mut W, load: Load) -> u8
    requires { store.stopped ≡ false }
    ensures ends { (start : State) (first : _) → IsTrue W.tells → IsTrue W.tells_output → LoadInvariant (filter_kind F.spelling F.built_cutoff) start load.seed 0 0 store (W.world first) (W.world out.old)
        → LoadEnds (filter_kind F.spelling F.built_cutoff) result start load.seed load.count (W.world first) (W.world out.new) }
    ensures shown { IsTrue W.tells → IsTrue W.tells_output → result ≡ damaged_status → RunMeetsDamage (Unit {0}) (W.world out.old) (W.world out.new) }
    ensures causes { StatusCause result (W.world out.old) (W.world out.new) }
    ensures statuses { IsLoading result }
    ensures moves { LineMoves (W.world out.old) (W.world out.new) }
    ensures within { WritesWithin (page_bytes * store.manifest.version.pages) (W.world out.old) (W.world out.new) }
{
    let mut store = store;
    match make_steps(&mut store, out, load) {
        Ok(refused) => end_load(&store, out, load.count, refused),
        Err(status) => status,
    }
}

/// Opens the store, makes the steps of a load, each with a merge slice after it, and says the summary of the map that is there
/// then.
pub(crate) fn open_and_load<F: RangeFilter, W: Outside>(
    alloc: Global,
    out: &mut W,
    load: Load,
) -> u8
    // Where each image that a crash might have left stands for this state: at 0 all steps were made, and the line tells the map
    // that those make which were not refused; at each moment a crash leaves the map after some first steps.
    ensures outcome { (s : State) → IsTrue W.tells → IsTrue W.tells_output → Now (IsStateOf F.spelling s) (W.world out.old)
        → LoadEnds (filter_kind F.spelling F.built_cutoff) result s load.seed load.count (W.world out.old) (W.world out.new) ⊎ NoLineAnswered result s (W.world out.old) (W.world out.new) }
    // Where what the device reads as stands for this state: the same from the opening on.
    ensures answers { (s : State) → IsTrue W.tells → IsTrue W.tells_output → IsStateOf F.spelling s (W.world out.old).seen.held
        → ((opened : _) × Loads (filter_kind F.spelling F.built_cutoff) result s load.seed load.count (W.world out.old) (W.world opened) (W.world out.new)) ⊎ NoLineAnswered result s (W.world out.old) (W.world out.new) }
    // Where no call fails all steps are made, but for lack of memory.
    ensures complete { (s : State) → IsTrue W.tells → IsTrue W.tells_output → IsStateOf F.spelling s (W.world out.old).seen.held
        → (SomeFailed (W.world out.old) (W.world out.new) → ⊥) → (result ≡ done_status) ⊎ (result ≡ memory_status) }
    ensures causes { StatusCause result (W.world out.old) (W.world out.new) }
    ensures only_at_damage { IsTrue W.tells → IsTrue W.tells_output → result ≡ damaged_status
        → TellsDamage F.spelling F.first_fault (W.world out.old).seen.held (W.world out.old) (W.world out.new) ⊎ (HasNoState F.spelling (W.world out.old).seen.held × RunMeetsDamage (Unit {0}) (W.world out.old) (W.world out.new)) }
    ensures ending { OpeningEnds F.spelling F.first_fault W.tells W.tells_output result (W.world out.old) (W.world out.new) }
    ensures only_at_no_store { IsTrue W.tells → result ≡ store_status → IsNoStore (W.world out.old).seen.held }
    ensures statuses { IsLoading result ⊎ (result ≡ store_status) }
    ensures moves { LineMoves (W.world out.old) (W.world out.new) }
    // Where a version opens nothing changes beyond its pages.
    ensures within { (v : Version) → IsTrue W.tells → IsVersionOf v (W.world out.old).seen.held → WritesWithin (page_bytes * v.pages) (W.world out.old) (W.world out.new) }
{
    match open_or_say::<F, W>(alloc, out) {
        Ok(store) => load_store(store, out, load),
        Err(status) => status,
    }
}
