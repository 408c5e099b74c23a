//! The top call.
ghost use Rattle.std.specs.Prelude.{◌≡◌, ◌⊎◌, ◌*◌, map, string_bytes, IsTrue};
ghost use Rattle.block_model.specs.Pages.{page_bytes};
ghost use Rattle.disk_trait.specs.World.{Now};
ghost use Rattle.image_model.specs.Stands.{IsStateOf};
ghost use Rattle.lines_in.specs.Causes.{EndsAt, IsServing, NoFall, StatusCause, WritesWithin, Completed, SomeFailed};
ghost use Rattle.lines_in.specs.Unserved.{Unserved};
ghost use Rattle.lines_in.specs.Statuses.{done_status, wrong_words_status, damaged_status, memory_status, store_status, last_epoch_status, findings_status};
ghost use Rattle.manifest_model.specs.Slots.{IsNoStore, IsVersionOf};
ghost use Rattle.manifest_model.specs.Version.{Version};
ghost use Rattle.map_run_model.specs.Building.{BuildContract};
ghost use Rattle.map_run_model.specs.LastLines.{no_map_status};
ghost use Rattle.map_run_model.specs.Serving.{ServeContract};
ghost use Rattle.outside.specs.Streams.{SayMoves};
ghost use Rattle.state_model.specs.State.{State};
ghost use Rattle.surf_run.specs.Causes.{RunMeetsDamage};
ghost use Rattle.surf_run.specs.Checks.{CheckEnds};
ghost use Rattle.surf_run.specs.ServedOrNot.{HasNoState, NoLineAnswered, OpenedThenServed, ServedOrNot, TellsDamage};
ghost use Rattle.surf_run.specs.Kind.{filter_kind};
ghost use Rattle.surf_run.specs.Loads.{IsLoading, LoadEnds, Loads};
ghost use Rattle.surf_run.specs.Open.{OpeningEnds};
ghost use Rattle.surf_run.specs.Readings.{DumpEnds, TablesEnds};
ghost use Rattle.surf_run.specs.RunContract.{RunContract};
ghost use Rattle.surf_run.specs.Resetting.{IsInLastEpoch, IsResetEnd, IsResetting, OpenedThenReset, ResetEnds, TellsWhich};
ghost use Rattle.surf_run.specs.Run.{EndsWithoutMemory, FormatEnds, HasSettingsInRange, IfBadSettings, IfBuildMap, IfCheck, IfDump, IfFormat, IfHelp, IfLoad, IfOpens, IfOpensWithoutGrowing, IfRefused, IfReset, IfServe, IfServeMap, IfTables, IfUnserved, IsBadSettingsText, IsBuildMapAsk, IsCheckAsk, IsHelpText, IsLoadAsk, IsMemoryText, IsRefusedAsk, IsResetAsk, IsServeMapAsk, IsUsageText};

use crate::checking::run_check;
use crate::dumping::run_dump;
use crate::formatting::{run_format, say_bad_settings};
use crate::loading::open_and_load;
use crate::new_numbers::NewNumbers;
use crate::opened::open_and_serve;
use crate::resetting::open_and_reset;
use crate::tables::run_tables;
use filter_api::RangeFilter;
use lines_in::{Status, last_line, say_last};
use map_run_model::MapPrograms;
use outside::Outside;
use program_words::{Asked, read_words};
use std::alloc::Global;
use store_commands::Reply;

const USAGE: &[u8] =
    b"usage: surfstore PATH format|serve|load|settings|grow|check|fstbuild|fstserve\n";

// Does what was asked for: the clauses are those of `RunContract`, each where this was asked for.
fn run_asked<F: RangeFilter, P: MapPrograms<W>, W: Outside>(
    alloc: Global,
    asked: Asked,
    out: &mut W,
) -> u8
    requires { HasSettingsInRange asked }
    ensures outcome { (s : State) → IsTrue W.tells → IsTrue W.tells_input → IsTrue W.tells_output → Now (IsStateOf F.spelling s) (W.world out.old) → IfServe asked (ServedOrNot (filter_kind F.spelling F.built_cutoff) result s (W.world out.old) (W.world out.new)) }
    ensures answers { (s : State) → IsTrue W.tells → IsTrue W.tells_input → IsTrue W.tells_output → IsStateOf F.spelling s (W.world out.old).seen.held
        → IfServe asked (((opened : _) × OpenedThenServed (filter_kind F.spelling F.built_cutoff) result s (W.world out.old) (W.world opened) (W.world out.new)) ⊎ NoLineAnswered result s (W.world out.old) (W.world out.new)) }
    ensures complete { (s : State) → IsTrue W.tells → IsTrue W.tells_input → IsTrue W.tells_output → IsStateOf F.spelling s (W.world out.old).seen.held → (SomeFailed (W.world out.old) (W.world out.new) → ⊥)
        → IfServe asked (Completed result (W.world out.old) (W.world out.new)) }
    ensures early { IfServe asked ((result ≡ memory_status) ⊎ (result ≡ store_status) → (W.world out.new).beside.to_take ≡ (W.world out.old).beside.to_take) }
    ensures loaded { (s : State) → IsTrue W.tells → IsTrue W.tells_output → Now (IsStateOf F.spelling s) (W.world out.old)
        → IfLoad asked (λ load. LoadEnds (filter_kind F.spelling F.built_cutoff) result s load.seed load.count (W.world out.old) (W.world out.new) ⊎ NoLineAnswered result s (W.world out.old) (W.world out.new))
        (NoLineAnswered result s (W.world out.old) (W.world out.new)) }
    ensures loads { (s : State) → IsTrue W.tells → IsTrue W.tells_output → IsStateOf F.spelling s (W.world out.old).seen.held
        → IfLoad asked (λ load. ((opened : _) × Loads (filter_kind F.spelling F.built_cutoff) result s load.seed load.count (W.world out.old) (W.world opened) (W.world out.new)) ⊎ NoLineAnswered result s (W.world out.old) (W.world out.new))
        (NoLineAnswered result s (W.world out.old) (W.world out.new)) }
    ensures load_complete { (s : State) → IsTrue W.tells → IsTrue W.tells_output → IsStateOf F.spelling s (W.world out.old).seen.held → (SomeFailed (W.world out.old) (W.world out.new) → ⊥)
        → IfLoad asked (λ _. (result ≡ done_status) ⊎ (result ≡ memory_status)) ((result ≡ done_status) ⊎ (result ≡ memory_status)) }
    ensures load_statuses { IfLoad asked (λ _. IsLoading result ⊎ (result ≡ store_status)) (IsLoading result ⊎ (result ≡ store_status)) }
    ensures reset { (s : State) → IsTrue W.tells → IsTrue W.tells_output → Now (IsStateOf F.spelling s) (W.world out.old)
        → IfReset asked (λ numbers. ResetEnds (filter_kind F.spelling F.built_cutoff) numbers result s (W.world out.old) (W.world out.new) ⊎ NoLineAnswered result s (W.world out.old) (W.world out.new))
        (NoLineAnswered result s (W.world out.old) (W.world out.new)) }
    ensures resets { (s : State) → IsTrue W.tells → IsTrue W.tells_output → IsStateOf F.spelling s (W.world out.old).seen.held
        → IfReset asked (λ numbers. ((opened : _) × OpenedThenReset (filter_kind F.spelling F.built_cutoff) numbers result s (W.world out.old) (W.world opened) (W.world out.new)) ⊎ NoLineAnswered result s (W.world out.old) (W.world out.new))
        (NoLineAnswered result s (W.world out.old) (W.world out.new)) }
    ensures reset_complete { (s : State) → IsTrue W.tells → IsTrue W.tells_output → IsStateOf F.spelling s (W.world out.old).seen.held → (SomeFailed (W.world out.old) (W.world out.new) → ⊥)
        → IfReset asked (λ _. IsResetEnd result) (IsResetEnd result) }
    ensures reset_statuses { IfReset asked (λ _. IsResetting result) (IsResetting result) }
    ensures formatted { IsTrue W.tells → IsTrue W.tells_output → IfFormat asked (λ store. FormatEnds F.spelling store result (W.world out.old) (W.world out.new)) (Unserved IsMemoryText result (W.world out.old) (W.world out.new)) }
    ensures bad_settings { IsTrue W.tells_output → IfBadSettings asked (λ field. Unserved (IsBadSettingsText field) result (W.world out.old) (W.world out.new)) (Unserved IsMemoryText result (W.world out.old) (W.world out.new)) }
    ensures helped { IsTrue W.tells_output → IfHelp asked (Unserved IsHelpText result (W.world out.old) (W.world out.new)) }
    ensures refused { IsTrue W.tells_output → IfRefused asked (Unserved IsUsageText result (W.world out.old) (W.world out.new)) }
    ensures causes { StatusCause result (W.world out.old) (W.world out.new) }
    ensures counts { NoFall (W.world out.old) (W.world out.new) }
    ensures only_at_wrong_words { result ≡ wrong_words_status → IsRefusedAsk asked }
    ensures told_of_wrong_words { IfRefused asked (EndsAt wrong_words_status result (W.world out.old) (W.world out.new)) }
    ensures told_of_bad_settings { IfBadSettings asked (λ _. EndsAt store_status result (W.world out.old) (W.world out.new)) (EndsAt store_status result (W.world out.old) (W.world out.new)) }
    ensures told_of_help { IfHelp asked (EndsAt done_status result (W.world out.old) (W.world out.new)) }
    ensures untouched { IfUnserved asked (SayMoves (W.world out.old) (W.world out.new)) }
    ensures only_at_damage { IsTrue W.tells → IsTrue W.tells_input → IsTrue W.tells_output → result ≡ damaged_status → TellsDamage F.spelling F.first_fault (W.world out.old).seen.held (W.world out.old) (W.world out.new) ⊎ (HasNoState F.spelling (W.world out.old).seen.held × RunMeetsDamage (IsLoadAsk asked) (W.world out.old) (W.world out.new)) ⊎ IsServeMapAsk asked }
    ensures ending { IfOpens asked (OpeningEnds F.spelling F.first_fault W.tells W.tells_output result (W.world out.old) (W.world out.new)) }
    ensures within { (v : Version) → IsTrue W.tells → IsVersionOf v (W.world out.old).seen.held → IfOpens asked (WritesWithin (page_bytes * v.pages) (W.world out.old) (W.world out.new)) }
    ensures only_at_no_store { IsTrue W.tells → result ≡ store_status → IfOpensWithoutGrowing asked (IsNoStore (W.world out.old).seen.held) }
    ensures at_eight { IsTrue W.tells → result ≡ store_status → IfReset asked (λ numbers. TellsWhich (IsTrue W.tells_output) numbers (W.world out.old).seen.held (W.world out.old) (W.world out.new)) ⊥ }
    ensures reset_at_damage { IsTrue W.tells → IsTrue W.tells_output → result ≡ damaged_status → IfReset asked (λ _. TellsDamage F.spelling F.first_fault (W.world out.old).seen.held (W.world out.old) (W.world out.new)) ⊥ }
    ensures at_ten { result ≡ last_epoch_status → IsResetAsk asked × (IsTrue W.tells → IsInLastEpoch (W.world out.old).seen.held) }
    ensures check { IfCheck asked (CheckEnds F.spelling F.first_fault W.tells W.tells_output result (W.world out.old) (W.world out.new)) }
    ensures tables { IfTables asked (TablesEnds F.spelling F.first_fault W.tells W.tells_output result (W.world out.old) (W.world out.new)) }
    ensures dump { IfDump asked (DumpEnds F.spelling F.first_fault W.tells W.tells_output result (W.world out.old) (W.world out.new)) }
    ensures map_built { IfBuildMap asked (BuildContract W.world W.tells W.tells_input W.tells_output result out.old out.new ⊎ EndsWithoutMemory W.tells_output result (W.world out.old) (W.world out.new)) }
    ensures map_served { IfServeMap asked (ServeContract W.world W.tells W.tells_input W.tells_output result out.old out.new ⊎ EndsWithoutMemory W.tells_output result (W.world out.old) (W.world out.new)) }
    ensures at_eleven { result ≡ no_map_status → IsBuildMapAsk asked }
    ensures at_twelve { result ≡ findings_status → IsCheckAsk asked }
    ensures statuses { IsServing result ⊎ (result ≡ wrong_words_status) ⊎ (result ≡ damaged_status) ⊎ (result ≡ memory_status) ⊎ (result ≡ store_status) ⊎ (result ≡ last_epoch_status) ⊎ (result ≡ findings_status) ⊎ (result ≡ no_map_status) }
{
    match asked {
        Asked::Serve => open_and_serve::<F, W>(alloc, out),
        Asked::Load(load) => open_and_load::<F, W>(alloc, out, load),
        Asked::Settings(settings) => {
            open_and_reset::<F, W>(alloc, out, NewNumbers::Settings(settings))
        }
        Asked::Grow(pages) => open_and_reset::<F, W>(alloc, out, NewNumbers::Pages(pages)),
        Asked::Check => run_check::<F, W>(alloc, out),
        Asked::Tables => run_tables::<F, W>(alloc, out),
        Asked::Dump => run_dump::<F, W>(alloc, out),
        Asked::BuildMap => P::build(alloc, out),
        Asked::ServeMap => P::serve(alloc, out),
        Asked::Format(store) => run_format::<F, W>(alloc, store.settings, store.pages, out),
        Asked::BadSettings(field) => say_bad_settings(out, field),
        Asked::Help(text) => say_last(out, text.as_bytes(), Status::Done as u8),
        Asked::Refused => say_last(out, USAGE, Status::WrongWords as u8),
        Asked::Memory => last_line(out, &Reply::Memory, Status::Memory as u8),
    }
}

/// Does what the words say over a device, an input and an output, with filters of this kind, and answers the exit status.
///
/// `format` makes the device an empty store. `serve` opens the store on the device and answers the lines of the input, each
/// reply said before the next line is begun. `load` opens it too, makes its steps, each as a line would with a merge slice after
/// it, and says one line of the map that is then there. `settings` and `grow` open it, give it new numbers and say them. `check`
/// reads all of it, says what is wrong and changes nothing, `tables` says what each table has, and `dump` each pair. `fstbuild` and
/// `fstserve` are the programs of a static map, which are handed in (`MapPrograms`). Help and the version are said with status 0.
///
/// | status | comes |
/// |---|---|
/// | 0 | the input was read to its end or to `quit`, every reply said; or the store was made, loaded, given its new numbers or found clean, or help was said |
/// | 2 | clap refuses the words |
/// | 3, 4, 6 | the input, the device, the output failed |
/// | 5 | what was read of the device is damaged |
/// | 7 | out of memory before the first line, in a load or a check, or for new numbers |
/// | 8 | not a store, already a store, a number out of range |
/// | 9 | 2^40 bytes were taken |
/// | 10 | `settings` or `grow` at the last epoch |
/// | 11 | the lines of `fstbuild` are no map |
/// | 12 | `check` found something wrong |
pub fn run<F: RangeFilter, P: MapPrograms<W>, W: Outside>(
    alloc: Global,
    words: &[String],
    out: &mut W,
) -> u8
    ensures { RunContract W.world W.tells W.tells_input W.tells_output (filter_kind F.spelling F.built_cutoff) F.first_fault (map string_bytes words.now) result out.old out.new }
{
    let asked = read_words(alloc, words);
    run_asked::<F, P, W>(alloc, asked, out)
}
