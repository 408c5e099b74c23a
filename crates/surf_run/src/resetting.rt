//! New numbers of a store: other settings for new tables, or more pages; and the last line that tells how that ended.
ghost use Rattle.std.specs.Prelude.{◌≡◌, ◌≢◌, ◌⊎◌, ◌*◌, ◌++◌, false, IsTrue, MatchResult};
ghost use Rattle.block_model.specs.Pages.{page_bytes};
ghost use Rattle.disk_trait.specs.World.{Now, WriteMoves};
ghost use Rattle.filter_api.specs.declared.settings.Field.{Field};
ghost use Rattle.image_model.specs.Stands.{IsStateOf, StandsFor};
ghost use Rattle.key_base.specs.Limits.{last_epoch};
ghost use Rattle.lines_in.specs.Causes.{LineMoves, SayFailed, StatusCause, WritesWithin, SomeFailed};
ghost use Rattle.lines_in.specs.Statuses.{done_status, device_status, damaged_status, output_status, store_status, last_epoch_status};
ghost use Rattle.manifest_model.specs.Slots.{IsVersionOf};
ghost use Rattle.manifest_model.specs.Version.{Version};
ghost use Rattle.outside.specs.Streams.{SayMoves, SaysPrefix};
ghost use Rattle.state_model.specs.State.{State};
ghost use Rattle.store_core.specs.Represents.{Represents};
ghost use Rattle.store_core.specs.Resetting.{IsResetRefusal, MayReset, Resets};
ghost use Rattle.surf_run.specs.Formats.{bad_settings_text};
ghost use Rattle.surf_run.specs.Kind.{filter_kind};
ghost use Rattle.surf_run.specs.Open.{OpenMoves, OpeningEnds};
ghost use Rattle.surf_run.specs.Resetting.{AreInRange, IsInLastEpoch, IsOfReset, IsResetEnd, IsResetting, OpenedThenReset, ResetEnds, TellsWhich, bad_number, done_text, refusal_text, renumbered, reset_status};
ghost use Rattle.surf_run.specs.ServedOrNot.{NoLineAnswered, TellsDamage};
ghost use Rattle.table_model.specs.Tables.{filter_bytes_of};

use crate::formatting::say_bad_settings;
use crate::new_numbers::NewNumbers;
use crate::opening::open_or_say;
use crate::reset_lines::{grown_line, settings_line};
use filter_api::RangeFilter;
use lines_in::{Status, last_line, say_last};
use outside::Outside;
use std::alloc::Global;
use store_commands::Reply;
use store_core::{Store, StoreError};

// Says the numbers that the store has now.
fn say_done<W: Outside>(out: &mut W, numbers: NewNumbers) -> u8
    ensures said { IsTrue W.tells_output → result ≡ done_status → (W.world out.new).beside.said ≡ (W.world out.old).beside.said ++ done_text numbers }
    ensures prefix { IsTrue W.tells_output → SaysPrefix (done_text numbers) (W.world out.old).beside.said (W.world out.new).beside.said }
    ensures ends { (result ≡ done_status) ⊎ ((result ≡ output_status) × SayFailed (W.world out.old) (W.world out.new)) }
    ensures moves { SayMoves (W.world out.old) (W.world out.new) }
{
    match numbers {
        NewNumbers::Settings(settings) => {
            let line = settings_line(settings);
            say_last(out, line.as_slice(), Status::Done as u8)
        }
        NewNumbers::Pages(pages) => {
            let line = grown_line(pages);
            say_last(out, line.as_slice(), Status::Done as u8)
        }
    }
}

// Says why the store has the numbers that it had.
fn say_refused<W: Outside>(out: &mut W, why: StoreError) -> u8
    requires { IsOfReset why }
    ensures said { IsTrue W.tells_output → result ≢ output_status → (W.world out.new).beside.said ≡ (W.world out.old).beside.said ++ refusal_text why }
    ensures prefix { IsTrue W.tells_output → SaysPrefix (refusal_text why) (W.world out.old).beside.said (W.world out.new).beside.said }
    ensures ends { (result ≡ reset_status why) ⊎ ((result ≡ output_status) × SayFailed (W.world out.old) (W.world out.new)) }
    ensures moves { SayMoves (W.world out.old) (W.world out.new) }
{
    match why {
        StoreError::Memory => last_line(out, &Reply::Memory, Status::Memory as u8),
        StoreError::Device(_) => last_line(out, &Reply::Device, Status::Device as u8),
        StoreError::Limit(_) => last_line(out, &Reply::LastEpoch, Status::LastEpoch as u8),
        StoreError::BadSettings(field) => say_bad_settings(out, field),
        _ => unreachable!(),
    }
}

// Gives a running store these numbers.
fn set_numbers<F: RangeFilter, W: Outside>(
    store: &mut Store<F>,
    out: &mut W,
    numbers: NewNumbers,
) -> Result<(), StoreError>
    requires running { store.old.stopped ≡ false }
    requires in_range { AreInRange numbers }
    ensures resets { (s : State) → IsTrue W.tells → Represents F.spelling (filter_bytes_of F.spelling F.built_cutoff) store.old s (W.world out.old)
        → Resets F.spelling (filter_bytes_of F.spelling F.built_cutoff) s (renumbered numbers s) result store.new (W.world out.old) (W.world out.new) }
    ensures refused { MatchResult result (λ _. MayReset false (bad_number numbers store.old.manifest.version.pages) store.old.manifest.version.epoch)
        (IsResetRefusal false (bad_number numbers store.old.manifest.version.pages) store.old.manifest.version.epoch (W.world out.old) (W.world out.new)) }
    ensures moves { WriteMoves 0 (page_bytes * store.old.manifest.version.pages) (W.world out.old) (W.world out.new) }
{
    store.consistency_law();
    match numbers {
        NewNumbers::Settings(settings) => store.set_settings(out, settings),
        NewNumbers::Pages(pages) => store.grow(out, pages),
    }
}

// Gives an opened store these numbers, and says how that ended.
fn reset_store<F: RangeFilter, W: Outside>(store: Store<F>, out: &mut W, numbers: NewNumbers) -> u8
    requires running { store.stopped ≡ false }
    requires in_range { AreInRange numbers }
    // Of a store that stands for a state since a world from which on nothing was written.
    ensures ends { (s : State) (first : _) → IsTrue W.tells → IsTrue W.tells_output → OpenMoves (W.world first) (W.world out.old) → Now (StandsFor F.spelling s) (W.world first)
        → Represents F.spelling (filter_bytes_of F.spelling F.built_cutoff) store s (W.world out.old)
        → ResetEnds (filter_kind F.spelling F.built_cutoff) numbers result s (W.world first) (W.world out.new) }
    ensures at_eight { result ≡ store_status → (field : Field) × (bad_number numbers store.manifest.version.pages ≡ Some field) × (IsTrue W.tells_output → (W.world out.new).beside.said ≡ (W.world out.old).beside.said ++ bad_settings_text field) }
    ensures at_ten { result ≡ last_epoch_status → store.manifest.version.epoch ≡ last_epoch }
    ensures causes { StatusCause result (W.world out.old) (W.world out.new) }
    ensures statuses { IsResetEnd result ⊎ (result ≡ device_status) ⊎ (result ≡ output_status) }
    ensures moves { LineMoves (W.world out.old) (W.world out.new) }
    ensures within { WritesWithin (page_bytes * store.manifest.version.pages) (W.world out.old) (W.world out.new) }
{
    let mut store = store;
    let set = set_numbers(&mut store, out, numbers);
    store.consistency_law();
    match set {
        Ok(()) => say_done(out, numbers),
        Err(why) => say_refused(out, why),
    }
}

/// Opens the store, gives it these numbers, says how that ended, and answers the exit status.
///
/// | status | comes | said |
/// |---|---|---|
/// | 0 | the store has them, and a crash leaves it so | `settings H R RATIO`, `grown N` |
/// | 4 | the device failed | `device` |
/// | 5 | opening found damage | `damaged PART AT ..` |
/// | 6 | the output failed, whatever the device holds then | a prefix of the line |
/// | 7 | there was no memory | `memory` |
/// | 8 | no store is there, or the pages are fewer than it has or too many | `not a store`, `bad settings pages` |
/// | 10 | the store is in its last epoch | `limit epoch` |
pub(crate) fn open_and_reset<F: RangeFilter, W: Outside>(
    alloc: Global,
    out: &mut W,
    numbers: NewNumbers,
) -> u8
    requires { AreInRange numbers }
    // Where each image that a crash might have left stands for this state: what the line says of it, and what a crash leaves at
    // each moment.
    ensures outcome { (s : State) → IsTrue W.tells → IsTrue W.tells_output → Now (IsStateOf F.spelling s) (W.world out.old)
        → ResetEnds (filter_kind F.spelling F.built_cutoff) numbers result s (W.world out.old) (W.world out.new) ⊎ NoLineAnswered result s (W.world out.old) (W.world out.new) }
    // Where what the device reads as stands for this state: the same from the opening on.
    ensures answers { (s : State) → IsTrue W.tells → IsTrue W.tells_output → IsStateOf F.spelling s (W.world out.old).seen.held
        → ((opened : _) × OpenedThenReset (filter_kind F.spelling F.built_cutoff) numbers result s (W.world out.old) (W.world opened) (W.world out.new)) ⊎ NoLineAnswered result s (W.world out.old) (W.world out.new) }
    // Where no call fails the numbers are set, or refused.
    ensures complete { (s : State) → IsTrue W.tells → IsTrue W.tells_output → IsStateOf F.spelling s (W.world out.old).seen.held
        → (SomeFailed (W.world out.old) (W.world out.new) → ⊥) → IsResetEnd result }
    ensures causes { StatusCause result (W.world out.old) (W.world out.new) }
    ensures only_at_damage { IsTrue W.tells → IsTrue W.tells_output → result ≡ damaged_status → TellsDamage F.spelling F.first_fault (W.world out.old).seen.held (W.world out.old) (W.world out.new) }
    ensures ending { OpeningEnds F.spelling F.first_fault W.tells W.tells_output result (W.world out.old) (W.world out.new) }
    // Status 8: no store is there, or one for which a number is out of range, and the line says which.
    ensures at_eight { IsTrue W.tells → result ≡ store_status → TellsWhich (IsTrue W.tells_output) numbers (W.world out.old).seen.held (W.world out.old) (W.world out.new) }
    // Status 10: the store that is there is in its last epoch.
    ensures at_ten { IsTrue W.tells → result ≡ last_epoch_status → IsInLastEpoch (W.world out.old).seen.held }
    ensures statuses { IsResetting result }
    ensures moves { LineMoves (W.world out.old) (W.world out.new) }
    // Where a version opens nothing changes beyond its pages.
    ensures within { (v : Version) → IsTrue W.tells → IsVersionOf v (W.world out.old).seen.held → WritesWithin (page_bytes * v.pages) (W.world out.old) (W.world out.new) }
{
    match open_or_say::<F, W>(alloc, out) {
        Ok(store) => reset_store(store, out, numbers),
        Err(status) => status,
    }
}
