//! A store that is on a device, opened; and the last line of a run that ends without one.
ghost use Rattle.std.specs.Prelude.{◌≡◌, ◌≤◌, ◌≢◌, ◌⊎◌, ◌++◌, ◌+◌, ℕ, false, IfErr, IfOk, IsTrue};
ghost use Rattle.image_model.specs.Stands.{IsStateOf};
ghost use Rattle.lines_in.specs.Causes.{LineMoves, SayFailed, StatusCause, WritesWithin};
ghost use Rattle.lines_in.specs.Statuses.{device_status, damaged_status, output_status, memory_status, store_status};
ghost use Rattle.manifest_model.specs.Slots.{IsNoStore, IsVersionOf};
ghost use Rattle.outside.specs.Streams.{SayMoves, SaysPrefix};
ghost use Rattle.state_model.specs.State.{State};
ghost use Rattle.store_core.specs.Represents.{Represents};
ghost use Rattle.surf_run.specs.ServedOrNot.{NoLineAnswered, TellsDamage, opening_bound};
ghost use Rattle.surf_run.specs.Open.{IsOpening, OpenMoves, OpeningEnds, OpensNothing, opening_status, opening_text};
ghost use Rattle.table_model.specs.Tables.{filter_bytes_of};

use filter_api::RangeFilter;
use lines_in::{Status, last_line, say_last};
use outside::Outside;
use std::alloc::Global;
use store_commands::Reply;
use store_core::{Store, StoreError};

/// That no store is on the device.
pub(crate) const NO_STORE: &[u8] = b"not a store\n";

/// Says why a run ends that answers no line, and answers its status, or 6 where that cannot be said whole.
pub(crate) fn say_why<W: Outside>(out: &mut W, why: StoreError) -> u8
    requires { IsOpening why }
    ensures said { IsTrue W.tells_output → result ≢ output_status → (W.world out.new).beside.said ≡ (W.world out.old).beside.said ++ opening_text why }
    ensures prefix { IsTrue W.tells_output → SaysPrefix (opening_text why) (W.world out.old).beside.said (W.world out.new).beside.said }
    ensures ends { (result ≡ opening_status why) ⊎ ((result ≡ output_status) × SayFailed (W.world out.old) (W.world out.new)) }
    ensures moves { SayMoves (W.world out.old) (W.world out.new) }
{
    match why {
        StoreError::Memory => last_line(out, &Reply::Memory, Status::Memory as u8),
        StoreError::Device(_) => last_line(out, &Reply::Device, Status::Device as u8),
        StoreError::Damaged(damage) => last_line(
            out,
            &Reply::Damaged(damage),
            Status::Damaged as u8,
        ),
        StoreError::NotAStore => say_last(out, NO_STORE, Status::Store as u8),
        _ => unreachable!(),
    }
}

/// Opens the store; where it is not opened, says why, and answers the status with which the run ends.
pub(crate) fn open_or_say<F: RangeFilter, W: Outside>(
    alloc: Global,
    out: &mut W,
) -> Result<Store<F>, u8>
    // Where what the device reads as stands for a state, the store is that of the state, or nothing was answered.
    ensures opens { (s : State) → IsTrue W.tells → IsStateOf F.spelling s (W.world out.old).seen.held
        → IfOk result (λ store. Represents F.spelling (filter_bytes_of F.spelling F.built_cutoff) store s (W.world out.new)) }
    ensures reads { (s : State) → IsTrue W.tells → IsStateOf F.spelling s (W.world out.old).seen.held → (W.world out.new).seen.reads ≤ (W.world out.old).seen.reads + opening_bound s }
    ensures unanswered { (s : State) → IsTrue W.tells → IsTrue W.tells_output → IsStateOf F.spelling s (W.world out.old).seen.held
        → IfErr result (λ status. NoLineAnswered status s (W.world out.old) (W.world out.new)) }
    ensures running { IfOk result (λ store. store.stopped ≡ false) }
    ensures slot { IfOk result (λ store. store.manifest.slot ≤ 1) }
    ensures version { IsTrue W.tells → IfOk result (λ store. IsVersionOf store.manifest.version (W.world out.old).seen.held) }
    ensures still { IfOk result (λ _. OpenMoves (W.world out.old) (W.world out.new)) }
    ensures unwritten { (n : ℕ) → IfErr result (λ _. WritesWithin n (W.world out.old) (W.world out.new)) }
    // Where no store is there or opening finds damage, nothing is opened, the status says so, and so does the last line; and only there.
    ensures opens_something { IsTrue W.tells → IfOk result (λ _. OpensNothing F.spelling F.first_fault (W.world out.old).seen.held → ⊥) }
    ensures ending { IfErr result (λ status. OpeningEnds F.spelling F.first_fault W.tells W.tells_output status (W.world out.old) (W.world out.new)) }
    ensures only_at_damage { IsTrue W.tells → IsTrue W.tells_output → IfErr result (λ status. status ≡ damaged_status → TellsDamage F.spelling F.first_fault (W.world out.old).seen.held (W.world out.old) (W.world out.new)) }
    ensures only_at_no_store { IsTrue W.tells → IfErr result (λ status. status ≡ store_status → IsNoStore (W.world out.old).seen.held) }
    ensures causes { IfErr result (λ status. StatusCause status (W.world out.old) (W.world out.new)) }
    ensures statuses { IfErr result (λ status. (status ≡ device_status) ⊎ (status ≡ damaged_status) ⊎ (status ≡ output_status) ⊎ (status ≡ memory_status) ⊎ (status ≡ store_status)) }
    ensures moves { LineMoves (W.world out.old) (W.world out.new) }
{
    match Store::<F>::open_store(alloc, out) {
        Ok(store) => {
            store.consistency_law();
            Ok(store)
        }
        Err(why) => Err(say_why(out, why)),
    }
}
