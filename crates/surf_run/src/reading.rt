//! A store that is opened only to be read.
ghost use Rattle.std.specs.Prelude.{◌≡◌, ◌⊎◌, ◌+◌, ◌*◌, false, None, IfErr, IfOk, IsTrue};
ghost use Rattle.disk_trait.specs.World.{ReadMoves};
ghost use Rattle.image_model.specs.Stands.{IsStateOf};
ghost use Rattle.key_base.specs.Limits.{max_tables};
ghost use Rattle.state_model.specs.Logs.{filled_by};
ghost use Rattle.state_model.specs.State.{State};
ghost use Rattle.store_core.specs.Opening.{IsOpenedAs};
ghost use Rattle.store_core.specs.Represents.{ReadsAs};
ghost use Rattle.surf_run.specs.Open.{IsFreeText, OpensNothing};
ghost use Rattle.surf_run.specs.Readings.{ReadingEnds};
ghost use Rattle.surf_run.specs.ServedOrNot.{TellsDamage};
ghost use Rattle.lines_in.specs.Statuses.{damaged_status, device_status, done_status, memory_status, output_status};
ghost use Rattle.lines_in.specs.Unserved.{LastLine};
ghost use Rattle.table_model.specs.Tables.{filter_bytes_of};

use crate::opening::say_why;
use filter_api::RangeFilter;
use outside::Outside;
use std::alloc::Global;
use store_core::Store;

/// Opens the store, with nothing written or synced; where it is not opened, says why, and answers the status with which the run
/// ends.
pub(crate) fn read_or_say<F: RangeFilter, W: Outside>(
    alloc: Global,
    out: &mut W,
) -> Result<Store<F>, u8>
    // Where what the device reads as represents a state, the store is that of the state, or the device failed or there was no memory.
    ensures opens { (s : State) → IsTrue W.tells → IsStateOf F.spelling s (W.world out.old).seen.held
        → IfOk result (λ store. ReadsAs F.spelling (filter_bytes_of F.spelling F.built_cutoff) store s (W.world out.old).seen.held) }
    ensures log { (s : State) → IsTrue W.tells → IsStateOf F.spelling s (W.world out.old).seen.held → IfOk result (λ store. store.log.filled ≡ filled_by s.log) }
    ensures free { (s : State) → IsTrue W.tells → IsTrue W.tells_output → IsStateOf F.spelling s (W.world out.old).seen.held → IfErr result (λ status. LastLine IsFreeText status (W.world out.old) (W.world out.new)) }
    ensures failed { (s : State) → IsTrue W.tells → IsStateOf F.spelling s (W.world out.old).seen.held
        → IfErr result (λ status. (status ≡ device_status) ⊎ (status ≡ output_status) ⊎ (status ≡ memory_status)) }
    ensures running { IfOk result (λ store. store.stopped ≡ false) }
    ensures still { IfOk result (λ _. ReadMoves (7 + 2 * max_tables) (W.world out.old) (W.world out.new)) }
    ensures opens_something { IsTrue W.tells → IfOk result (λ _. OpensNothing F.spelling F.first_fault (W.world out.old).seen.held → ⊥) }
    ensures opened { IsTrue W.tells → IfOk result (IsOpenedAs F.spelling (W.world out.old).seen.held) }
    ensures not_done { IfErr result (λ status. status ≡ done_status → ⊥) }
    ensures only_at_damage { IsTrue W.tells → IsTrue W.tells_output → IfErr result (λ status. status ≡ damaged_status → TellsDamage F.spelling F.first_fault (W.world out.old).seen.held (W.world out.old) (W.world out.new)) }
    ensures ends { IfErr result (λ status. ReadingEnds F.spelling F.first_fault W.tells W.tells_output status (W.world out.old) (W.world out.new)) }
{
    match Store::<F>::read_store(alloc, out) {
        Ok(store) => Ok(store),
        Err(why) => Err(say_why(out, why)),
    }
}
