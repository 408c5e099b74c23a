//! How many pairs there are.
ghost use Rattle.std.specs.Prelude.{◌≡◌, ◌≢◌, ◌≤◌, ◌+◌, true, false, Some, None, IsTrue, IfOk, IfErr, MatchResult};
ghost use Rattle.disk_trait.specs.World.{ReadMoves};
ghost use Rattle.line_model.specs.Limits.{limit_of};
ghost use Rattle.line_model.specs.Requests.{Count};
ghost use Rattle.map_model.specs.Slices.{count, is_before};
ghost use Rattle.merge_rows.specs.Reads.{OnlyReads};
ghost use Rattle.state_model.specs.Bounds.{tables_between};
ghost use Rattle.state_model.specs.State.{State};
ghost use Rattle.state_model.specs.View.{state_map};
ghost use Rattle.store_core.specs.Answers.{IsTried};
ghost use Rattle.store_core.specs.Getting.{IsMet, IsUndamaged};
ghost use Rattle.store_core.specs.Counts.{IsCountRefusal};
ghost use Rattle.store_core.specs.Scans.{CountsSound, IsScanShown, blocks_admitting};
ghost use Rattle.store_core.specs.Represents.{Represents};
ghost use Rattle.table_model.specs.Tables.{filter_bytes_of};

use crate::error::StoreError;
use crate::limits::is_crossed;
use crate::store::Store;
use disk_trait::Disk;
use filter_api::RangeFilter;

impl<F: RangeFilter> Store<F> {
    /// How many pairs there are between two bounds, both included.
    ///
    /// It walks them, and reads what a [`range`](Store::range) of them all would read: nothing where the bounds are crossed or too
    /// long, and each block of the tables whose filter admits the bounds once at most.
    pub fn count<D: Disk>(&self, disk: &mut D, low: &[u8], high: &[u8]) -> Result<u64, StoreError>
        ensures answer { (s : State) → IsTrue D.tells → Represents F.spelling (filter_bytes_of F.spelling F.built_cutoff) self.now s (D.world disk.old)
            → IfOk result (λ n. n ≡ count (state_map s) low.now (Some high.now)) }
        ensures tied { (s : State) → Represents F.spelling (filter_bytes_of F.spelling F.built_cutoff) self.now s (D.world disk.old) → Represents F.spelling (filter_bytes_of F.spelling F.built_cutoff) self.now s (D.world disk.new) }
        ensures undamaged { (s : State) → IsTrue D.tells → Represents F.spelling (filter_bytes_of F.spelling F.built_cutoff) self.now s (D.world disk.old) → IfErr result IsUndamaged }
        ensures shown { IsTrue D.tells → IfErr result (IsScanShown self.now.tables (D.world disk.old).seen.held) }
        ensures only_if_read { (s : State) → IsTrue D.tells → Represents F.spelling (filter_bytes_of F.spelling F.built_cutoff) self.now s (D.world disk.old) → IfErr result (IsMet (tables_between s low.now high.now)) }
        ensures sound { IsTrue D.tells → IfOk result (λ n. is_before high.now low.now ≡ false → CountsSound self.now.tables low.now high.now (D.world disk.old).seen.held n) }
        ensures whole { (s : State) → IsTrue D.tells → Represents F.spelling (filter_bytes_of F.spelling F.built_cutoff) self.now s (D.world disk.old)
            → (D.world disk.new).seen.reads ≤ (D.world disk.old).seen.reads + blocks_admitting low.now (Some high.now) self.now.tables }
        ensures refused { MatchResult result (λ _. IsTried self.now.stopped (limit_of (Count low.now high.now))) (IsCountRefusal self.now.stopped (limit_of (Count low.now high.now)) (D.world disk.old) (D.world disk.new)) }
        ensures no_call { self.now.stopped ≡ true → ReadMoves 0 (D.world disk.old) (D.world disk.new) }
        ensures crossed { is_before high.now low.now ≡ true → ReadMoves 0 (D.world disk.old) (D.world disk.new) }
        ensures limited { limit_of (Count low.now high.now) ≢ None → ReadMoves 0 (D.world disk.old) (D.world disk.new) }
        ensures moves { OnlyReads (D.world disk.old) (D.world disk.new) }
    {
        let mut scan = self.range(low, high, u64::MAX)?;
        if is_crossed(low, Some(high)) {
            return Ok(0);
        }
        let mut count = 0u64;
        while scan.advance(disk)? {
            count += 1;
        }
        Ok(count)
    }
}
