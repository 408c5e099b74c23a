//! What each table of a store has, and what the store has.
ghost use Rattle.std.specs.Prelude.{◌≡◌, ◌⊎◌, ◌++◌, [], IsTrue, flat_map};
ghost use Rattle.disk_trait.specs.Image.{Image};
ghost use Rattle.outside.specs.Streams.{SayMoves, SaysPrefix};
ghost use Rattle.state_model.specs.Logs.{filled_by};
ghost use Rattle.state_model.specs.State.{State};
ghost use Rattle.store_core.specs.Represents.{ReadsAs};
ghost use Rattle.lines_in.specs.Causes.{SayFailed};
ghost use Rattle.surf_run.specs.Readings.{IsTablesText, TablesEnds, text_of_numbers, text_of_opened};
ghost use Rattle.lines_in.specs.Statuses.{done_status, memory_status, output_status};
ghost use Rattle.lines_in.specs.Unserved.{LastLine};
ghost use Rattle.table_model.specs.Tables.{filter_bytes_of};

use crate::reading::read_or_say;
use filter_api::RangeFilter;
use lines_in::{Status, last_line, say_last};
use outside::Outside;
use std::alloc::Global;
use store_commands::Reply;
use store_core::{Numbers, Store};
use store_report::{say_table, store_line};

// Says a line for each table, and then the one of the store.
fn say_lines<F: RangeFilter, W: Outside>(store: &Store<F>, has: Numbers, out: &mut W) -> u8
    ensures said { IsTrue W.tells_output → result ≡ done_status → (W.world out.new).beside.said ≡ (W.world out.old).beside.said ++ (flat_map text_of_opened store.now.tables ++ text_of_numbers has) }
    ensures prefix { IsTrue W.tells_output → SaysPrefix (flat_map text_of_opened store.now.tables ++ text_of_numbers has) (W.world out.old).beside.said (W.world out.new).beside.said }
    ensures ends { (result ≡ done_status) ⊎ ((result ≡ output_status) × SayFailed (W.world out.old) (W.world out.new)) }
    ensures moves { SayMoves (W.world out.old) (W.world out.new) }
{
    for table in store.tables() {
        if say_table(out, table.row(), table.least(), table.greatest()).is_err() {
            return Status::Output as u8;
        }
    }
    let line = store_line(
        has.pages,
        has.free,
        has.gap,
        has.epoch,
        has.log_bytes,
        has.settings,
    );
    say_last(out, line.as_slice(), Status::Done as u8)
}

// Says what an opened store has. Its numbers, which take memory, come before the first line.
fn say_tables<F: RangeFilter, W: Outside>(store: &Store<F>, out: &mut W) -> u8
    ensures lines { (s : State) (image : Image) → IsTrue W.tells_output → ReadsAs F.spelling (filter_bytes_of F.spelling F.built_cutoff) store.now s image → s.kept ≡ [] → store.now.log.filled ≡ filled_by s.log
        → LastLine (IsTablesText s) result (W.world out.old) (W.world out.new) }
    ensures ends { (result ≡ done_status) ⊎ (result ≡ memory_status) ⊎ ((result ≡ output_status) × SayFailed (W.world out.old) (W.world out.new)) }
    ensures moves { SayMoves (W.world out.old) (W.world out.new) }
{
    // the law of the tables below: their least and greatest keys are those of their entries
    table_file::laws::standing_tables_are_read();
    match store.numbers() {
        Ok(has) => say_lines(store, has, out),
        Err(_) => last_line(out, &Reply::Memory, Status::Memory as u8),
    }
}

/// Opens the store only to read it, says what each of its tables has and what the store has, and answers the exit status. It
/// writes and syncs nothing.
///
/// | status | comes | said |
/// |---|---|---|
/// | 0 | all was said | a line `table ..` for each table, `store ..` |
/// | 4 | the device failed | `device` |
/// | 5 | opening found damage | `damaged PART AT ..` |
/// | 6 | the output failed | a prefix of the lines |
/// | 7 | there was no memory | `memory` |
/// | 8 | no store is there | `not a store` |
pub(crate) fn run_tables<F: RangeFilter, W: Outside>(alloc: Global, out: &mut W) -> u8
    ensures { TablesEnds F.spelling F.first_fault W.tells W.tells_output result (W.world out.old) (W.world out.new) }
{
    match read_or_say::<F, W>(alloc, out) {
        Ok(store) => say_tables(&store, out),
        Err(status) => status,
    }
}
