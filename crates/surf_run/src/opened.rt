//! A store that is on a device, opened and served.
ghost use Rattle.std.specs.Prelude.{◌≡◌, ◌≤◌, ◌⊎◌, ◌*◌, ℕ, [], false, IfOk, IsTrue, vec_len};
ghost use Rattle.block_model.specs.Pages.{page_bytes};
ghost use Rattle.disk_trait.specs.World.{Now};
ghost use Rattle.image_model.specs.Stands.{IsStateOf};
ghost use Rattle.key_base.specs.Limits.{piece_bytes};
ghost use Rattle.lines_in.specs.Causes.{IsServing, NoFall, StatusCause, WritesWithin, Completed, SomeFailed};
ghost use Rattle.lines_in.specs.Unserved.{Unserved};
ghost use Rattle.lines_in.specs.Statuses.{damaged_status, memory_status, store_status};
ghost use Rattle.manifest_model.specs.Slots.{IsNoStore, IsVersionOf};
ghost use Rattle.manifest_model.specs.Version.{Version};
ghost use Rattle.state_model.specs.State.{State};
ghost use Rattle.surf_run.specs.Causes.{ShowsSomeDamage};
ghost use Rattle.surf_run.specs.ServedOrNot.{HasNoState, NoLineAnswered, OpenedThenServed, ServedOrNot, TellsDamage};
ghost use Rattle.surf_run.specs.Kind.{filter_kind};
ghost use Rattle.surf_run.specs.Open.{IsFreeText, OpeningEnds};
ghost use Rattle.surf_run.specs.Outcome.{Outcome};
ghost use Rattle.surf_run.specs.Serving.{ServeInvariant};

use crate::lines::StoreLines;
use crate::opening::open_or_say;
use filter_api::RangeFilter;
use key_base::{MAX_LINE_BYTES, PIECE_BYTES};
use lines_in::{Pending, Status, last_line, read_lines};
use outside::Outside;
use std::alloc::{AllocError, Global};
use store_commands::{Reply, Scratch};
use store_core::Store;

// What serving keeps in memory beside the store.
#[derive(Drop)]
struct Buffers {
    pending: Pending<MAX_LINE_BYTES>,
    scratch: Scratch,
    reply: Vec<u8>,
    piece: Vec<u8>,
}

fn new_buffers(alloc: Global) -> Result<Buffers, AllocError>
    ensures pending { IfOk result (λ b. b.pending ≡ []) }
    ensures reply { IfOk result (λ b. vec_len b.reply ≡ piece_bytes) }
    ensures piece { IfOk result (λ b. vec_len b.piece ≡ piece_bytes) }
{
    let pending = Pending::new(alloc)?;
    let scratch = Scratch::new(alloc)?;
    let reply = vec![in alloc; 0; PIECE_BYTES]?;
    let piece = vec![in alloc; 0; PIECE_BYTES]?;
    Ok(Buffers {
        pending,
        scratch,
        reply,
        piece,
    })
}

// Serves an opened store, with all memory that is not a line's taken first.
fn serve_store<F: RangeFilter, W: Outside>(alloc: Global, store: Store<F>, out: &mut W) -> u8
    requires { store.stopped ≡ false }
    ensures ends { (start : State) (base : ℕ) (first : _) → IsTrue W.tells → IsTrue W.tells_input → IsTrue W.tells_output
        → (W.world first).beside.to_take ≡ (W.world out.old).beside.to_take
        → ServeInvariant (filter_kind F.spelling F.built_cutoff) start base [] store (W.world first) (W.world out.old)
        → Outcome (filter_kind F.spelling F.built_cutoff) result start base (W.world first) (W.world out.new) ⊎ Unserved IsFreeText result (W.world out.old) (W.world out.new) × ((W.world out.new).seen.reads ≤ (W.world out.old).seen.reads) }
    ensures shown { IsTrue W.tells → IsTrue W.tells_output → result ≡ damaged_status → ShowsSomeDamage (W.world out.new) }
    ensures statuses { IsServing result ⊎ (result ≡ damaged_status) ⊎ (result ≡ memory_status) }
    ensures early { result ≡ memory_status → (W.world out.new).beside.to_take ≡ (W.world out.old).beside.to_take }
    ensures causes { StatusCause result (W.world out.old) (W.world out.new) }
    ensures counts { NoFall (W.world out.old) (W.world out.new) }
    ensures within { WritesWithin (page_bytes * store.manifest.version.pages) (W.world out.old) (W.world out.new) }
{
    match new_buffers(alloc) {
        Ok(buffers) => {
            let Buffers {
                mut pending,
                scratch,
                reply,
                mut piece,
            } = buffers;
            let mut lines = StoreLines {
                store,
                scratch,
                reply,
            };
            read_lines(&mut lines, &mut pending, &mut piece, out)
        }
        Err(_) => last_line(out, &Reply::Memory, Status::Memory as u8),
    }
}

/// Opens the store and serves it: the lines of the input are answered, each reply said before the next line is begun.
pub(crate) fn open_and_serve<F: RangeFilter, W: Outside>(alloc: Global, out: &mut W) -> u8
    // Where each image that a crash might have left stands for this state: the lines that were taken got the replies of its
    // map, what a crash may leave at each moment has every line that was acknowledged by then, and no more blocks were read
    // than the opening, the gets and the closed seeks may read, where no other line reads.
    ensures outcome { (s : State) → IsTrue W.tells → IsTrue W.tells_input → IsTrue W.tells_output → Now (IsStateOf F.spelling s) (W.world out.old)
        → ServedOrNot (filter_kind F.spelling F.built_cutoff) result s (W.world out.old) (W.world out.new) }
    // Where what the device reads as stands for this state: the same from the opening on.
    ensures answers { (s : State) → IsTrue W.tells → IsTrue W.tells_input → IsTrue W.tells_output → IsStateOf F.spelling s (W.world out.old).seen.held
        → ((opened : _) × OpenedThenServed (filter_kind F.spelling F.built_cutoff) result s (W.world out.old) (W.world opened) (W.world out.new)) ⊎ NoLineAnswered result s (W.world out.old) (W.world out.new) }
    // Where no call fails each line is answered, to the end of the input, to `quit` or to 2^40 bytes.
    ensures complete { (s : State) → IsTrue W.tells → IsTrue W.tells_input → IsTrue W.tells_output → IsStateOf F.spelling s (W.world out.old).seen.held
        → (SomeFailed (W.world out.old) (W.world out.new) → ⊥) → Completed result (W.world out.old) (W.world out.new) }
    // Statuses 3, 4 and 6 come only where the count of such faults rose in this call.
    ensures causes { StatusCause result (W.world out.old) (W.world out.new) }
    ensures counts { NoFall (W.world out.old) (W.world out.new) }
    // Where a version opens nothing changes beyond its pages.
    ensures within { (v : Version) → IsTrue W.tells → IsVersionOf v (W.world out.old).seen.held → WritesWithin (page_bytes * v.pages) (W.world out.old) (W.world out.new) }
    // For lack of memory, and where no store is, nothing was taken.
    ensures early { (result ≡ memory_status) ⊎ (result ≡ store_status) → (W.world out.new).beside.to_take ≡ (W.world out.old).beside.to_take }
    // Status 5 comes only where opening finds damage, and says the first, or where no state is there and a block that was read
    // shows the damage that was said.
    ensures only_at_damage { IsTrue W.tells → IsTrue W.tells_input → IsTrue W.tells_output → result ≡ damaged_status
        → TellsDamage F.spelling F.first_fault (W.world out.old).seen.held (W.world out.old) (W.world out.new) ⊎ (HasNoState F.spelling (W.world out.old).seen.held × ShowsSomeDamage (W.world out.new)) }
    // Where no store is there or opening finds damage, no line is served, and the run says so.
    ensures ending { OpeningEnds F.spelling F.first_fault W.tells W.tells_output result (W.world out.old) (W.world out.new) }
    // Status 8 comes exactly where both slot gates are closed, but for memory, the device and a last line that cannot be said.
    ensures only_at_no_store { IsTrue W.tells → result ≡ store_status → IsNoStore (W.world out.old).seen.held }
    ensures statuses { IsServing result ⊎ (result ≡ damaged_status) ⊎ (result ≡ memory_status) ⊎ (result ≡ store_status) }
{
    match open_or_say::<F, W>(alloc, out) {
        Ok(store) => serve_store(alloc, store, out),
        Err(status) => status,
    }
}
