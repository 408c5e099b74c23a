//! A map that is on a device, opened and served.
ghost use Rattle.std.specs.Prelude.{◌≡◌, ◌⊎◌, ◌++◌, [], vec_len, IfOk, IsTrue};
ghost use Rattle.fst_run.specs.Answering.{MayAnswer};
ghost use Rattle.fst_run.specs.Fetching.{unread_status, unread_text};
ghost use Rattle.fst_run.specs.Ending.{ServingEnds, no_map_text_of, status_of};
ghost use Rattle.key_base.specs.Limits.{piece_bytes};
ghost use Rattle.lines_in.specs.Causes.{SayFailed};
ghost use Rattle.lines_in.specs.Statuses.{output_status};
ghost use Rattle.map_run_model.specs.Serving.{IsOnlyRead, ServeContract};
ghost use Rattle.outside.specs.Streams.{SayMoves, SaysPrefix};

use crate::body::{Unread, read_body};
use crate::last_lines::{NOT_A_MAP, damaged_line};
use crate::map_lines::MapLines;
use fst_map::{FstError, FstMap};
use key_base::{MAX_LINE_BYTES, PIECE_BYTES};
use lines_in::{Pending, Status, last_line, read_lines, say_last};
use outside::Outside;
use std::alloc::{AllocError, Global};
use store_commands::{Reply, Scratch};

// What serving keeps in memory beside the map.
#[derive(Drop)]
struct Buffers {
    pending: Pending<MAX_LINE_BYTES>,
    scratch: Scratch,
    reply: Vec<u8>,
    piece: Vec<u8>,
}

fn new_buffers(alloc: Global) -> Result<Buffers, AllocError>
    ensures pending { IfOk result (λ b. b.pending ≡ []) }
    ensures reply { IfOk result (λ b. vec_len b.reply ≡ piece_bytes) }
    ensures piece { IfOk result (λ b. vec_len b.piece ≡ piece_bytes) }
{
    let pending = Pending::new(alloc)?;
    let scratch = Scratch::new(alloc)?;
    let reply = vec![in alloc; 0; PIECE_BYTES]?;
    let piece = vec![in alloc; 0; PIECE_BYTES]?;
    Ok(Buffers {
        pending,
        scratch,
        reply,
        piece,
    })
}

// Answers the lines of the input by a map, with all memory that is not a walk's taken first.
fn serve_map<W: Outside>(alloc: Global, map: FstMap<'_, Global>, out: &mut W) -> u8
    requires { MayAnswer map }
    ensures { ServingEnds W.world W.tells W.tells_input W.tells_output map.entry result out.old out.new }
{
    match new_buffers(alloc) {
        Ok(buffers) => {
            let Buffers {
                mut pending,
                scratch,
                reply,
                mut piece,
            } = buffers;
            let mut lines = MapLines {
                map,
                alloc,
                scratch,
                reply,
            };
            read_lines(&mut lines, &mut pending, &mut piece, out)
        }
        Err(_) => last_line(out, &Reply::Memory, Status::Memory as u8),
    }
}

// Says why bytes are no map.
fn say_no_map<W: Outside>(out: &mut W, why: FstError) -> u8
    ensures said { IsTrue W.tells_output → result ≡ status_of why → (W.world out.new).beside.said ≡ (W.world out.old).beside.said ++ no_map_text_of why }
    ensures prefix { IsTrue W.tells_output → SaysPrefix (no_map_text_of why) (W.world out.old).beside.said (W.world out.new).beside.said }
    ensures ends { (result ≡ status_of why) ⊎ ((result ≡ output_status) × SayFailed (W.world out.old) (W.world out.new)) }
    ensures moves { SayMoves (W.world out.old) (W.world out.new) }
{
    match why {
        FstError::Memory => last_line(out, &Reply::Memory, Status::Memory as u8),
        FstError::Fault(fault) => {
            let line = damaged_line(fault);
            say_last(out, line.as_slice(), Status::Damaged as u8)
        }
    }
}

// Says why no body was read.
fn say_unread<W: Outside>(out: &mut W, why: Unread) -> u8
    ensures said { IsTrue W.tells_output → result ≡ unread_status why → (W.world out.new).beside.said ≡ (W.world out.old).beside.said ++ unread_text why }
    ensures prefix { IsTrue W.tells_output → SaysPrefix (unread_text why) (W.world out.old).beside.said (W.world out.new).beside.said }
    ensures ends { (result ≡ unread_status why) ⊎ ((result ≡ output_status) × SayFailed (W.world out.old) (W.world out.new)) }
    ensures moves { SayMoves (W.world out.old) (W.world out.new) }
{
    match why {
        Unread::Memory => last_line(out, &Reply::Memory, Status::Memory as u8),
        Unread::Device => last_line(out, &Reply::Device, Status::Device as u8),
        Unread::NoMap => say_last(out, NOT_A_MAP, Status::Store as u8),
    }
}

/// Answers the lines of the input by the map on the device, each reply said before the next line is begun, and answers the exit
/// status. The lines are `get`, `seek`, `range`, `count` and `quit`, as a store's; every other verb is `bad 2`.
///
/// | status | comes | said |
/// |---|---|---|
/// | 0 | the input was read to its end or to `quit` | |
/// | 3, 4, 6 | the input, the device, the output failed | at 4 `device` |
/// | 5 | the bytes of the map break a rule | `damaged map PLACE RULE` |
/// | 7 | there was no memory before the first line | `memory` |
/// | 8 | no map is there | `not a map` |
/// | 9 | 2^40 bytes were taken | |
///
/// Nothing is written or synced, and there are four reads at most. Takes memory for the bytes of the map and for its trie; after
/// that `seek` and `range` alone take some, and are `memory` where there is none.
pub fn fst_serve<W: Outside>(alloc: Global, out: &mut W) -> u8
    ensures { ServeContract W.world W.tells W.tells_input W.tells_output result out.old out.new }
{
    let bytes = match read_body(alloc, out) {
        Ok(bytes) => bytes,
        Err(why) => return say_unread(out, why),
    };
    match FstMap::read(alloc, &bytes) {
        Ok(map) => serve_map(alloc, map, out),
        Err(why) => say_no_map(out, why),
    }
}
