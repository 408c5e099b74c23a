//! A map is built of the lines of an input.
ghost use Rattle.std.specs.Prelude.{◌≡◌, ◌⊎◌, ◌++◌, ◌+◌, ◌<◌, ◌≤◌, ◌^◌, ◌==◌, [], length, vec_len, IfOk, IsTrue, OnErr, OnOk};
ghost use Rattle.disk_trait.specs.World.{IsDurable, Passes, Same};
ghost use Rattle.fst_run.specs.Ending.{BuildingEnds, PairsEnd, no_body_status, no_body_text};
ghost use Rattle.fst_run.specs.Writing.{IsAsked, MapWritten};
ghost use Rattle.key_base.specs.Limits.{piece_bytes};
ghost use Rattle.lines_in.specs.Causes.{DiskFailed, NoFall, SayFailed};
ghost use Rattle.lines_in.specs.Statuses.{output_status};
ghost use Rattle.map_run_model.specs.Building.{BuildContract};
ghost use Rattle.outside.specs.Streams.{SayMoves, SaysPrefix};

use crate::last_lines::{NO_KEYS, TAKEN, built_line, too_large_line};
use crate::pair_line::{MAX_PAIR_LINE_BYTES, ROOM_BYTES};
use crate::pair_lines::{NO_MAP, PairLines};
use disk_trait::{Disk, DiskFault, write_through};
use fst_map::{FinishError, FstBuilder};
use key_base::PIECE_BYTES;
use lines_in::{Pending, Status, last_line, read_lines, say_last};
use outside::Outside;
use std::alloc::{AllocError, Global};
use store_commands::Reply;

// Where the body begins, behind the gate at byte 0 and seven bytes that are left as they are.
const BODY_AT: u64 = 8;

// The sparse bits to a dense bit from which on a level is dense.
const RATIO: u16 = 64;

// What the reading of lines keeps in memory.
#[derive(Drop)]
struct Buffers {
    pending: Pending<MAX_PAIR_LINE_BYTES>,
    piece: Vec<u8>,
    lines: PairLines,
}

fn new_buffers(alloc: Global) -> Result<Buffers, AllocError>
    ensures pending { IfOk result (λ b. b.pending ≡ []) }
    ensures piece { IfOk result (λ b. vec_len b.piece ≡ piece_bytes) }
    ensures room { IfOk result (λ b. vec_len b.lines.room ≡ 1050000) }
    ensures pairs { IfOk result (λ b. b.lines.builder ≡ []) }
{
    let pending = Pending::new(alloc)?;
    let piece = vec![in alloc; 0; PIECE_BYTES]?;
    let room = vec![in alloc; 0; ROOM_BYTES]?;
    let builder = FstBuilder::new(alloc);
    Ok(Buffers {
        pending,
        piece,
        lines: PairLines { builder, room },
    })
}

// Makes all that was written last, and answers whether a map is there.
fn is_taken<D: Disk>(disk: &mut D) -> Result<bool, DiskFault>
    ensures asked { IsTrue D.tells → IfOk result (λ taken. taken ≡ ((D.world disk.old).seen.held 0 == 1)) }
    ensures durable { OnOk result (IsDurable (D.world disk.new)) }
    ensures moves { IsAsked (D.world disk.old) (D.world disk.new) }
    ensures cause { OnErr result (DiskFailed (D.world disk.old) (D.world disk.new)) }
{
    disk.sync()?;
    let mut gate = [0];
    disk.read(0, &mut gate)?;
    Ok(gate[0] == 1)
}

// Writes the body and makes it last, and then the gate.
fn write_map<D: Disk>(disk: &mut D, body: &[u8]) -> Result<(), DiskFault>
    requires { length body.now ≤ 2 ^ 31 }
    ensures written { MapWritten (IsTrue D.tells) body.now result (D.world disk.old) (D.world disk.new) }
    ensures cause { OnErr result (DiskFailed (D.world disk.old) (D.world disk.new)) }
    ensures counts { NoFall (D.world disk.old) (D.world disk.new) }
{
    write_through(disk, BODY_AT, body)?;
    write_through(disk, 0, &[1])
}

// Says why there is no body of the pairs, and answers the status, or 6 where that cannot be said whole.
fn say_no_body<W: Outside>(out: &mut W, why: FinishError) -> u8
    ensures said { IsTrue W.tells_output → result ≡ no_body_status why → (W.world out.new).beside.said ≡ (W.world out.old).beside.said ++ no_body_text why }
    ensures prefix { IsTrue W.tells_output → SaysPrefix (no_body_text why) (W.world out.old).beside.said (W.world out.new).beside.said }
    ensures ends { (result ≡ no_body_status why) ⊎ ((result ≡ output_status) × SayFailed (W.world out.old) (W.world out.new)) }
    ensures moves { SayMoves (W.world out.old) (W.world out.new) }
{
    match why {
        FinishError::Memory => last_line(out, &Reply::Memory, Status::Memory as u8),
        FinishError::NoKeys => say_last(out, NO_KEYS, NO_MAP),
        FinishError::Large(bytes) => {
            let line = too_large_line(bytes);
            say_last(out, line.as_slice(), NO_MAP)
        }
    }
}

// Writes the map of these pairs, and says that it did.
fn write_pairs<W: Outside>(alloc: Global, builder: &FstBuilder, out: &mut W) -> u8
    ensures { PairsEnd W.tells W.tells_output builder.now result (W.world out.old) (W.world out.new) }
{
    let mut body = Vec::new(alloc);
    match builder.finish(RATIO, &mut body) {
        Ok(()) => {}
        Err(why) => return say_no_body(out, why),
    }
    match write_map(out, &body) {
        Ok(()) => {
            let line = built_line(builder.len() as u64);
            say_last(out, line.as_slice(), Status::Done as u8)
        }
        Err(_) => last_line(out, &Reply::Device, Status::Device as u8),
    }
}

// Reads the lines, and writes the map of their pairs.
fn build_of_lines<W: Outside>(alloc: Global, buffers: Buffers, out: &mut W) -> u8
    requires pending { buffers.pending ≡ [] }
    requires piece { vec_len buffers.piece ≡ piece_bytes }
    requires room { vec_len buffers.lines.room ≡ 1050000 }
    requires pairs { buffers.lines.builder ≡ [] }
    ensures { BuildingEnds W.world W.tells W.tells_input W.tells_output result out.old out.new }
{
    let Buffers {
        mut pending,
        mut piece,
        mut lines,
    } = buffers;
    let status = read_lines(&mut lines, &mut pending, &mut piece, out);
    if status != Status::Done as u8 {
        return status;
    }
    write_pairs(alloc, &lines.builder, out)
}

/// Writes the map of the lines of the input to the device, and answers the exit status. Each line is a key and a value in hex,
/// parted by one space; keys rise.
///
/// | status | comes | said |
/// |---|---|---|
/// | 0 | the map is written, and synced | `built N`: of so many pairs |
/// | 3, 4, 6 | the input, the device, the output failed | at 4 `device` |
/// | 7 | there was no memory | `memory` |
/// | 8 | a map is there | `taken` |
/// | 9 | 2^40 bytes were taken | nothing |
/// | 11 | a line is bad; there are over 1,000,000; the body would have over 2^31 bytes; there is no line | `bad line N code C`, `too many`, `too large N`, `no keys` |
///
/// Nothing is written but at 0, and at 4 and 6 where all lines were read. Takes memory for the pairs and for the body.
pub fn fst_build<W: Outside>(alloc: Global, out: &mut W) -> u8
    ensures { BuildContract W.world W.tells W.tells_input W.tells_output result out.old out.new }
{
    match is_taken(out) {
        Ok(false) => {}
        Ok(true) => return say_last(out, TAKEN, Status::Store as u8),
        Err(_) => return last_line(out, &Reply::Device, Status::Device as u8),
    }
    match new_buffers(alloc) {
        Ok(buffers) => build_of_lines(alloc, buffers, out),
        Err(_) => last_line(out, &Reply::Memory, Status::Memory as u8),
    }
}
