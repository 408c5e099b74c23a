//! A line, answered, and the merge slice after it.
ghost use Rattle.std.specs.Prelude.{◌≡◌, ◌<◌, ◌≤◌, true, false, length};
ghost use Rattle.line_model.specs.Requests.{request_of};
ghost use Rattle.state_model.specs.PlayLaws.{has_slice};
ghost use Rattle.store_commands.specs.Asks.{asked};
ghost use Rattle.surf_run.specs.Kind.{filter_kind};
ghost use Rattle.surf_run.specs.Refusals.{end_of_change};
ghost use Rattle.surf_run.specs.Slices.{MakesSlice, ServesLine};

use crate::answers::{answer_request, bad_line, end_of};
use filter_api::RangeFilter;
use lines_in::LineEnd;
use outside::Outside;
use store_commands::{BadLine, Request, Scratch, parse_line};
use store_core::{Store, StoreError, Tended};

// The bytes in which a reply is laid out, a piece at a time.
const REPLY_BYTES: usize = 4_096;

/// The blocks that a merge slice reads at most.
pub(crate) const SLICE_BLOCKS: u32 = 8;

// Whether a merge slice comes after the line that asks this.
fn is_change(request: &Request<'_>) -> bool
    ensures { result ≡ has_slice (asked request.now) }
{
    matches!(request, Request::Put { .. } | Request::Del { .. })
}

// How a line ends after a merge slice.
fn end_of_slice(tended: Result<Tended, StoreError>) -> LineEnd
    ensures { result ≡ end_of_change tended }
{
    match tended {
        Ok(_) => LineEnd::Next,
        Err(why) => end_of(why),
    }
}

/// Goes on with the merge that runs, or begins one where some tables are to be merged, and reads at most a given number of blocks. Nothing is
/// said of it: lack of memory, of room or of an epoch is left for the next slice.
pub(crate) fn merge_slice<F: RangeFilter, W: Outside>(
    store: &mut Store<F>,
    out: &mut W,
    blocks: u32,
) -> LineEnd
    requires running { store.old.stopped ≡ false }
    requires some { 1 ≤ blocks }
    ensures { MakesSlice blocks (filter_kind F.spelling F.built_cutoff) W.tells result store.old store.new (W.world out.old) (W.world out.new) }
{
    let tended = store.tend(out, blocks);
    store.consistency_law();
    end_of_slice(tended)
}

// Answers a put or a delete, and makes the merge slice after it once its reply was said.
fn serve_change<F: RangeFilter, W: Outside>(
    store: &mut Store<F>,
    buffer: &mut [u8],
    out: &mut W,
    request: Request<'_>,
) -> LineEnd
    requires buffer { 0 < length buffer.old }
    requires running { store.old.stopped ≡ false }
    requires change { has_slice (asked request) ≡ true }
    ensures { ServesLine (filter_kind F.spelling F.built_cutoff) W.tells W.tells_output (asked request.entry) result store.old store.new (W.world out.old) (W.world out.new) }
{
    match answer_request(store, buffer, out, request) {
        LineEnd::Next => merge_slice(store, out, SLICE_BLOCKS),
        end => end,
    }
}

// Answers what a line asks, with the merge slice after it where one is due.
fn serve_request<F: RangeFilter, W: Outside>(
    store: &mut Store<F>,
    buffer: &mut [u8],
    out: &mut W,
    request: Request<'_>,
) -> LineEnd
    requires buffer { 0 < length buffer.old }
    requires running { store.old.stopped ≡ false }
    ensures { ServesLine (filter_kind F.spelling F.built_cutoff) W.tells W.tells_output (asked request.entry) result store.old store.new (W.world out.old) (W.world out.new) }
{
    if is_change(&request) {
        return serve_change(store, buffer, out, request);
    }
    answer_request(store, buffer, out, request)
}

/// Answers a line, its reply laid out in this buffer, and makes the merge slice after it.
pub(crate) fn answer<F: RangeFilter, W: Outside>(
    store: &mut Store<F>,
    scratch: &mut Scratch,
    buffer: &mut [u8],
    out: &mut W,
    line: &[u8],
) -> LineEnd
    requires buffer { 0 < length buffer.old }
    requires running { store.old.stopped ≡ false }
    ensures { ServesLine (filter_kind F.spelling F.built_cutoff) W.tells W.tells_output (request_of line.now) result store.old store.new (W.world out.old) (W.world out.new) }
{
    match parse_line(line, scratch) {
        Ok(request) => serve_request(store, buffer, out, request),
        Err(BadLine(code)) => bad_line(store, buffer, out, code),
    }
}

/// Answers a line, without its newline: its reply is said whole before it returns, or the run ends. After a put and a delete,
/// refused or not, comes a merge slice of eight blocks at most, of which nothing is said.
///
/// `Quit` comes for `quit`; `End(4)` where the device failed, `End(5)` where what was read of it is damaged, be it in the merge
/// slice, and `End(6)` where the output failed; else `Next`. The store may not be stopped, and is not stopped after `Next` and
/// `Quit`. No memory but that of the store's changes.
pub fn serve_line<F: RangeFilter, W: Outside>(
    store: &mut Store<F>,
    out: &mut W,
    line: &[u8],
    scratch: &mut Scratch,
) -> LineEnd
    requires running { store.old.stopped ≡ false }
    ensures { ServesLine (filter_kind F.spelling F.built_cutoff) W.tells W.tells_output (request_of line.now) result store.old store.new (W.world out.old) (W.world out.new) }
{
    answer(store, scratch, &mut [0; REPLY_BYTES], out, line)
}
