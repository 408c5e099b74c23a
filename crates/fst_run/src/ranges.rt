//! The pairs of a range, said.
ghost use Rattle.std.specs.Prelude.{◌≡◌, ◌<◌, ◌++◌, length, take, IfOk, IsTrue, OnErr, Some};
ghost use Rattle.fst_run.specs.Answering.{AnswersRequest, MayAnswer, from_on, pairs_text};
ghost use Rattle.line_model.specs.Requests.{Range};
ghost use Rattle.lines_in.specs.Causes.{SayFailed};
ghost use Rattle.map_model.specs.Slices.{is_up_to as not_above};
ghost use Rattle.outside.specs.Streams.{SayMoves, SaysPrefix};

use crate::limits::bounds_limit;
use fst_map::{FstCursor, FstMap};
use key_base::compare;
use lines_in::{LineEnd, Status, add_reply, say_behind, say_reply};
use outside::{Outside, SayFault};
use std::alloc::Global;
use store_commands::Reply;

/// Whether a key is not above a bound.
pub(crate) fn is_up_to(hi: &[u8], key: &[u8]) -> bool
    ensures { result ≡ not_above (Some hi.now) key.now }
{
    !compare(hi, key).is_lt()
}

// Lays the pairs out in the buffer from where the cursor is, as many as are wanted and not above `hi`, and says the buffer whenever
// it is full. Answers how many they are, and how many bytes wait.
fn say_pairs<W: Outside>(
    cursor: &mut FstCursor<'_, Global, Global>,
    buffer: &mut [u8],
    out: &mut W,
    hi: &[u8],
    most: u64,
) -> Result<(u64, usize), SayFault>
    requires buffer { 0 < length buffer.old }
    requires may { MayAnswer cursor.old.map }
    ensures said { IsTrue W.tells_output
        → IfOk result (λ end. (W.world out.new).beside.said ++ take end.1 buffer.new ≡ (W.world out.old).beside.said ++ pairs_text (take most (from_on cursor.old (Some hi.now)))) }
    ensures count { IfOk result (λ end. end.0 ≡ length (take most (from_on cursor.old (Some hi.now)))) }
    ensures room { IfOk result (λ end. end.1 < length buffer.new) }
    ensures prefix { IsTrue W.tells_output → OnErr result (SaysPrefix (pairs_text (take most (from_on cursor.old (Some hi.now)))) (W.world out.old).beside.said (W.world out.new).beside.said) }
    ensures cause { OnErr result (SayFailed (W.world out.old) (W.world out.new)) }
    ensures moves { SayMoves (W.world out.old) (W.world out.new) }
{
    let mut count = 0;
    let mut used = 0;
    while count < most && is_up_to(hi, cursor.key()) {
        let pair = Reply::At {
            key: cursor.key(),
            value: cursor.value(),
        };
        used = add_reply(out, buffer, used, &pair)?;
        count += 1;
        if !cursor.next() {
            return Ok((count, used));
        }
    }
    Ok((count, used))
}

/// Says the first pairs from one bound to another, at most so many, and how many they are.
pub(crate) fn range_line<W: Outside>(
    map: &FstMap<'_, Global>,
    alloc: &Global,
    buffer: &mut [u8],
    out: &mut W,
    lo: &[u8],
    hi: &[u8],
    most: u64,
) -> LineEnd
    requires buffer { 0 < length buffer.old }
    requires may { MayAnswer map.now }
    ensures { AnswersRequest W.tells_output map.now (Range lo.now hi.now most) result (W.world out.old) (W.world out.new) }
{
    if let Some(bytes) = bounds_limit(lo, hi) {
        return say_reply(out, buffer, &Reply::LongKey(bytes), LineEnd::Next);
    }
    let cursor = match map.start(alloc, lo) {
        Ok(Some(cursor)) => cursor,
        Ok(None) => return say_reply(out, buffer, &Reply::End(0), LineEnd::Next),
        Err(_) => return say_reply(out, buffer, &Reply::Memory, LineEnd::Next),
    };
    let mut cursor = cursor;
    match say_pairs(&mut cursor, buffer, out, hi, most) {
        Ok((count, used)) => say_behind(out, buffer, used, &Reply::End(count), LineEnd::Next),
        Err(_) => LineEnd::End(Status::Output as u8),
    }
}
