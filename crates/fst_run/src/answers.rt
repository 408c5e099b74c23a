//! Lines, answered by a map.
ghost use Rattle.std.specs.Prelude.{◌≡◌, ◌<◌, length, option_map, Some};
ghost use Rattle.fst_run.specs.Answering.{AnswersRequest, MayAnswer};
ghost use Rattle.line_model.specs.Requests.{Count, Get, Seek};
ghost use Rattle.map_model.specs.Slices.{count as count_of, is_up_to};
ghost use Rattle.map_run_model.specs.MapLines.{map_request_of};
ghost use Rattle.store_commands.specs.Asks.{asked};

use crate::limits::{bounds_limit, key_limit, seek_limit};
use crate::map_line::parse_map_line;
use crate::ranges::{is_up_to, range_line};
use fst_map::FstMap;
use key_base::compare;
use lines_in::{LineEnd, say_reply};
use outside::Outside;
use std::alloc::Global;
use store_commands::{BadLine, Reply, Request, Scratch};

fn get_line<W: Outside>(
    map: &FstMap<'_, Global>,
    buffer: &mut [u8],
    out: &mut W,
    key: &[u8],
) -> LineEnd
    requires buffer { 0 < length buffer.old }
    requires may { MayAnswer map.now }
    ensures { AnswersRequest W.tells_output map.now (Get key.now) result (W.world out.old) (W.world out.new) }
{
    if let Some(bytes) = key_limit(key) {
        return say_reply(out, buffer, &Reply::LongKey(bytes), LineEnd::Next);
    }
    match map.get(key) {
        Some(value) => say_reply(out, buffer, &Reply::Value(value), LineEnd::Next),
        None => say_reply(out, buffer, &Reply::Missing, LineEnd::Next),
    }
}

// Whether a key is not above a bound, where there is one.
fn is_within(hi: Option<&[u8]>, key: &[u8]) -> bool
    ensures { result ≡ is_up_to (option_map (λ bound. bound.now) hi.entry) key.now }
{
    match hi {
        Some(hi) => is_up_to(hi, key),
        None => true,
    }
}

fn seek_line<W: Outside>(
    map: &FstMap<'_, Global>,
    alloc: &Global,
    buffer: &mut [u8],
    out: &mut W,
    lo: &[u8],
    hi: Option<&[u8]>,
) -> LineEnd
    requires buffer { 0 < length buffer.old }
    requires may { MayAnswer map.now }
    ensures { AnswersRequest W.tells_output map.now (Seek lo.now (option_map (λ bound. bound.now) hi.entry)) result (W.world out.old) (W.world out.new) }
{
    if let Some(bytes) = seek_limit(lo, hi) {
        return say_reply(out, buffer, &Reply::LongKey(bytes), LineEnd::Next);
    }
    let cursor = match map.start(alloc, lo) {
        Ok(Some(cursor)) => cursor,
        Ok(None) => return say_reply(out, buffer, &Reply::Missing, LineEnd::Next),
        Err(_) => return say_reply(out, buffer, &Reply::Memory, LineEnd::Next),
    };
    if !is_within(hi, cursor.key()) {
        return say_reply(out, buffer, &Reply::Missing, LineEnd::Next);
    }
    let pair = Reply::At {
        key: cursor.key(),
        value: cursor.value(),
    };
    say_reply(out, buffer, &pair, LineEnd::Next)
}

// How many pairs have a key from one bound to another, none where they are crossed.
fn count_between(map: &FstMap<'_, Global>, lo: &[u8], hi: &[u8]) -> u64
    ensures { result ≡ count_of map.now lo.now (Some hi.now) }
{
    if compare(hi, lo).is_lt() {
        return 0;
    }
    u64::from(map.count(lo, hi))
}

fn count_line<W: Outside>(
    map: &FstMap<'_, Global>,
    buffer: &mut [u8],
    out: &mut W,
    lo: &[u8],
    hi: &[u8],
) -> LineEnd
    requires buffer { 0 < length buffer.old }
    requires may { MayAnswer map.now }
    ensures { AnswersRequest W.tells_output map.now (Count lo.now hi.now) result (W.world out.old) (W.world out.new) }
{
    if let Some(bytes) = bounds_limit(lo, hi) {
        return say_reply(out, buffer, &Reply::LongKey(bytes), LineEnd::Next);
    }
    let count = count_between(map, lo, hi);
    say_reply(out, buffer, &Reply::Counted(count), LineEnd::Next)
}

// Answers what a line asks. A change asks nothing of a map.
fn answer_request<W: Outside>(
    map: &FstMap<'_, Global>,
    alloc: &Global,
    buffer: &mut [u8],
    out: &mut W,
    request: Request<'_>,
) -> LineEnd
    requires buffer { 0 < length buffer.old }
    requires may { MayAnswer map.now }
    ensures { AnswersRequest W.tells_output map.now (asked request.entry) result (W.world out.old) (W.world out.new) }
{
    match request {
        Request::Get { key } => get_line(map, buffer, out, key),
        Request::Seek { lo, hi } => seek_line(map, alloc, buffer, out, lo, hi),
        Request::Range { lo, hi, n } => range_line(map, alloc, buffer, out, lo, hi, n as u64),
        Request::Count { lo, hi } => count_line(map, buffer, out, lo, hi),
        Request::Quit => say_reply(out, buffer, &Reply::Bye, LineEnd::Quit),
        _ => say_reply(out, buffer, &Reply::BadLine(2), LineEnd::Next),
    }
}

/// Answers a line, its reply laid out in this buffer: it is said whole before it returns, or the run ends with 6.
pub(crate) fn answer<W: Outside>(
    map: &FstMap<'_, Global>,
    alloc: &Global,
    scratch: &mut Scratch,
    buffer: &mut [u8],
    out: &mut W,
    line: &[u8],
) -> LineEnd
    requires buffer { 0 < length buffer.old }
    requires may { MayAnswer map.now }
    ensures { AnswersRequest W.tells_output map.now (map_request_of line.now) result (W.world out.old) (W.world out.new) }
{
    match parse_map_line(line, scratch) {
        Ok(request) => answer_request(map, alloc, buffer, out, request),
        Err(BadLine(code)) => say_reply(out, buffer, &Reply::BadLine(code), LineEnd::Next),
    }
}
