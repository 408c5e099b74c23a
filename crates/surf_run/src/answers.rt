//! Requests, answered.
ghost use Rattle.std.specs.Prelude.{◌≡◌, ◌≢◌, ◌⊎◌, ◌<◌, true, false, length, take, IfSome, IsTrue, Some, None};
ghost use Rattle.std.specs.Option.{option_map};
ghost use Rattle.line_model.specs.Requests.{Bad, Compact, Count, Del, Estimate, Explain, Flush, Get, Put, Quit, Range, Seek};
ghost use Rattle.entry_model.specs.Entries.{IsEntry, entry_of};
ghost use Rattle.line_model.specs.Replies.{Reply as LineReply, found};
ghost use Rattle.lines_in.specs.declared.line_end.LineEnd.TheVariants.{End, Next};
ghost use Rattle.lines_in.specs.Causes.{SayFailed};
ghost use Rattle.lines_in.specs.Saying.{IsShort, Says, SaysBehind, end_by};
ghost use Rattle.lines_in.specs.Statuses.{output_status};
ghost use Rattle.outside.specs.Streams.{SayMoves};
ghost use Rattle.state_model.specs.PlayLaws.{has_slice};
ghost use Rattle.store_commands.specs.Asks.{asked};
ghost use Rattle.store_commands.specs.Spoken.{spoken};
ghost use Rattle.store_core.specs.Answers.{told, told_change, told_limit};
ghost use Rattle.surf_run.specs.Answering.{AnswersLine, SaysOnward};
ghost use Rattle.surf_run.specs.Kind.{filter_kind};
ghost use Rattle.surf_run.specs.Refusals.{end_of_change, end_of_refusal};

use filter_api::RangeFilter;
use lines_in::{LineEnd, Status, add_reply, say_behind, say_reply};
use outside::Outside;
use store_commands::{Reply, Request};
use store_core::{Limit, Store, StoreError};

// The reply that tells a limit.
fn limit_reply<'a>(limit: Limit) -> Reply<'a>
    ensures told { spoken result ≡ told_limit limit }
    ensures short { IsShort result }
{
    match limit {
        Limit::Key(size) => Reply::LongKey(size),
        Limit::Value(size) => Reply::LongValue(size),
        Limit::Tables => Reply::ManyTables,
        Limit::Epoch => Reply::LastEpoch,
    }
}

// The reply that tells a refusal, if a running store refuses so.
fn reply_of<'a>(why: StoreError) -> Option<Reply<'a>>
    ensures told { option_map spoken result ≡ told why }
    ensures short { IfSome result IsShort }
{
    match why {
        StoreError::Memory => Some(Reply::Memory),
        StoreError::Device(_) => Some(Reply::Device),
        StoreError::Limit(limit) => Some(limit_reply(limit)),
        StoreError::Full { need, gap } => Some(Reply::Full { need, gap }),
        StoreError::Damaged(damage) => Some(Reply::Damaged(damage)),
        StoreError::Stopped
        | StoreError::NotAStore
        | StoreError::AlreadyAStore
        | StoreError::BadSettings(_) => None,
    }
}

/// How a line ends whose call was refused.
pub(crate) fn end_of(why: StoreError) -> LineEnd
    ensures { result ≡ end_of_refusal why }
{
    match why {
        StoreError::Device(_) => LineEnd::End(Status::Device as u8),
        StoreError::Damaged(_) => LineEnd::End(Status::Damaged as u8),
        _ => LineEnd::Next,
    }
}

// Says why a call was refused.
fn say_refusal<W: Outside>(out: &mut W, buffer: &mut [u8], why: StoreError) -> LineEnd
    requires buffer { 0 < length buffer.old }
    requires told { told why ≢ None }
    ensures says { (reply : LineReply) → IsTrue W.tells_output → told why ≡ Some reply → Says (end_by reply) reply result (W.world out.old) (W.world out.new) }
    ensures ends { (result ≡ end_of_refusal why) ⊎ ((result ≡ End output_status) × SayFailed (W.world out.old) (W.world out.new)) }
    ensures moves { SayMoves (W.world out.old) (W.world out.new) }
{
    match reply_of(why) {
        Some(reply) => say_reply(out, buffer, &reply, end_of(why)),
        None => unreachable!(),
    }
}

// Says what waits in the buffer, and why a call was refused after it.
fn say_refusal_behind<W: Outside>(
    out: &mut W,
    buffer: &mut [u8],
    used: usize,
    why: StoreError,
) -> LineEnd
    requires room { used < length buffer.old }
    requires told { told why ≢ None }
    ensures says { (reply : LineReply) → IsTrue W.tells_output → told why ≡ Some reply → SaysBehind (take used buffer.old) (end_by reply) reply result (W.world out.old) (W.world out.new) }
    ensures ends { (result ≡ end_of_refusal why) ⊎ ((result ≡ End output_status) × SayFailed (W.world out.old) (W.world out.new)) }
    ensures moves { SayMoves (W.world out.old) (W.world out.new) }
{
    match reply_of(why) {
        Some(reply) => say_behind(out, buffer, used, &reply, end_of(why)),
        None => unreachable!(),
    }
}

// Says that a change is done, or why it was refused.
fn say_change<W: Outside>(
    out: &mut W,
    buffer: &mut [u8],
    changed: Result<(), StoreError>,
) -> LineEnd
    requires buffer { 0 < length buffer.old }
    requires told { told_change changed ≢ None }
    ensures says { (reply : LineReply) → IsTrue W.tells_output → told_change changed ≡ Some reply → Says (end_by reply) reply result (W.world out.old) (W.world out.new) }
    ensures ends { (result ≡ end_of_change changed) ⊎ ((result ≡ End output_status) × SayFailed (W.world out.old) (W.world out.new)) }
    ensures moves { SayMoves (W.world out.old) (W.world out.new) }
{
    match changed {
        Ok(()) => say_reply(out, buffer, &Reply::Done, LineEnd::Next),
        Err(why) => say_refusal(out, buffer, why),
    }
}

fn put_line<F: RangeFilter, W: Outside>(
    store: &mut Store<F>,
    buffer: &mut [u8],
    out: &mut W,
    key: &[u8],
    value: &[u8],
) -> LineEnd
    requires buffer { 0 < length buffer.old }
    requires running { store.old.stopped ≡ false }
    ensures answers { AnswersLine (filter_kind F.spelling F.built_cutoff) W.tells W.tells_output (Put key.now value.now) result store.old store.new (W.world out.old) (W.world out.new) }
    ensures onward { IsTrue W.tells_output → result ≡ Next → SaysOnward (W.world out.old) (W.world out.new) }
{
    let changed = store.put(out, key, value);
    store.consistency_law();
    say_change(out, buffer, changed)
}

fn del_line<F: RangeFilter, W: Outside>(
    store: &mut Store<F>,
    buffer: &mut [u8],
    out: &mut W,
    key: &[u8],
) -> LineEnd
    requires buffer { 0 < length buffer.old }
    requires running { store.old.stopped ≡ false }
    ensures answers { AnswersLine (filter_kind F.spelling F.built_cutoff) W.tells W.tells_output (Del key.now) result store.old store.new (W.world out.old) (W.world out.new) }
    ensures onward { IsTrue W.tells_output → result ≡ Next → SaysOnward (W.world out.old) (W.world out.new) }
{
    let changed = store.delete(out, key);
    store.consistency_law();
    say_change(out, buffer, changed)
}

fn flush_line<F: RangeFilter, W: Outside>(
    store: &mut Store<F>,
    buffer: &mut [u8],
    out: &mut W,
) -> LineEnd
    requires buffer { 0 < length buffer.old }
    requires running { store.old.stopped ≡ false }
    ensures { AnswersLine (filter_kind F.spelling F.built_cutoff) W.tells W.tells_output Flush result store.old store.new (W.world out.old) (W.world out.new) }
{
    let changed = store.flush(out);
    store.consistency_law();
    say_change(out, buffer, changed)
}

fn compact_line<F: RangeFilter, W: Outside>(
    store: &mut Store<F>,
    buffer: &mut [u8],
    out: &mut W,
) -> LineEnd
    requires buffer { 0 < length buffer.old }
    requires running { store.old.stopped ≡ false }
    ensures { AnswersLine (filter_kind F.spelling F.built_cutoff) W.tells W.tells_output Compact result store.old store.new (W.world out.old) (W.world out.new) }
{
    let changed = store.compact(out);
    store.consistency_law();
    say_change(out, buffer, changed)
}

fn get_line<F: RangeFilter, W: Outside>(
    store: &mut Store<F>,
    buffer: &mut [u8],
    out: &mut W,
    key: &[u8],
) -> LineEnd
    requires buffer { 0 < length buffer.old }
    requires running { store.old.stopped ≡ false }
    ensures { AnswersLine (filter_kind F.spelling F.built_cutoff) W.tells W.tells_output (Get key.now) result store.old store.new (W.world out.old) (W.world out.new) }
{
    store.consistency_law();
    match store.get(out, key) {
        Ok(Some(value)) => say_reply(out, buffer, &Reply::Value(value), LineEnd::Next),
        Ok(None) => say_reply(out, buffer, &Reply::Missing, LineEnd::Next),
        Err(why) => say_refusal(out, buffer, why),
    }
}

// Says a pair that was found, or that there is none.
fn say_found<W: Outside>(out: &mut W, buffer: &mut [u8], pair: Option<(&[u8], &[u8])>) -> LineEnd
    requires buffer { 0 < length buffer.old }
    requires sound { IfSome pair (λ p. IsEntry (entry_of p.0.now (Some p.1.now))) }
    ensures says { IsTrue W.tells_output → Says Next (found (option_map (λ p. (p.0.now, p.1.now)) pair.entry)) result (W.world out.old) (W.world out.new) }
    ensures cause { (result ≡ Next) ⊎ ((result ≡ End output_status) × SayFailed (W.world out.old) (W.world out.new)) }
    ensures moves { SayMoves (W.world out.old) (W.world out.new) }
{
    match pair {
        Some((key, value)) => say_reply(out, buffer, &Reply::At { key, value }, LineEnd::Next),
        None => say_reply(out, buffer, &Reply::Missing, LineEnd::Next),
    }
}

fn seek_line<F: RangeFilter, W: Outside>(
    store: &Store<F>,
    buffer: &mut [u8],
    out: &mut W,
    lo: &[u8],
    hi: Option<&[u8]>,
) -> LineEnd
    requires buffer { 0 < length buffer.old }
    requires running { store.now.stopped ≡ false }
    ensures { AnswersLine (filter_kind F.spelling F.built_cutoff) W.tells W.tells_output (Seek lo.now (option_map (λ bound. bound.now) hi.entry)) result store.now store.now (W.world out.old) (W.world out.new) }
{
    store.consistency_law();
    match store.seek(lo, hi) {
        Ok(scan) => {
            let mut scan = scan;
            match scan.advance(out) {
                Ok(_) => say_found(out, buffer, scan.pair()),
                Err(why) => say_refusal(out, buffer, why),
            }
        }
        Err(why) => say_refusal(out, buffer, why),
    }
}

// Pairs are laid out in the buffer as they are found, and said whenever it is full.
fn range_line<F: RangeFilter, W: Outside>(
    store: &Store<F>,
    buffer: &mut [u8],
    out: &mut W,
    lo: &[u8],
    hi: &[u8],
    most: u64,
) -> LineEnd
    requires buffer { 0 < length buffer.old }
    requires running { store.now.stopped ≡ false }
    ensures { AnswersLine (filter_kind F.spelling F.built_cutoff) W.tells W.tells_output (Range lo.now hi.now most) result store.now store.now (W.world out.old) (W.world out.new) }
{
    store.consistency_law();
    let mut scan = match store.range(lo, hi, most) {
        Ok(scan) => scan,
        Err(why) => return say_refusal(out, buffer, why),
    };
    let mut count = 0u64;
    let mut used = 0;
    loop {
        match scan.advance(out) {
            Ok(true) => {}
            Ok(false) => return say_behind(out, buffer, used, &Reply::End(count), LineEnd::Next),
            Err(why) => return say_refusal_behind(out, buffer, used, why),
        }
        let Some((key, value)) = scan.pair() else {
            unreachable!()
        };
        match add_reply(out, buffer, used, &Reply::At { key, value }) {
            Ok(waits) => used = waits,
            Err(_) => return LineEnd::End(Status::Output as u8),
        }
        count += 1;
    }
}

fn count_line<F: RangeFilter, W: Outside>(
    store: &Store<F>,
    buffer: &mut [u8],
    out: &mut W,
    lo: &[u8],
    hi: &[u8],
) -> LineEnd
    requires buffer { 0 < length buffer.old }
    requires running { store.now.stopped ≡ false }
    ensures { AnswersLine (filter_kind F.spelling F.built_cutoff) W.tells W.tells_output (Count lo.now hi.now) result store.now store.now (W.world out.old) (W.world out.new) }
{
    store.consistency_law();
    match store.count(out, lo, hi) {
        Ok(count) => say_reply(out, buffer, &Reply::Counted(count), LineEnd::Next),
        Err(why) => say_refusal(out, buffer, why),
    }
}

fn estimate_line<F: RangeFilter, W: Outside>(
    store: &Store<F>,
    buffer: &mut [u8],
    out: &mut W,
    lo: &[u8],
    hi: &[u8],
) -> LineEnd
    requires buffer { 0 < length buffer.old }
    requires running { store.now.stopped ≡ false }
    ensures { AnswersLine (filter_kind F.spelling F.built_cutoff) W.tells W.tells_output (Estimate lo.now hi.now) result store.now store.now (W.world out.old) (W.world out.new) }
{
    store.consistency_law();
    match store.estimate(lo, hi) {
        Ok(count) => say_reply(out, buffer, &Reply::About(count), LineEnd::Next),
        Err(why) => say_refusal(out, buffer, why),
    }
}

fn explain_line<F: RangeFilter, W: Outside>(
    store: &Store<F>,
    buffer: &mut [u8],
    out: &mut W,
    key: &[u8],
) -> LineEnd
    requires buffer { 0 < length buffer.old }
    requires running { store.now.stopped ≡ false }
    ensures { AnswersLine (filter_kind F.spelling F.built_cutoff) W.tells W.tells_output (Explain key.now) result store.now store.now (W.world out.old) (W.world out.new) }
{
    store.consistency_law();
    match store.explain(key) {
        Ok(told) => {
            let reply = Reply::Explained {
                tables: told.tables,
                admitted: told.admitted,
                blocks: told.blocks,
            };
            say_reply(out, buffer, &reply, LineEnd::Next)
        }
        Err(why) => say_refusal(out, buffer, why),
    }
}

/// Says why a line is bad.
pub(crate) fn bad_line<F: RangeFilter, W: Outside>(
    store: &Store<F>,
    buffer: &mut [u8],
    out: &mut W,
    code: u8,
) -> LineEnd
    requires buffer { 0 < length buffer.old }
    requires running { store.now.stopped ≡ false }
    ensures { AnswersLine (filter_kind F.spelling F.built_cutoff) W.tells W.tells_output (Bad code) result store.now store.now (W.world out.old) (W.world out.new) }
{
    store.consistency_law();
    say_reply(out, buffer, &Reply::BadLine(code), LineEnd::Next)
}

fn quit_line<F: RangeFilter, W: Outside>(
    store: &Store<F>,
    buffer: &mut [u8],
    out: &mut W,
) -> LineEnd
    requires buffer { 0 < length buffer.old }
    requires running { store.now.stopped ≡ false }
    ensures { AnswersLine (filter_kind F.spelling F.built_cutoff) W.tells W.tells_output Quit result store.now store.now (W.world out.old) (W.world out.new) }
{
    store.consistency_law();
    say_reply(out, buffer, &Reply::Bye, LineEnd::Quit)
}

/// Answers what a line asks, its merge slice apart.
pub(crate) fn answer_request<F: RangeFilter, W: Outside>(
    store: &mut Store<F>,
    buffer: &mut [u8],
    out: &mut W,
    request: Request<'_>,
) -> LineEnd
    requires buffer { 0 < length buffer.old }
    requires running { store.old.stopped ≡ false }
    ensures answers { AnswersLine (filter_kind F.spelling F.built_cutoff) W.tells W.tells_output (asked request.entry) result store.old store.new (W.world out.old) (W.world out.new) }
    ensures onward { has_slice (asked request.entry) ≡ true → IsTrue W.tells_output → result ≡ Next → SaysOnward (W.world out.old) (W.world out.new) }
{
    match request {
        Request::Put { key, value } => put_line(store, buffer, out, key, value),
        Request::Del { key } => del_line(store, buffer, out, key),
        Request::Get { key } => get_line(store, buffer, out, key),
        Request::Seek { lo, hi } => seek_line(store, buffer, out, lo, hi),
        Request::Range { lo, hi, n } => range_line(store, buffer, out, lo, hi, n as u64),
        Request::Count { lo, hi } => count_line(store, buffer, out, lo, hi),
        Request::Estimate { lo, hi } => estimate_line(store, buffer, out, lo, hi),
        Request::Explain { key } => explain_line(store, buffer, out, key),
        Request::Flush => flush_line(store, buffer, out),
        Request::Compact => compact_line(store, buffer, out),
        Request::Quit => quit_line(store, buffer, out),
    }
}
