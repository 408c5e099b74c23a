//! Replies and last lines, said whole.
ghost use Rattle.std.specs.Prelude.{◌≡◌, ◌≢◌, ◌⊎◌, ◌<◌, ◌++◌, length, take, IfOk, IsTrue, OnOk, OnErr};
ghost use Rattle.disk_trait.specs.World.{Rose};
ghost use Rattle.outside.specs.Streams.{SayMoves, SaysPrefix};
ghost use Rattle.line_model.specs.Replies.{text_of};
ghost use Rattle.store_commands.specs.Spoken.{spoken};
ghost use Rattle.lines_in.specs.declared.line_end.LineEnd.TheVariants.{End};
ghost use Rattle.lines_in.specs.Causes.{SayFailed, LineMoves};
ghost use Rattle.lines_in.specs.Saying.{IsShort, Says, SaysBehind};
ghost use Rattle.lines_in.specs.Statuses.{output_status};

use crate::line_end::LineEnd;
use crate::status::Status;
use outside::{Outside, SayFault, say_all};
use store_commands::{Reply, piece};

// The bytes in which a last line is laid out, a piece at a time.
const LAST_LINE_BYTES: usize = 64;

/// Says a reply in as many pieces as the buffer needs.
pub fn say_pieces<W: Outside>(
    out: &mut W,
    buffer: &mut [u8],
    reply: &Reply<'_>,
) -> Result<(), SayFault>
    requires { 0 < length buffer.old }
    ensures said { IsTrue W.tells_output → IsShort reply.now → OnOk result ((W.world out.new).beside.said ≡ (W.world out.old).beside.said ++ text_of (spoken reply.now)) }
    ensures prefix { IsTrue W.tells_output → SaysPrefix (text_of (spoken reply.now)) (W.world out.old).beside.said (W.world out.new).beside.said }
    ensures moves { SayMoves (W.world out.old) (W.world out.new) }
    ensures cause { OnErr result (SayFailed (W.world out.old) (W.world out.new)) }
{
    let mut from = 0;
    let mut n = piece(reply, from, buffer);
    while n > 0 {
        say_all(out, &buffer[..n])?;
        // No reply is that long.
        let Some(next) = from.checked_add(n) else {
            return Ok(());
        };
        from = next;
        n = piece(reply, from, buffer);
    }
    Ok(())
}

/// Says a reply, and answers this end, or 6 where it cannot be said whole.
pub fn say_reply<W: Outside>(
    out: &mut W,
    buffer: &mut [u8],
    reply: &Reply<'_>,
    end: LineEnd,
) -> LineEnd
    requires { 0 < length buffer.old }
    ensures says { IsTrue W.tells_output → IsShort reply.now → Says end (spoken reply.now) result (W.world out.old) (W.world out.new) }
    ensures cause { (result ≡ end) ⊎ ((result ≡ End output_status) × SayFailed (W.world out.old) (W.world out.new)) }
    ensures moves { SayMoves (W.world out.old) (W.world out.new) }
{
    match say_pieces(out, buffer, reply) {
        Ok(()) => end,
        Err(_) => LineEnd::End(Status::Output as u8),
    }
}

/// Lays a reply out after the `used` bytes of the buffer that wait to be said, says the buffer whenever it is full, and answers
/// how many bytes wait now.
#[inline(always)]
pub fn add_reply<W: Outside>(
    out: &mut W,
    buffer: &mut [u8],
    used: usize,
    reply: &Reply<'_>,
) -> Result<usize, SayFault>
    requires room { used < length buffer.old }
    requires short { IsShort reply.now }
    ensures said { IsTrue W.tells_output → IfOk result (λ waits. (W.world out.new).beside.said ++ take waits buffer.new ≡ (W.world out.old).beside.said ++ (take used buffer.old ++ text_of (spoken reply.now))) }
    ensures prefix { IsTrue W.tells_output → SaysPrefix (take used buffer.old ++ text_of (spoken reply.now)) (W.world out.old).beside.said (W.world out.new).beside.said }
    ensures room { IfOk result (λ waits. waits < length buffer.new) }
    ensures moves { SayMoves (W.world out.old) (W.world out.new) }
    ensures cause { OnErr result (SayFailed (W.world out.old) (W.world out.new)) }
{
    let mut used = used;
    let mut from = 0;
    loop {
        let n = piece(reply, from, &mut buffer[used..]);
        used += n;
        if used < buffer.len() {
            return Ok(used);
        }
        say_all(out, buffer)?;
        from += n;
        used = 0;
    }
}

/// Says what waits in the buffer and a reply after it, and answers this end, or 6 where it cannot be said whole.
pub fn say_behind<W: Outside>(
    out: &mut W,
    buffer: &mut [u8],
    used: usize,
    reply: &Reply<'_>,
    end: LineEnd,
) -> LineEnd
    requires room { used < length buffer.old }
    requires short { IsShort reply.now }
    ensures says { IsTrue W.tells_output → SaysBehind (take used buffer.old) end (spoken reply.now) result (W.world out.old) (W.world out.new) }
    ensures cause { (result ≡ end) ⊎ ((result ≡ End output_status) × SayFailed (W.world out.old) (W.world out.new)) }
    ensures moves { SayMoves (W.world out.old) (W.world out.new) }
{
    let Ok(waits) = add_reply(out, buffer, used, reply) else {
        return LineEnd::End(Status::Output as u8);
    };
    match say_all(out, &buffer[..waits]) {
        Ok(()) => end,
        Err(_) => LineEnd::End(Status::Output as u8),
    }
}

/// Says the last line of a run that answers no line, and answers its status, or 6 where it cannot be said whole.
pub fn last_line<W: Outside>(out: &mut W, reply: &Reply<'_>, status: u8) -> u8
    requires { status ≢ output_status }
    ensures said { IsTrue W.tells_output → IsShort reply.now → result ≡ status → (W.world out.new).beside.said ≡ (W.world out.old).beside.said ++ text_of (spoken reply.now) }
    ensures prefix { IsTrue W.tells_output → SaysPrefix (text_of (spoken reply.now)) (W.world out.old).beside.said (W.world out.new).beside.said }
    ensures ends { (result ≡ status) ⊎ ((result ≡ output_status) × SayFailed (W.world out.old) (W.world out.new)) }
    ensures moves { SayMoves (W.world out.old) (W.world out.new) }
{
    match say_pieces(out, &mut [0; LAST_LINE_BYTES], reply) {
        Ok(()) => status,
        Err(_) => Status::Output as u8,
    }
}

/// Says a text and answers this status, or 6 where the text cannot be said whole.
pub fn say_last<W: Outside>(out: &mut W, text: &[u8], status: u8) -> u8
    requires { status ≢ output_status }
    ensures said { IsTrue W.tells_output → result ≡ status → (W.world out.new).beside.said ≡ (W.world out.old).beside.said ++ text.now }
    ensures prefix { IsTrue W.tells_output → SaysPrefix text.now (W.world out.old).beside.said (W.world out.new).beside.said }
    ensures ends { (result ≡ status) ⊎ ((result ≡ output_status) × SayFailed (W.world out.old) (W.world out.new)) }
    ensures moves { SayMoves (W.world out.old) (W.world out.new) }
{
    match say_all(out, text) {
        Ok(()) => status,
        Err(_) => Status::Output as u8,
    }
}
