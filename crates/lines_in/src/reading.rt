//! An input, cut into lines.
ghost use Rattle.std.specs.Prelude.{◌≡◌, ◌⊎◌, ◌<◌, ◌≤◌, ◌++◌, [], ◌∷◌, List, ℕ, length, IsTrue};
ghost use Rattle.key_base.specs.Limits.{max_input_bytes, piece_bytes};
ghost use Rattle.lines_in.specs.Causes.{LineMoves, NoFall, WritesWithin};
ghost use Rattle.lines_in.specs.Reading.{AfterPart, EndOfReading, HasEndCause, InputRead, ReadSoFar, ReadingCause};
ghost use Rattle.lines_in.specs.Statuses.{done_status};
ghost use Rattle.lines_in.specs.declared.line_end.LineEnd.TheVariants.{Next};
ghost use Rattle.map_model.specs.SortedMap.{Bytes};
ghost use Rattle.store_commands.specs.Cutting.{NoNewline};

use crate::line_end::LineEnd;
use crate::line_reader::LineReader;
use crate::pending::Pending;
use crate::status::Status;
use key_base::MAX_INPUT_BYTES;
use outside::Outside;
use store_commands::next_line;

// Reads the line that ends after this part, with what is kept of its prefix.
fn end_line<R: LineReader<W>, W: Outside, const MOST: usize>(
    reader: &mut R,
    pending: &mut Pending<MOST>,
    out: &mut W,
    part: &[u8],
) -> LineEnd
    requires longest { MOST ≡ R.longest }
    requires reads_on { R.reads_on reader.old }
    requires one_line { NoNewline part.now }
    ensures after { (start : R.Start) (first : _) (bytes : List ℕ) → IsTrue W.tells → IsTrue W.tells_output
        → ReadSoFar MOST (λ lines. R.has_read start lines reader.old first out.old) bytes pending.old
        → AfterPart MOST 1 (λ lines. R.has_read start lines reader.new first out.new) (λ end lines line. R.has_ended end start lines line first out.new) (bytes ++ (part.now ++ 10 ∷ [])) pending.new result }
    ensures goes_on { result ≡ Next → R.reads_on reader.new }
    ensures cause { HasEndCause (λ status. R.end_cause status out.old out.new) result }
    ensures moves { LineMoves (W.world out.old) (W.world out.new) }
    ensures within { WritesWithin (R.reach reader.old) (W.world out.old) (W.world out.new) }
    ensures reach { R.reach reader.new ≡ R.reach reader.old }
{
    if pending.is_empty() {
        return reader.read_line(out, part);
    }
    pending.keep(part);
    let end = reader.read_line(out, pending.as_slice());
    pending.clear();
    end
}

// Reads the lines that end in this piece, and keeps what is left.
fn feed<R: LineReader<W>, W: Outside, const MOST: usize>(
    reader: &mut R,
    pending: &mut Pending<MOST>,
    out: &mut W,
    piece: &[u8],
) -> LineEnd
    requires longest { MOST ≡ R.longest }
    requires reads_on { R.reads_on reader.old }
    ensures after { (start : R.Start) (first : _) (bytes : List ℕ) → IsTrue W.tells → IsTrue W.tells_output
        → ReadSoFar MOST (λ lines. R.has_read start lines reader.old first out.old) bytes pending.old
        → AfterPart MOST (length piece.now) (λ lines. R.has_read start lines reader.new first out.new) (λ end lines line. R.has_ended end start lines line first out.new) (bytes ++ piece.now) pending.new result }
    ensures goes_on { result ≡ Next → R.reads_on reader.new }
    ensures cause { HasEndCause (λ status. R.end_cause status out.old out.new) result }
    ensures moves { LineMoves (W.world out.old) (W.world out.new) }
    ensures within { WritesWithin (R.reach reader.old) (W.world out.old) (W.world out.new) }
    ensures reach { R.reach reader.new ≡ R.reach reader.old }
{
    let mut rest = piece;
    while let Some((line, more)) = next_line(rest) {
        match end_line(reader, pending, out, line) {
            LineEnd::Next => {}
            end => return end,
        }
        rest = more;
    }
    pending.keep(rest);
    LineEnd::Next
}

// Reads a last line that has no newline.
fn end_input<R: LineReader<W>, W: Outside, const MOST: usize>(
    reader: &mut R,
    pending: &Pending<MOST>,
    out: &mut W,
) -> u8
    requires longest { MOST ≡ R.longest }
    requires reads_on { R.reads_on reader.old }
    ensures ended { (start : R.Start) (first : _) (taken : List ℕ) → IsTrue W.tells → IsTrue W.tells_output → (W.world out.old).beside.to_take ≡ [] → length taken < max_input_bytes
        → ReadSoFar MOST (λ lines. R.has_read start lines reader.old first out.old) taken pending.now
        → EndOfReading ((W.world out.new).beside.to_take ≡ []) (λ lines. R.has_read start lines reader.new first out.new) (λ end lines line. R.has_ended end start lines line first out.new) result taken }
    ensures cause { (result ≡ done_status) ⊎ R.end_cause result out.old out.new }
    ensures moves { LineMoves (W.world out.old) (W.world out.new) }
    ensures within { WritesWithin (R.reach reader.old) (W.world out.old) (W.world out.new) }
{
    if pending.is_empty() {
        return Status::Done as u8;
    }
    match reader.read_line(out, pending.as_slice()) {
        LineEnd::Next => Status::Done as u8,
        LineEnd::Quit => Status::Done as u8,
        LineEnd::End(status) => status,
    }
}

// How many bytes are taken next.
fn room_for(left: u64, most: usize) -> usize
    requires some { 0 < left }
    requires room { 0 < most }
    ensures some { 0 < result }
    ensures most { result ≤ most }
    ensures left { result ≤ left }
{
    if left < most as u64 {
        left as usize
    } else {
        most
    }
}

/// Takes the input piece by piece and reads its lines, to its end or to the first line that ends the run, and answers the status.
///
/// Status 3 comes where the input failed, 9 where 2^40 bytes were taken. A last line needs no newline, but where the input failed or
/// was cut off at 2^40 bytes. Of a line that has over `MOST` bytes one more of them is kept, at most.
pub fn read_lines<R: LineReader<W>, W: Outside, const MOST: usize>(
    reader: &mut R,
    pending: &mut Pending<MOST>,
    piece: &mut [u8],
    out: &mut W,
) -> u8
    requires longest { MOST ≡ R.longest }
    requires piece { 0 < length piece.old }
    requires small { length piece.old ≤ piece_bytes }
    requires reads_on { R.reads_on reader.old }
    ensures read { (start : R.Start) (first : _) → IsTrue W.tells → IsTrue W.tells_input → IsTrue W.tells_output
        → (W.world first).beside.to_take ≡ (W.world out.old).beside.to_take
        → ReadSoFar MOST (λ lines. R.has_read start lines reader.old first out.old) [] pending.old
        → InputRead (λ lines. R.has_read start lines reader.new first out.new) (λ end lines line. R.has_ended end start lines line first out.new) result (W.world first).beside (W.world out.new).beside }
    ensures cause { ReadingCause (λ status. R.end_cause status out.old out.new) result (W.world out.old) (W.world out.new) }
    ensures counts { NoFall (W.world out.old) (W.world out.new) }
    ensures within { WritesWithin (R.reach reader.old) (W.world out.old) (W.world out.new) }
{
    let mut left = MAX_INPUT_BYTES;
    while left > 0 {
        reader.take_law();
        let most = room_for(left, piece.len());
        let taken = match out.take(&mut piece[..most]) {
            Ok(taken) => taken,
            Err(_) => return Status::Input as u8,
        };
        if taken == 0 {
            return end_input(reader, pending, out);
        }
        left -= taken as u64;
        match feed(reader, pending, out, &piece[..taken]) {
            LineEnd::Next => {}
            LineEnd::Quit => return Status::Done as u8,
            LineEnd::End(status) => return status,
        }
    }
    Status::Limit as u8
}
