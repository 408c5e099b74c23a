//! What reads lines.
ghost use Rattle.std.specs.Prelude.{◌≡◌, ◌++◌, [], ◌∷◌, ℕ, List, IsTrue};
ghost use Rattle.lines_in.specs.Causes.{LineMoves, NoFall, WritesWithin};
ghost use Rattle.lines_in.specs.Holding.{PendingLine};
ghost use Rattle.lines_in.specs.Reading.{AfterLine, HasEndCause};
ghost use Rattle.lines_in.specs.Statuses.{input_status, limit_status};
ghost use Rattle.lines_in.specs.declared.line_end.LineEnd.{LineEnd};
ghost use Rattle.lines_in.specs.declared.line_end.LineEnd.TheVariants.{Next};
ghost use Rattle.map_model.specs.SortedMap.{Bytes};
ghost use Rattle.outside.specs.Streams.{TakeMoves};

use crate::line_end::LineEnd;
use outside::Outside;

/// What reads lines, one after the other, over a device and an output.
pub trait LineReader<W: Outside>: Sized + Drop {
    /// With what the reading began.
    ghost Start: { Type 0 };

    /// The most bytes of a line. Of a longer one some first bytes are handed in, which are too many too.
    ghost longest: { ℕ };

    /// Whether it may read a line.
    ghost reads_on: { Self → Type 0 };

    /// Since the first outside it has read these lines.
    ghost has_read: { Start → List Bytes → Self → W → W → Type 0 };

    /// Since the first outside it has read these lines and then this one, at which the run ends so.
    ghost has_ended: { LineEnd → Start → List Bytes → Bytes → W → W → Type 0 };

    /// How many first bytes of the device it may write to.
    ghost reach: { Self → ℕ };

    /// Why a line ends the run with this status.
    ghost end_cause: { ℕ → W → W → Type 0 };

    /// Reads a line, without its newline: what it says for it is said whole before it returns, or the run ends.
    fn read_line(&mut self, out: &mut W, line: &[u8]) -> LineEnd
        requires { reads_on self.old }
        ensures read { (start : Start) (first : W) (lines : List Bytes) (whole : Bytes) → IsTrue W.tells → IsTrue W.tells_output → PendingLine longest whole line.now → has_read start lines self.old first out.old
            → AfterLine result (has_read start (lines ++ whole ∷ []) self.new first out.new) (λ end. has_ended end start lines whole first out.new) }
        ensures goes_on { result ≡ Next → reads_on self.new }
        ensures cause { HasEndCause (λ status. end_cause status out.old out.new) result }
        ensures moves { LineMoves (W.world out.old) (W.world out.new) }
        ensures within { WritesWithin (reach self.old) (W.world out.old) (W.world out.new) }
        ensures reach { reach self.new ≡ reach self.old };

    /// Law: taking bytes of the input changes nothing of what was read. It does nothing.
    fn take_law(&self)
        ensures { (start : Start) (lines : List Bytes) (first old new : W) → TakeMoves (W.world old) (W.world new) → has_read start lines self.now first old → has_read start lines self.now first new };

    /// A cause of a part of a run is one of the whole.
    ghost kept_cause: { (status : ℕ) (first old new : W) → NoFall (W.world first) (W.world old) → end_cause status old new → end_cause status first new };

    /// No line ends a run as the input does.
    ghost other_cause: { (status : ℕ) (old new : W) → end_cause status old new → (status ≡ input_status → ⊥) × (status ≡ limit_status → ⊥) };
}
