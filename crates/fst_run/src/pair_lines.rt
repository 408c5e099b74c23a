//! Lines in, pairs of a map to be.
ghost use Rattle.std.specs.Prelude.{◌≡◌, ◌⊎◌, ◌≤◌, ◌++◌, length, IfErr, IsTrue, OnErr, OnOk, Ok};
ghost use Rattle.fst_run.specs.Refusing.{IsRefusal, said_status, said_text};
ghost use Rattle.lines_in.specs.Causes.{SayFailed};
ghost use Rattle.lines_in.specs.Statuses.{output_status};
ghost use Rattle.map_file_model.specs.Maps.{max_map_pairs};
ghost use Rattle.map_run_model.specs.PairLines.{pair_in, with_pair};
ghost use Rattle.outside.specs.Streams.{SayMoves, SaysPrefix};

use crate::last_lines::{TOO_MANY, bad_line};
use crate::pair_line::pair_in;
use fst_map::{AddError, FstBuilder};
use lines_in::{LineEnd, LineReader, Status, last_line, say_last};
use outside::Outside;
use store_commands::Reply;

/// The status of a run whose lines are no map.
pub(crate) const NO_MAP: u8 = 11;

/// Why a line ends the reading.
#[derive(Clone, Copy, Debug, PartialEq, Eq)]
pub(crate) enum LineRefusal {
    /// There was no memory for its pair.
    Memory,
    /// The line of this number, from 1, breaks the rule of this code first.
    Bad { number: u64, code: u8 },
    /// A map has as many pairs as there are already.
    TooMany,
}

/// The pairs that lines have had so far, with the room that a line needs beside them.
#[derive(Drop)]
pub(crate) struct PairLines {
    pub(crate) builder: FstBuilder,
    pub(crate) room: Vec<u8>,
}

// Adds the pair of a line behind all others. Where it is refused the pairs stay as they were.
fn add_line(builder: &mut FstBuilder, room: &mut [u8], line: &[u8]) -> Result<(), LineRefusal>
    requires room { 1050000 ≤ length room.old }
    requires few { length builder.old ≤ max_map_pairs }
    ensures added { OnOk result (with_pair builder.old (pair_in line.now) ≡ Ok builder.new) }
    ensures unchanged { OnErr result (builder.new ≡ builder.old) }
    ensures refused { IfErr result (λ why. IsRefusal why (with_pair builder.old (pair_in line.now))) }
{
    let number = builder.len() as u64 + 1;
    let (key, value) = match pair_in(line, room) {
        Ok(pair) => pair,
        Err(code) => return Err(LineRefusal::Bad { number, code }),
    };
    match builder.add(key, value) {
        Ok(()) => Ok(()),
        Err(AddError::Memory) => Err(LineRefusal::Memory),
        Err(AddError::Key(_)) => Err(LineRefusal::Bad { number, code: 7 }),
        Err(AddError::Value(_)) => Err(LineRefusal::Bad { number, code: 8 }),
        Err(AddError::Order) => Err(LineRefusal::Bad { number, code: 6 }),
        Err(AddError::Many) => Err(LineRefusal::TooMany),
    }
}

// Says why a line ends the run, and answers the status, or 6 where that cannot be said whole.
fn say_refusal<W: Outside>(out: &mut W, why: LineRefusal) -> u8
    ensures said { IsTrue W.tells_output → result ≡ said_status why → (W.world out.new).beside.said ≡ (W.world out.old).beside.said ++ said_text why }
    ensures prefix { IsTrue W.tells_output → SaysPrefix (said_text why) (W.world out.old).beside.said (W.world out.new).beside.said }
    ensures ends { (result ≡ said_status why) ⊎ ((result ≡ output_status) × SayFailed (W.world out.old) (W.world out.new)) }
    ensures moves { SayMoves (W.world out.old) (W.world out.new) }
{
    match why {
        LineRefusal::Memory => last_line(out, &Reply::Memory, Status::Memory as u8),
        LineRefusal::Bad { number, code } => {
            let line = bad_line(number, code);
            say_last(out, line.as_slice(), NO_MAP)
        }
        LineRefusal::TooMany => say_last(out, TOO_MANY, NO_MAP),
    }
}

impl<W: Outside> LineReader<W> for PairLines {
    ghost use Rattle.std.specs.Prelude.{◌≤◌, ℕ, length, vec_len};
    ghost use Rattle.fst_run.specs.CauseLaws.{cause_kept, cause_other};
    ghost use Rattle.fst_run.specs.Refusing.{HasPairs, HasRefused, RefusalCause};
    ghost use Rattle.map_file_model.specs.Maps.{max_map_pairs};
    ghost use Rattle.map_run_model.specs.PairLines.{max_pair_line_bytes};

    ghost Start = { Unit {0} };

    ghost longest = { max_pair_line_bytes };

    ghost reads_on = { λ r. (1050000 ≤ vec_len r.room) × (length r.builder ≤ max_map_pairs) };

    ghost has_read = { λ start lines r first now. HasPairs lines r.builder (W.world first) (W.world now) };

    ghost has_ended = { λ end start lines line first now. HasRefused end lines line (W.world first) (W.world now) };

    ghost reach = { λ r. 0 };

    ghost end_cause = { λ status old new. RefusalCause status (W.world old) (W.world new) };

    fn read_line(&mut self, out: &mut W, line: &[u8]) -> LineEnd {
        match add_line(&mut self.builder, &mut self.room, line) {
            Ok(()) => LineEnd::Next,
            Err(why) => LineEnd::End(say_refusal(out, why)),
        }
    }

    fn take_law(&self) {}

    ghost kept_cause = { λ status first old new fall cause. cause_kept status (W.world first) (W.world old) (W.world new) fall cause };

    ghost other_cause = { λ status old new cause. cause_other status (W.world old) (W.world new) cause };
}
