//! Lines in, replies of a map out.

use crate::answers::answer;
use fst_map::FstMap;
use lines_in::{LineEnd, LineReader};
use outside::Outside;
use std::alloc::Global;
use store_commands::Scratch;

/// A map that answers lines, with the memory that a line needs beside it.
#[derive(Drop)]
pub(crate) struct MapLines<'a> {
    pub(crate) map: FstMap<'a, Global>,
    pub(crate) alloc: Global,
    pub(crate) scratch: Scratch,
    pub(crate) reply: Vec<u8>,
}

impl<'a, W: Outside> LineReader<W> for MapLines<'a> {
    ghost use Rattle.std.specs.Prelude.{◌≡◌, ◌<◌, ℕ, vec_len};
    ghost use Rattle.fst_run.specs.CauseLaws.{answer_cause_kept, answer_cause_other};
    ghost use Rattle.fst_run.specs.Answering.{MayAnswer};
    ghost use Rattle.key_base.specs.Limits.{max_line_bytes};
    ghost use Rattle.lines_in.specs.Causes.{SayFailed};
    ghost use Rattle.lines_in.specs.Statuses.{output_status};
    ghost use Rattle.map_model.specs.SortedMap.{Map};
    ghost use Rattle.map_run_model.specs.Serving.{HasAnswered, HasEnded, IsOnlyRead};

    ghost Start = { Map };

    ghost longest = { max_line_bytes };

    ghost reads_on = { λ r. (0 < vec_len r.reply) × MayAnswer r.map };

    ghost has_read = { λ start lines r first now. (r.map ≡ start) × HasAnswered start lines (W.world first) (W.world now) × IsOnlyRead (W.world first) (W.world now) };

    ghost has_ended = { λ end start lines line first now. HasEnded start end lines line (W.world first) (W.world now) × IsOnlyRead (W.world first) (W.world now) };

    ghost reach = { λ r. 0 };

    ghost end_cause = { λ status old new. (status ≡ output_status) × SayFailed (W.world old) (W.world new) };

    fn read_line(&mut self, out: &mut W, line: &[u8]) -> LineEnd {
        answer(
            &self.map,
            &self.alloc,
            &mut self.scratch,
            &mut self.reply,
            out,
            line,
        )
    }

    fn take_law(&self) {}

    ghost kept_cause = { λ status first old new fall cause. answer_cause_kept status (W.world first) (W.world old) (W.world new) fall cause };

    ghost other_cause = { λ status old new cause. answer_cause_other status (W.world old) (W.world new) cause };
}
