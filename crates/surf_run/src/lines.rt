//! Lines in, replies out.

use crate::one_line::answer;
use filter_api::RangeFilter;
use lines_in::{LineEnd, LineReader};
use outside::Outside;
use store_commands::Scratch;
use store_core::Store;

/// An opened store that answers lines, with the memory that a line needs beside it.
#[derive(Drop)]
pub(crate) struct StoreLines<F: RangeFilter> {
    pub(crate) store: Store<F>,
    pub(crate) scratch: Scratch,
    pub(crate) reply: Vec<u8>,
}

impl<F: RangeFilter, W: Outside> LineReader<W> for StoreLines<F> {
    ghost use Rattle.std.specs.Prelude.{◌≡◌, ◌<◌, ◌*◌, ℕ, false, vec_len, IsTrue};
    ghost use Rattle.block_model.specs.Pages.{page_bytes};
    ghost use Rattle.key_base.specs.Limits.{max_line_bytes};
    ghost use Rattle.lines_in.specs.Causes.{EndCause};
    ghost use Rattle.lines_in.specs.declared.line_end.LineEnd.TheVariants.{End};
    ghost use Rattle.lines_in.proofs.EndCauses.{cause_since, other_end};
    ghost use Rattle.state_model.specs.State.{State};
    ghost use Rattle.surf_run.specs.Causes.{RunShows};
    ghost use Rattle.surf_run.specs.Kind.{filter_kind};
    ghost use Rattle.surf_run.specs.Serving.{EndedAt, ServeInvariant};

    ghost Start = { State × ℕ };

    ghost longest = { max_line_bytes };

    ghost reads_on = { λ r. (r.store.stopped ≡ false) × (0 < vec_len r.reply) };

    ghost has_read = { λ start lines r first now. ServeInvariant (filter_kind F.spelling F.built_cutoff) start.0 start.1 lines r.store (W.world first) (W.world now) };

    ghost has_ended = { λ end start lines line first now. EndedAt (filter_kind F.spelling F.built_cutoff) end start.0 start.1 lines line (W.world first) (W.world now) };

    ghost reach = { λ r. page_bytes * r.store.manifest.version.pages };

    ghost end_cause = { λ status old new. EndCause (RunShows (IsTrue W.tells × IsTrue W.tells_output)) (End status) (W.world old) (W.world new) };

    fn read_line(&mut self, out: &mut W, line: &[u8]) -> LineEnd {
        answer(
            &mut self.store,
            &mut self.scratch,
            &mut self.reply,
            out,
            line,
        )
    }

    fn take_law(&self) {}

    ghost kept_cause = { λ status first old new fall cause.
        cause_since (RunShows (IsTrue W.tells × IsTrue W.tells_output)) (End status) (W.world first) (W.world old) (W.world new) fall cause };

    ghost other_cause = { λ status old new cause. other_end (RunShows (IsTrue W.tells × IsTrue W.tells_output)) status (W.world old) (W.world new) cause };
}
