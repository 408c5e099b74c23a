//! The verbs of the grammar.
ghost use Rattle.std.specs.Prelude.{◌≡◌, ◌∷◌, List, IfSome, IfNone};
ghost use Rattle.map_model.specs.SortedMap.{Bytes};
ghost use Rattle.line_model.specs.Requests.{Bad, asked_by};
ghost use Rattle.store_commands.specs.Verbs.{verb_word};

/// The first word of a line.
#[derive(Clone, Copy, Debug, PartialEq, Eq)]
pub enum Verb {
    Put,
    Del,
    Get,
    Seek,
    Range,
    Count,
    Estimate,
    Explain,
    Flush,
    Compact,
    Quit,
}

/// The verb that a word spells, or `None` where it spells none.
pub fn verb_in(word: &[u8]) -> Option<Verb>
    ensures word { IfSome result (λ verb. word.now ≡ verb_word verb) }
    ensures none { IfNone result ((words : List Bytes) → asked_by (word.now ∷ words) ≡ Bad 2) }
{
    if word == b"put".as_slice() {
        Some(Verb::Put)
    } else if word == b"del".as_slice() {
        Some(Verb::Del)
    } else if word == b"get".as_slice() {
        Some(Verb::Get)
    } else if word == b"seek".as_slice() {
        Some(Verb::Seek)
    } else if word == b"range".as_slice() {
        Some(Verb::Range)
    } else if word == b"count".as_slice() {
        Some(Verb::Count)
    } else if word == b"estimate".as_slice() {
        Some(Verb::Estimate)
    } else if word == b"explain".as_slice() {
        Some(Verb::Explain)
    } else if word == b"flush".as_slice() {
        Some(Verb::Flush)
    } else if word == b"compact".as_slice() {
        Some(Verb::Compact)
    } else if word == b"quit".as_slice() {
        Some(Verb::Quit)
    } else {
        None
    }
}
