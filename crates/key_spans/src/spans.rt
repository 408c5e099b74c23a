//! The spans of whole keys.
ghost use Rattle.std.specs.Prelude.{◌≡◌, ◌<◌, length, IfOk};
ghost use Rattle.filter_model.specs.Keys.{IsKeyList};
ghost use Rattle.key_spans.specs.WholeSpans.{span_at};
ghost use Rattle.trie_levels.specs.Spans.{spans_of};
ghost use Rattle.whole_keys.specs.Whole.{whole_leaves};

use key_base::{KeyList, shared};
use std::alloc::{AllocError, Global};
use trie_levels::Span;

/// The spans of the leaves of whole keys, which end where another key goes on from them.
///
/// Compares each two neighbours once, and takes one block of memory, of 8 bytes a key.
pub fn whole_spans(alloc: Global, keys: &KeyList) -> Result<Vec<Span>, AllocError>
    requires { IsKeyList keys.now }
    ensures { IfOk result (λ spans. spans.items ≡ spans_of (whole_leaves keys.now)) }
{
    let mut spans = Vec::with_capacity(alloc, keys.len())?;
    for i in 0..keys.len() {
        spans.push(whole_span(keys, i))?;
    }
    Ok(spans)
}

// The span of key `i`. Where another key goes on from it, the next one does.
fn whole_span(keys: &KeyList, i: usize) -> Span
    requires keys { IsKeyList keys.now }
    requires within { i < length keys.now }
    ensures { result ≡ span_at keys.now i }
{
    let key = keys.get(i);
    let leaf = i as u32;
    let len = key.len() as u16;
    if i + 1 < keys.len() {
        let alike = shared(key, keys.get(i + 1));
        let ends = alike == key.len();
        Span {
            leaf,
            closes: alike as u16 + 1,
            len: len + u16::from(ends),
        }
    } else {
        Span {
            leaf,
            closes: 0,
            len,
        }
    }
}
