//! Ways as bytes.
ghost use Rattle.std.specs.Prelude.{◌≡◌, ◌==◌, ◌++◌, [], ◌≤◌, drop, length, IfOk};
ghost use Rattle.filter_iter.specs.CursorPath.{bytes_of_way, letters_of};
ghost use Rattle.filter_model.specs.Nodes.{last_letter};
ghost use Rattle.filter_model.specs.Trie.{END};

use super::parts::{END_LETTER, Pass, Way};
use smallvec::SmallVec;
use std::alloc::{AllocError, Allocator};

/// An empty way with room for this many passes.
pub(crate) fn new_way<'b, B: Allocator>(
    alloc: &'b B,
    height: usize,
) -> Result<Way<'b, B>, AllocError>
    ensures empty { IfOk result (λ way. way.items ≡ []) }
    ensures room { IfOk result (λ way. height ≤ way.capacity) }
{
    SmallVec::with_capacity(alloc, height)
}

/// Writes the bytes among the letters of a way at the start of `out`, and gives how many there are.
pub(crate) fn write_stub(way: &[Pass], out: &mut [u8]) -> usize
    requires { length way.now ≤ length out.old }
    ensures stub { out.new ≡ bytes_of_way way.now ++ drop result out.old }
    ensures count { result ≡ length (bytes_of_way way.now) }
{
    let mut count = 0;
    for pass in way {
        if pass.letter < END_LETTER {
            out[count] = pass.letter as u8;
            count += 1;
        }
    }
    count
}

/// Whether the last letter of a way is the one after a stub that ends.
pub(crate) fn way_ends(way: &[Pass]) -> bool
    ensures { result ≡ (last_letter (letters_of way.now) == END) }
{
    !way.is_empty() && way[way.len() - 1].letter == END_LETTER
}
