//! What holds of both ways together. It is proved and never called.
ghost use Rattle.std.specs.Prelude.{◌≡◌, IfOk, IfErr};
ghost use Rattle.filter_api.specs.Spellings.{MayStand};
ghost use Rattle.filter_image_model.specs.Laws.{whole_list};

use super::reading::{decode, decode_whole};
use super::writing::encode;
use filter_api::DecodeError;
use filter_trie::Trie;
use std::alloc::Global;

/// Encodes a filter's trie and decodes its image: the widths, the cutoff and the leaves are the same, and nothing but want of
/// memory keeps from that.
pub fn read_again(alloc: Global, trie: &Trie<Global>) -> Result<Trie<Global>, DecodeError>
    requires { MayStand trie.now.hash_bits trie.now.real_bits trie.now.cutoff trie.now.leaves }
    ensures same { IfOk result (λ again. again ≡ trie.now) }
    ensures memory { IfErr result (λ error. error ≡ DecodeError.Memory) }
{
    let mut image = Vec::new(alloc);
    encode(trie, &mut image)?;
    decode(alloc, image.as_slice())
}

/// The same of any trie whose leaves have no bits, whether or not a filter may stand for them.
pub fn read_whole_again(alloc: Global, trie: &Trie<Global>) -> Result<Trie<Global>, DecodeError>
    requires { trie.now ≡ whole_list trie.now.cutoff trie.now.leaves }
    ensures same { IfOk result (λ again. again ≡ trie.now) }
    ensures memory { IfErr result (λ error. error ≡ DecodeError.Memory) }
{
    // says that the trie's list is a leaf list
    let _height = trie.height();
    let mut image = Vec::new(alloc);
    encode(trie, &mut image)?;
    decode_whole(alloc, image.as_slice())
}
