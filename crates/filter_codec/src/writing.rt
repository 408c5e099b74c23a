//! The bytes of a trie.
ghost use Rattle.std.specs.Prelude.{◌≡◌, ◌++◌, ◌≤◌, length, take, OnErr, OnOk};
ghost use Rattle.bit_model.specs.Packed.{packed};
ghost use Rattle.filter_codec.specs.Writing.{dense_part, head_of, sparse_part};
ghost use Rattle.filter_model.specs.Image.{image};

use byte_fields::{put_u16, put_u32, put_u64};
use filter_trie::Trie;
use louds_dense::Dense;
use louds_sparse::Sparse;
use std::alloc::{AllocError, Allocator};

/// How many bytes stand before the sections.
pub(crate) const HEADER_BYTES: usize = 40;

/// Appends the image of a trie, in memory of any allocator. Without memory `out` stays as it was.
pub fn encode<A: Allocator, B: Allocator>(
    trie: &Trie<A>,
    out: &mut Vec<u8, B>,
) -> Result<(), AllocError>
    ensures added { OnOk result (out.new.items ≡ out.old.items ++ image trie.now.hash_bits trie.now.real_bits trie.now.cutoff trie.now.leaves) }
    ensures unchanged { OnErr result (out.new.items ≡ out.old.items) }
{
    let len = out.len();
    let pushed = push_image(trie, out);
    if pushed.is_err() {
        out.truncate(len);
    }
    pushed
}

// The same, but without memory a part of the image may stand behind what `out` was.
fn push_image<A: Allocator, B: Allocator>(
    trie: &Trie<A>,
    out: &mut Vec<u8, B>,
) -> Result<(), AllocError>
    ensures added { OnOk result (out.new.items ≡ out.old.items ++ image trie.now.hash_bits trie.now.real_bits trie.now.cutoff trie.now.leaves) }
    ensures unchanged { OnErr result (take (length out.old.items) out.new.items ≡ out.old.items) }
{
    out.extend_from_slice(&header(trie))?;
    push_dense(trie.dense(), out)?;
    push_sparse(trie.sparse(), out)?;
    trie.suffixes().bits().to_bytes(out)
}

// What stands before the sections.
fn header<A: Allocator>(trie: &Trie<A>) -> [u8; 40]
    ensures { result ≡ head_of trie.now }
{
    let (hash_bits, real_bits) = trie.suffixes().widths();
    let mut head = [0; HEADER_BYTES];
    head[0] = b'S';
    head[1] = b'U';
    head[2] = b'R';
    head[3] = b'F';
    head[4] = 1;
    head[5] = hash_bits;
    head[6] = real_bits;
    put_u16(&mut head, 8, trie.cutoff());
    put_u16(&mut head, 10, trie.height());
    put_u32(&mut head, 12, trie.leaves());
    put_u64(&mut head, 16, trie.dense().node_count());
    put_u64(&mut head, 24, trie.sparse().node_count());
    put_u64(&mut head, 32, trie.sparse().place_count());
    head
}

// The sections of the upper levels.
fn push_dense<A: Allocator, B: Allocator>(
    dense: &Dense<A>,
    out: &mut Vec<u8, B>,
) -> Result<(), AllocError>
    ensures added { OnOk result (out.new.items ≡ out.old.items ++ dense_part dense.now) }
    ensures unchanged { OnErr result (take (length out.old.items) out.new.items ≡ out.old.items) }
{
    dense.label_bits().to_bytes(out)?;
    dense.child_bits().to_bytes(out)?;
    dense.end_bits().to_bytes(out)
}

// The sections of the other levels.
fn push_sparse<A: Allocator, B: Allocator>(
    sparse: &Sparse<A>,
    out: &mut Vec<u8, B>,
) -> Result<(), AllocError>
    ensures added { OnOk result (out.new.items ≡ out.old.items ++ sparse_part sparse.now.nodes) }
    ensures unchanged { OnErr result (take (length out.old.items) out.new.items ≡ out.old.items) }
{
    out.extend_from_slice(sparse.labels())?;
    sparse.child_bits().to_bytes(out)?;
    sparse.louds_bits().to_bytes(out)
}
