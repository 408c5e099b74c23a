//! One node while it is gathered.
ghost use Rattle.std.specs.Prelude.{◌≡◌, ◌+◌, ◌<◌, ◌≤◌, [], ◌∷◌, ◌++◌, length, sum_by, IfOk, OnOk};
ghost use Rattle.trie_build.specs.Building.{half_with};
ghost use Rattle.trie_build.specs.Gathered.{StandsAlone, node_with};
ghost use Rattle.trie_laws.specs.Nodes.{IsTrieNode};

use super::growing::GrowingHalf;
use std::alloc::{AllocError, Global};
use std::marker::Model;
use trie_levels::Span;
use trie_model::Branch;

// As many as there are bytes.
const MAX_BRANCHES: usize = 256;

/// The branches of a node that were met so far.
#[derive(Drop)]
pub(crate) struct OpenNode {
    end: bool,
    branches: Vec<Branch>,
}

impl Model for OpenNode {
    ghost use Rattle.std.specs.Prelude.{◌<◌};
    ghost use Rattle.std.specs.List.{All};
    ghost use Rattle.filter_model.specs.Nodes.{Node};
    ghost use Rattle.trie_model.specs.Given.{node_given};

    ghost Value = { Node };

    ghost view = { λ o. node_given o.end o.branches.items };

    ghost invariant = { λ o. All (λ b. b.byte < 256) o.branches.items };
}

impl OpenNode {
    /// No branch, and room for one by each byte, in one block of memory.
    pub(crate) fn new(alloc: Global) -> Result<OpenNode, AllocError>
        ensures { IfOk result (λ node. node ≡ []) }
    {
        Ok(OpenNode {
            end: false,
            branches: Vec::with_capacity(alloc, MAX_BRANCHES)?,
        })
    }

    /// Begins a node: lets go what was gathered. Takes no memory.
    pub(crate) fn clear(&mut self)
        ensures { self.new ≡ [] }
    {
        self.end = false;
        self.branches.clear();
    }

    /// Adds the branch by which a key's path goes on from its first `level` letters, where no later path goes by it.
    pub(crate) fn add_span(&mut self, key: &[u8], span: Span, level: u16) -> Result<(), AllocError>
        requires short { level < 65535 }
        requires alone { StandsAlone key.now level span self.old }
        ensures { OnOk result (self.new ≡ node_with key.now level span self.old) }
    {
        if span.closes > level + 1 {
            return Ok(());
        }
        match key.get(level as usize) {
            Some(byte) => self.branches.push(Branch {
                byte: *byte,
                child: span.len > level + 1,
            })?,
            None => self.end = true,
        }
        Ok(())
    }

    /// Gives the node, which is one of a trie, to a half that has room for it, and begins another. Takes no memory.
    pub(crate) fn give<H: GrowingHalf>(&mut self, half: &mut H)
        requires form { IsTrieNode self.old }
        requires room { sum_by H.size ((H.half half.old).nodes ++ self.old ∷ []) ≤ H.limit half.old }
        ensures half { H.half half.new ≡ half_with self.old (H.half half.old) }
        ensures limit { H.limit half.new ≡ H.limit half.old }
        ensures node { self.new ≡ [] }
    {
        half.add(self.end, self.branches.as_slice());
        self.clear();
    }
}
