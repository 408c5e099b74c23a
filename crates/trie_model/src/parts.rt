//! What the builders of a trie's halves are given.
ghost use Rattle.std.specs.Prelude.{IsTrue, ◌↔◌};
ghost use Rattle.trie_model.specs.Given.{AreRising};

/// A branch of a node by a byte, and whether it leads to a node. Where it does not, it is a leaf.
#[derive(Clone, Copy, Debug, PartialEq, Eq)]
pub struct Branch {
    pub byte: u8,
    pub child: bool,
}

/// What stands before a half of a trie.
#[derive(Clone, Copy, Debug, PartialEq, Eq)]
pub struct Before {
    /// How many nodes.
    pub nodes: u64,
    /// How many branches that lead to a node.
    pub children: u64,
    /// How many branches that are leaves.
    pub slots: u64,
}

/// Whether a node can have these branches: some, whose bytes rise.
pub fn are_rising(branches: &[Branch]) -> bool
    ensures { IsTrue result ↔ AreRising branches.now }
{
    if branches.is_empty() {
        return false;
    }
    for i in 1..branches.len() {
        if branches[i - 1].byte >= branches[i].byte {
            return false;
        }
    }
    true
}
