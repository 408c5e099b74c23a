//! What is carried down a trie.

use smallvec::SmallVec;

/// The border of a bound on a level: where what comes before the bound ends and what comes behind it begins.
#[derive(Clone, Copy)]
pub(crate) struct Border {
    /// The first node of this level or a later one of which not all leaves come before the bound.
    pub(crate) node: u64,
    /// How many leaves stand before the bound's borders on the levels above, all levels together.
    pub(crate) sum: u64,
}

/// The leaf whose stub a bound begins with, or is.
#[derive(Clone, Copy)]
pub(crate) struct Reached {
    pub(crate) slot: u64,
    /// How many bytes its stub has.
    pub(crate) stub: usize,
    /// Whether it ends; then the bound is its stub.
    pub(crate) ends: bool,
}

/// How far down a bound was followed.
#[derive(Clone, Copy)]
pub(crate) struct Descent {
    pub(crate) border: Border,
    /// Whether the bound leads to the border's node. Else it has left the trie.
    pub(crate) leads: bool,
    /// The leaf that it reached.
    pub(crate) leaf: Option<Reached>,
}

/// Where a byte leads from a node: nowhere, to the leaf of a slot, or to a node.
#[derive(Clone, Copy)]
pub(crate) enum Turn {
    Nowhere,
    Leaf(u64),
    Node,
}

/// What comes next on the way to a leaf: the leaf of a slot ends here, or is the branch by a byte, or is below that branch.
#[derive(Clone, Copy)]
pub(crate) enum Step {
    Ends(u64),
    Leaf(u8, u64),
    Node(u8, Border),
}

/// The letter behind a stub that ends.
pub(crate) const END_LETTER: u16 = 256;

/// Where a branch stands among those of the sparse half. The next branch of the node, if there is one, is the next place.
#[derive(Clone, Copy)]
pub(crate) struct Spot {
    pub(crate) place: u64,
    /// The place behind the last branch of the node.
    pub(crate) end: u64,
    /// The first node whose branch stands there or later: where the branch leads to a node, that one. One place further it is
    /// the same or the next node, so that a step counts nothing.
    pub(crate) below: u64,
}

/// Where a node's branches begin among those of the sparse half: behind those of the node before it.
#[derive(Clone, Copy, Default)]
pub(crate) struct Mark {
    pub(crate) node: u64,
    pub(crate) place: u64,
    /// The first node whose branch stands there or later.
    pub(crate) below: u64,
}

/// Marks of the nodes that come next on the levels below a way, the one of the highest level last. They take no memory.
pub(crate) type Marks<'b, B> = SmallVec<Mark, 16, &'b B>;

/// A node on the way to a leaf, and the letter by which the way goes on from there.
#[derive(Clone, Copy, Default)]
pub(crate) struct Pass {
    pub(crate) node: u64,
    /// A byte, or the letter behind a stub that ends.
    pub(crate) letter: u16,
    /// Where its branch stands, if that is known, so that the next one is not searched for.
    pub(crate) spot: Option<Spot>,
}

/// The way from the root to a leaf, a pass for each letter. Short ones take no memory.
pub(crate) type Way<'b, B> = SmallVec<Pass, 16, &'b B>;

/// Where a branch leads: to a node, or to the leaf of a slot.
#[derive(Clone, Copy)]
pub(crate) enum Lead {
    Node(u64),
    Leaf(u64),
}

/// A branch of a node: its letter, and where it leads.
#[derive(Clone, Copy)]
pub(crate) struct Branch {
    pub(crate) letter: u16,
    pub(crate) lead: Lead,
}
