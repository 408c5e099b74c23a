//! The cutoff.
ghost use Rattle.std.specs.Prelude.{◌≡◌, ◌*◌, ◌<◌, ◌≤◌, ◌^◌, ◌↔◌, length, sum, IsTrue};
ghost use Rattle.filter_model.specs.Trie.{cutoff_of};

use crate::levels::Levels;

/// How many levels are dense: the largest number, at most the height, for which 513 bits for each node of these levels,
/// times the ratio, are at most 10 bits for each label of the others. One pass over the levels.
pub fn cutoff(levels: &Levels, ratio: u16) -> u16
    ensures { result ≡ cutoff_of ratio levels.now.nodes levels.now.labels }
{
    let height = levels.height();
    let mut below = all_nodes(levels);
    let mut from = 0;
    for passed in 0..height {
        if is_dense_enough(below, from, ratio) {
            return height - passed;
        }
        let level = height - passed - 1;
        below -= u128::from(levels.nodes(level));
        from += u128::from(levels.labels(level));
    }
    0
}

// All nodes.
fn all_nodes(levels: &Levels) -> u128
    ensures value { result ≡ sum levels.now.nodes }
    ensures small { result < 2 ^ 80 }
{
    let mut all = 0;
    for level in 0..levels.height() {
        all += u128::from(levels.nodes(level));
    }
    all
}

// Whether the bits of the dense nodes, times the ratio, are at most those of the sparse labels.
fn is_dense_enough(nodes: u128, labels: u128, ratio: u16) -> bool
    requires nodes { nodes < 2 ^ 80 }
    requires labels { labels < 2 ^ 80 }
    ensures { IsTrue result ↔ (513 * nodes * ratio ≤ 10 * labels) }
{
    513 * nodes * u128::from(ratio) <= 10 * labels
}
