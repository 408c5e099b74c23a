//! What may be relied on of the blocks that are kept.
ghost use Rattle.block_cache.specs.Laws.{GivenAsKept, GetLaws, KeepLaws};
ghost use Rattle.block_cache.specs.Kept.{most_blocks};
ghost use Rattle.std.specs.Prelude.{◌≡◌};

use crate::cache::MOST_BLOCKS;

/// Law: the constant for code is the definitions' number.
pub fn constant_is_most()
    ensures { MOST_BLOCKS ≡ most_blocks }
{}

/// Law: after whatever gets and keeps, a block that is given has the bytes with which it was kept last.
pub fn given_as_kept()
    ensures { GivenAsKept }
{}

/// Law: a get changes no block, and nothing at all where its block is not kept.
pub fn get_laws()
    ensures { GetLaws }
{}

/// Law: a keep gives its block to its own number alone, loses no other while there is room, and leaves at most 64.
pub fn keep_laws()
    ensures { KeepLaws }
{}
