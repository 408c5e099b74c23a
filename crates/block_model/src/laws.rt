//! Laws of the formats. They are proved and never called.
ghost use Rattle.block_model.specs.FormatLaws.{EitherFillsItsPages, ListedEntriesAreTheLater, ListedEntriesBreakNoRule, ListedKeysRise, OldIsReadAsBefore};
ghost use Rattle.block_model.specs.Laws.{BlockFillsItsPages, BlockHasFewPages, BlocksAreSound, BlocksAreTheEntries, BlocksFillTheirPages, BlocksGrow, IndexHasItsLength, BlockIsReadAgain, BlockWasWrittenSo, IndexIsReadAgain, IndexIsSound, IndexWasWrittenSo};

/// The blocks of a table, one after the other, are its entries; each more entry goes into the last block or after it;
/// and each block is one that the format has room for.
pub fn blocks_are_the_entries()
    ensures joined { BlocksAreTheEntries }
    ensures grow { BlocksGrow }
    ensures sound { BlocksAreSound }
{}

/// Blocks and indexes have the pages and the lengths that are counted; a block has 257 pages at most.
#[tactic(auto, using(crate::proofs::Cutting::block_fills_pages, crate::proofs::Cutting::data_fills, crate::proofs::Cutting::block_has_few_pages, crate::proofs::Lengths::index_long, crate::proofs::EitherFormat::either_fills))]
pub fn lengths_are_counted()
    ensures block { BlockFillsItsPages }
    ensures blocks { BlocksFillTheirPages }
    ensures few { BlockHasFewPages }
    ensures index { IndexHasItsLength }
    ensures either { EitherFillsItsPages }
{}

/// A block of either format is read as it was written, and breaks no rule; and bytes that break none are, in the format that
/// they name, those of what is read from them. In the old format that is what it was before there was another one.
#[tactic(auto, using(crate::proofs::EitherFormat::either_again, crate::proofs::EitherFormat::either_written, crate::proofs::EitherFormat::old_as_before))]
pub fn blocks_have_one_spelling()
    ensures again { BlockIsReadAgain }
    ensures written { BlockWasWrittenSo }
    ensures old { OldIsReadAsBefore }
{}

/// So is an index, and the index of a table is one.
pub fn indexes_have_one_spelling()
    ensures again { IndexIsReadAgain }
    ensures written { IndexWasWrittenSo }
    ensures sound { IndexIsSound }
{}

/// In a block with shared prefixes that breaks no rule, the entries from a listed place on are the block's from there on,
/// whatever key is before; they break no rule with no key before them; and the listed keys rise. So a search may go by
/// halves, and a walk may begin at a listed place.
pub fn listed_entries_are_found_by_halves()
    ensures later { ListedEntriesAreTheLater }
    ensures whole { ListedEntriesBreakNoRule }
    ensures rising { ListedKeysRise }
{}
