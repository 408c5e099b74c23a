//! The definitions, shown by a small table. Each computes.
ghost use Rattle.std.specs.Prelude.{◌≡◌, [], ◌∷◌, codes, length, map, sum_by};
ghost use Rattle.std.specs.List.{AllByRecursion};
ghost use Rattle.block_model.specs.Examples.{a_and_ab, a_b};
ghost use Rattle.block_model.specs.Index.{index_bytes};
ghost use Rattle.byte_fields.specs.Sums.{fnv_of};
ghost use Rattle.byte_fields.specs.declared.parts.Damage.TheVariants.{Sum};
ghost use Rattle.byte_fields.specs.declared.parts.Part.TheVariants.{Filter};
ghost use Rattle.filter_api.specs.Spellings.{Spelling};
ghost use Rattle.filter_api.specs.declared.errors.FilterFault.{FilterFault};
ghost use Rattle.map_model.specs.SortedMap.{Bytes};
ghost use Rattle.table_model.specs.Damage.{IsFilterDamage};
ghost use Rattle.table_model.specs.Examples.{b_and_bc, of_both_formats};
ghost use Rattle.table_model.specs.Pieces.{IsPiece, blocks_in, index_of_pieces, piece_pages, row_of_piece};
ghost use Rattle.table_model.specs.Written.{row_for};

/// The row of a table of a with the value b and a tombstone of ab, in level 1 from page 204 on, with a filter of one byte, 7;
/// and the damage of its filter where the device has a zero there.
#[tactic(auto, unfolding(crate::specs::Written::row_from, block_model::specs::Pages::pages_for, block_model::specs::Pages::block_length, block_model::specs::Pages::block_pages, block_model::specs::Pages::blocks_of, block_model::specs::Pages::data_pages, block_model::specs::Pages::index_length, block_model::specs::Bodies::entries_bytes, block_model::specs::Bodies::listed_places, block_model::specs::Block::list_bytes, block_model::specs::Block::block_bytes, block_model::specs::Block::header_bytes, block_model::specs::Pages::padding, block_model::specs::Index::index_with, block_model::specs::Index::index_row_of, block_model::specs::Index::index_bytes, block_model::specs::Index::ranges_bytes, block_model::specs::Index::index_head_bytes, block_model::specs::Index::index_row_bytes))]
pub fn a_small_table()
    ensures its_row { row_for 1 204 (record { hash_bits = 4; real_bits = 3; ratio = 16 }) a_and_ab (7 ∷ []) ≡ record { level = 1; first_page = 204; data_pages = 1; index_pages = 1; filter_pages = 1; entries = 2; index_len = 27; filter_len = 1; index_sum = 9253598189023355200; filter_sum = 12638149817160282822; hash_bits = 4; real_bits = 3; ratio = 16 } }
    ensures another_filter { (spelling : Spelling) (first_fault : Bytes → FilterFault) → IsFilterDamage spelling first_fault (row_for 1 204 (record { hash_bits = 4; real_bits = 3; ratio = 16 }) a_and_ab (7 ∷ [])) (λ place. 0) (Sum Filter 843776 12638149817160282822 12638153115695167455) }
{}

/// A table one of whose blocks was written in the first format, a with b, and the other in the present one, b with c and a
/// tombstone of bc. Each is a sound block by the format that it names, and the index says their pages, sums and last keys: so
/// its 42 bytes, and the table's two pages of blocks, are those that a row of the manifest keeps.
#[tactic(auto, unfolding(block_model::specs::Pages::pages_for, block_model::specs::Pages::padding, block_model::specs::Pages::block_length, block_model::specs::Bodies::entries_bytes, block_model::specs::Bodies::listed_places, block_model::specs::Block::list_bytes, block_model::specs::Block::block_bytes, block_model::specs::Block::header_bytes, block_model::specs::OldBlock::old_block_length, block_model::specs::OldBlock::old_header_bytes, block_model::specs::OldBlock::old_block_bytes, block_model::specs::Formats::width_by, block_model::specs::Formats::key_by, block_model::specs::Formats::value_by, block_model::specs::Formats::entries_by, block_model::specs::BlockReading::entries_part_by, block_model::specs::BlockReading::block_in_by, block_model::specs::Index::index_bytes, block_model::specs::Index::ranges_bytes, block_model::specs::Index::index_head_bytes, block_model::specs::Index::index_row_bytes, crate::specs::Pieces::row_of_piece, crate::specs::Pieces::index_of_pieces))]
pub fn a_table_of_both_formats()
    ensures sound { AllByRecursion IsPiece of_both_formats }
    ensures read { blocks_in of_both_formats ≡ (a_b ∷ []) ∷ b_and_bc ∷ [] }
    ensures rows { map row_of_piece of_both_formats ≡ record { pages = 1; sum = 16980816331802480557; last = codes "a" } ∷ record { pages = 1; sum = 8870876448979443905; last = codes "bc" } ∷ [] }
    ensures data_pages { sum_by piece_pages of_both_formats ≡ 2 }
    ensures index_len { length (index_bytes (index_of_pieces of_both_formats [])) ≡ 42 }
    ensures index_sum { fnv_of (index_bytes (index_of_pieces of_both_formats [])) ≡ 6861134697817345944 }
{}
