//! The definitions, shown by examples. Each computes.
ghost use Rattle.std.specs.Prelude.{◌≡◌, [], ◌∷◌};
ghost use Rattle.bit_model.specs.Packed.{packed};
ghost use Rattle.suffix_bits.specs.Slots.{packed_suffixes, unpacked_suffixes};

/// Suffixes packed, and read back: a hash stands below the real bits.
#[tactic(auto, unfolding(bit_model::specs::Packed::packed, bit_model::specs::Numbers::bits_of, filter_model::specs::Suffixes::packed_suffixes, crate::specs::Slots::unpacked_suffixes))]
pub fn suffixes()
    ensures hash_below_real { packed 8 (packed_suffixes 8 8 ((0x8C, 0x74) ∷ [])) ≡ 0x8C ∷ 0x74 ∷ [] }
    ensures two_of_five_bits { packed 8 (packed_suffixes 3 2 ((5, 2) ∷ (1, 3) ∷ [])) ≡ 0x35 ∷ 0x03 ∷ [] }
    ensures they_read_back { unpacked_suffixes 3 2 (packed_suffixes 3 2 ((5, 2) ∷ (1, 3) ∷ [])) 2 ≡ (5, 2) ∷ (1, 3) ∷ [] }
    ensures two_of_no_bit { unpacked_suffixes 0 0 [] 2 ≡ (0, 0) ∷ (0, 0) ∷ [] }
{}
