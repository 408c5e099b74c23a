//! The definitions, shown by examples. Each computes.
ghost use Rattle.std.specs.Prelude.{◌≡◌, true, false, [], ◌∷◌};
ghost use Rattle.bit_model.specs.Numbers.{bits_of, number_at};
ghost use Rattle.bit_model.specs.Packed.{packed, unpacked};

/// Bits packed into bytes and words.
#[tactic(auto, unfolding(crate::specs::Packed::packed, crate::specs::Packed::unpacked))]
pub fn packings()
    ensures nine_bits_of_two_bytes { unpacked 8 (0xB9 ∷ 0x01 ∷ []) 9
        ≡ true ∷ false ∷ false ∷ true ∷ true ∷ true ∷ false ∷ true ∷ true ∷ [] }
    ensures two_bytes_of_nine_bits { packed 8 (true ∷ false ∷ false ∷ true ∷ true ∷ true ∷ false ∷ true ∷ true ∷ []) ≡ 0xB9 ∷ 0x01 ∷ [] }
    ensures one_word_of_three_bits { packed 64 (false ∷ true ∷ true ∷ []) ≡ 6 ∷ [] }
    ensures no_word_of_no_bit { packed 64 [] ≡ [] }
{}

/// Bits of numbers, and the numbers that bits spell.
#[tactic(auto, unfolding(crate::specs::Numbers::bits_of))]
pub fn numbers()
    ensures four_bits_of_a_number { bits_of 4 0xB9 ≡ true ∷ false ∷ false ∷ true ∷ [] }
    ensures no_bit_of_a_number { bits_of 0 0xB9 ≡ [] }
    ensures three_bits_from_place_two { number_at (true ∷ false ∷ false ∷ true ∷ true ∷ true ∷ []) 2 3 ≡ 6 }
    ensures no_bit_spells_zero { number_at (true ∷ false ∷ []) 1 0 ≡ 0 }
{}
