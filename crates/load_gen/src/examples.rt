//! Examples of the definitions, each of which computes.
ghost use Rattle.std.specs.Prelude.{◌≡◌, [], ◌∷◌, ◌++◌, map, codes};
ghost use Rattle.entry_model.specs.Entries.{put_entry, del_entry, map_of};
ghost use Rattle.load_gen.specs.Generator.{step_of, number_after, first_steps};
ghost use Rattle.load_gen.specs.Summary.{value_number, summary_of, summary_text};

/// First steps of seeds, and one that deletes.
#[tactic(auto)]
pub fn first_steps()
    ensures the_first_number_of_seed_1 { number_after 1 1 ≡ 0x6c576fac43fd007c }
    ensures seed_1_puts_6c576f { first_steps 1 1 ≡ put_entry (0x6c ∷ 0x57 ∷ 0x6f ∷ []) (0x7c ∷ 0x00 ∷ 0xfd ∷ 0x43 ∷ 0xac ∷ 0x6f ∷ 0x57 ∷ 0x6c ∷ []) ∷ [] }
    ensures seed_0_puts_14057b { first_steps 0 1 ≡ put_entry (0x14 ∷ 0x05 ∷ 0x7b ∷ []) (0x4f ∷ 0x81 ∷ 0x67 ∷ 0xf7 ∷ 0x7e ∷ 0x7b ∷ 0x05 ∷ 0x14 ∷ []) ∷ [] }
    ensures the_seventh_step_of_seed_7_deletes { step_of (number_after 7 7) ≡ del_entry (0x67 ∷ 0x23 ∷ 0x7f ∷ []) }
{}

/// Sums of values.
#[tactic(auto)]
pub fn sums()
    ensures the_lowest_byte_is_first { value_number (0x7c ∷ 0x00 ∷ 0xfd ∷ 0x43 ∷ 0xac ∷ 0x6f ∷ 0x57 ∷ 0x6c ∷ []) ≡ 0x6c576fac43fd007c }
    ensures short_and_long_values { map (λ value. value_number value) ([] ∷ (1 ∷ []) ∷ (1 ∷ 2 ∷ []) ∷ (1 ∷ 0 ∷ 0 ∷ 0 ∷ 0 ∷ 0 ∷ 0 ∷ 0 ∷ 9 ∷ []) ∷ []) ≡ 0 ∷ 1 ∷ 513 ∷ 1 ∷ [] }
    ensures sums_pass_over { (summary_of ((1 ∷ [], 2 ∷ []) ∷ (2 ∷ [], 0xff ∷ 0xff ∷ 0xff ∷ 0xff ∷ 0xff ∷ 0xff ∷ 0xff ∷ 0xff ∷ []) ∷ [])).sum ≡ 1 }
{}

/// The lines of two loads of one step, into an empty map.
#[tactic(auto)]
pub fn lines_that_are_said()
    ensures seed_1 { summary_text 1 0 (summary_of (map_of (first_steps 1 1))) ≡ codes "load steps 1 refused 0 live 1 sum 6c576fac43fd007c" ++ 10 ∷ [] }
    ensures seed_0 { summary_text 1 0 (summary_of (map_of (first_steps 0 1))) ≡ codes "load steps 1 refused 0 live 1 sum 14057b7ef767814f" ++ 10 ∷ [] }
{}
