//! The numbers that words name, shown by examples. Each computes.
ghost use Rattle.std.specs.Prelude.{◌≡◌, [], ◌∷◌, map, true, false, None, Some, codes};
ghost use Rattle.filter_api.specs.declared.settings.Field.TheVariants.{Pages, HashBits};
ghost use Rattle.program_words.specs.Loads.{is_load_count};
ghost use Rattle.program_words.specs.NewStores.{first_bad_word};
ghost use Rattle.program_words.specs.WantedSettings.{first_bad_setting, named_hash_bits, named_real_bits, named_settings, variant_named};
ghost use Rattle.program_words.specs.declared.wanted_settings.Variant.TheVariants.{Base, Hash, Real, Mixed};

/// Which bits each variant has of those that are named, which loads have not too many steps, and what is out of range first.
#[tactic(auto)]
pub fn named_numbers()
    ensures hash_bits { map (λ variant. named_hash_bits variant 5) (Base ∷ Hash ∷ Real ∷ Mixed ∷ []) ≡ 0 ∷ 5 ∷ 0 ∷ 5 ∷ [] }
    ensures real_bits { map (λ variant. named_real_bits variant 5) (Base ∷ Hash ∷ Real ∷ Mixed ∷ []) ≡ 0 ∷ 0 ∷ 5 ∷ 5 ∷ [] }
    ensures steps_of_loads { map is_load_count (0 ∷ 1 ∷ 1000000 ∷ 1000001 ∷ []) ≡ false ∷ true ∷ true ∷ false ∷ [] }
    ensures no_other_word { map (λ word. variant_named word) (codes "hash" ∷ codes "Hash" ∷ []) ≡ Some Hash ∷ None ∷ [] }
    ensures pages_come_first { first_bad_word (record { pages = 511; settings = record { variant = None; hash_bits = 33; real_bits = 33; ratio = 0 } }) ≡ Some Pages }
    ensures most_hash_bits { first_bad_setting (record { variant = Some Hash; hash_bits = 33; real_bits = 33; ratio = 0 }) ≡ Some HashBits }
    ensures unused_bits { first_bad_word (record { pages = 512; settings = record { variant = Some Base; hash_bits = 33; real_bits = 33; ratio = 65535 } }) ≡ None }
{}
