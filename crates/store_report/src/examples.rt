//! Worked rows of the definitions.
ghost use Rattle.std.specs.Prelude.{◌≡◌, ◌++◌, ◌∷◌, [], codes};
ghost use Rattle.store_report.specs.Texts.{store_text, table_text};

/// Two tables and a store, by their lines.
pub fn lines_of_a_store()
    ensures table { table_text 0 192 3 2 (record { hash_bits = 0; real_bits = 0; ratio = 64 }) (0x61 ∷ []) (0x62 ∷ 0xff ∷ []) ≡ codes "table 0 192 3 2 0 0 64 61 62ff" ++ 10 ∷ [] }
    ensures deeper { table_text 1 200 40 1000 (record { hash_bits = 8; real_bits = 4; ratio = 0 }) (0x00 ∷ []) (0x01 ∷ []) ≡ codes "table 1 200 40 1000 8 4 0 00 01" ++ 10 ∷ [] }
    ensures store { store_text 512 317 300 2 20 (record { hash_bits = 0; real_bits = 8; ratio = 64 }) ≡ codes "store 512 317 300 2 20 0 8 64" ++ 10 ∷ [] }
{}
