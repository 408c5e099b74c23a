//! The definitions, shown by examples. Each computes.
ghost use Rattle.std.specs.Prelude.{◌≡◌, List, ℕ, [], ◌∷◌, ◌++◌, map, replicate, Some, None, codes};
ghost use Rattle.byte_fields.specs.declared.parts.Part.TheVariants.{Block};
ghost use Rattle.byte_fields.specs.declared.parts.Damage.TheVariants.{Sum};
ghost use Rattle.line_model.specs.Limits.{key_limit, bound_limit, limit_of};
ghost use Rattle.line_model.specs.Replies.{Damaged, Pairs, End, Explained, Full, LongKey, ManyTables, at_words, sum_word, text_of};
ghost use Rattle.line_model.specs.Requests.{Put, Seek, Range, Count, Compact, Bad, request_of};

/// Limits.
#[tactic(auto)]
pub fn limits()
    ensures keys_have_1_to_1024_bytes { map (λ n. key_limit (replicate n 1)) (0 ∷ 1 ∷ 1024 ∷ 1025 ∷ []) ≡ Some (LongKey 0) ∷ None ∷ None ∷ Some (LongKey 1025) ∷ [] }
    ensures bounds_may_be_empty { map (λ n. bound_limit (replicate n 1)) (0 ∷ 1024 ∷ 1025 ∷ []) ≡ None ∷ None ∷ Some (LongKey 1025) ∷ [] }
    ensures the_key_is_judged_first { (value : List ℕ) → limit_of (Put [] value) ≡ Some (LongKey 0) }
    ensures the_lower_bound_is_judged_first { limit_of (Range (replicate 1025 1) (replicate 1026 1) 1) ≡ Some (LongKey 1025) }
{}

/// Lines, and words of replies.
#[tactic(auto, unfolding(hex::specs::Hex::encode_with, hex::specs::Hex::decode_pairs))]
pub fn lines_and_words()
    ensures their_codes { map (λ line. request_of line) (codes "" ∷ codes "put 6" ∷ codes "put 6 62" ∷ codes "get  61" ∷ codes "range - 6 x" ∷ codes "flush now" ∷ [])
        ≡ Bad 2 ∷ Bad 3 ∷ Bad 4 ∷ Bad 3 ∷ Bad 4 ∷ Bad 3 ∷ [] }
    ensures their_requests { map (λ line. request_of line) (codes "seek 61" ∷ codes "seek - 62" ∷ codes "count - 61" ∷ codes "compact" ∷ [])
        ≡ Seek (0x61 ∷ []) None ∷ Seek [] (Some (0x62 ∷ [])) ∷ Count [] (0x61 ∷ []) ∷ Compact ∷ [] }
    ensures a_pair { at_words (0x61 ∷ []) [] ≡ codes "at 61 -" }
    ensures numbers_in_one_spelling { map (λ line. request_of line) (codes "range - 61 0" ∷ codes "range - 61 1000000" ∷ codes "range - 61 1000001" ∷ codes "range - 61 01" ∷ codes "range - 61 " ∷ [])
        ≡ Range [] (0x61 ∷ []) 0 ∷ Range [] (0x61 ∷ []) 1000000 ∷ Bad 5 ∷ Bad 5 ∷ Bad 5 ∷ [] }
    ensures texts { map (λ reply. text_of reply) (Pairs ((0x61 ∷ [], 0xff ∷ []) ∷ []) (End 1) ∷ Full 30 2 ∷ Explained 3 2 1 ∷ ManyTables ∷ [])
        ≡ (codes "at 61 ff" ++ 10 ∷ codes "end 1" ++ 10 ∷ []) ∷ (codes "full need 30 gap 2" ++ 10 ∷ []) ∷ (codes "tables 3 admitted 2 blocks 1" ++ 10 ∷ []) ∷ (codes "limit tables" ++ 10 ∷ []) ∷ [] }
    ensures a_damaged_sum { text_of (Damaged (Sum Block 5 255 1)) ≡ codes "damaged block 5 sum 00000000000000ff 0000000000000001" ++ 10 ∷ [] }
    ensures a_sum { sum_word 255 ≡ codes "00000000000000ff" }
{}
