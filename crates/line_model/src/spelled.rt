//! What has no other example: where lines end, limits of a second bound, and the texts of replies.
ghost use Rattle.std.specs.Prelude.{◌≡◌, [], ◌∷◌, ◌++◌, map, replicate, Some, None, codes};
ghost use Rattle.byte_fields.specs.declared.parts.Part.TheVariants.{Manifest, Log, Index, Filter, Block};
ghost use Rattle.byte_fields.specs.declared.parts.Damage.TheVariants.{Shape};
ghost use Rattle.line_model.specs.Limits.{limit_of};
ghost use Rattle.line_model.specs.Lines.{lines_of, whole_lines};
ghost use Rattle.line_model.specs.Replies.{About, Bye, Counted, Damaged, Device, Done, LastEpoch, LongKey, LongValue, Memory, Missing, Value, part_word, text_of};
ghost use Rattle.line_model.specs.Requests.{Explain, Seek};

/// Of no bytes, of a, of a and its newline, and of two newlines: a rest without a newline is a line at the end alone, and behind
/// the last newline there is none.
#[tactic(auto)]
pub fn ends_of_lines()
    ensures read_to_the_end { map (λ bytes. lines_of bytes) ([] ∷ codes "a" ∷ (codes "a" ++ 10 ∷ []) ∷ (10 ∷ 10 ∷ []) ∷ [])
        ≡ [] ∷ (codes "a" ∷ []) ∷ (codes "a" ∷ []) ∷ ([] ∷ [] ∷ []) ∷ [] }
    ensures that_goes_on { map (λ bytes. whole_lines bytes) ([] ∷ codes "a" ∷ (codes "a" ++ 10 ∷ []) ∷ (10 ∷ 10 ∷ []) ∷ [])
        ≡ [] ∷ [] ∷ (codes "a" ∷ []) ∷ ([] ∷ [] ∷ []) ∷ [] }
{}

/// A key of an explain, and the upper bound of a seek, with a byte too many.
#[tactic(auto)]
pub fn limits_of_reads()
    ensures of_an_explain { limit_of (Explain (replicate 1025 1)) ≡ Some (LongKey 1025) }
    ensures of_an_upper_bound { limit_of (Seek [] (Some (replicate 1025 1))) ≡ Some (LongKey 1025) }
    ensures of_no_key { map (λ request. limit_of request) (Explain [] ∷ Seek [] None ∷ []) ≡ Some (LongKey 0) ∷ None ∷ [] }
{}

/// The texts of replies and the words of parts.
#[tactic(auto)]
pub fn texts_of_replies()
    ensures without_numbers { map (λ reply. text_of reply) (Done ∷ Missing ∷ Bye ∷ LastEpoch ∷ Memory ∷ Device ∷ [])
        ≡ map (λ text. text ++ 10 ∷ []) (codes "ok" ∷ codes "none" ∷ codes "bye" ∷ codes "limit epoch" ∷ codes "memory" ∷ codes "device" ∷ []) }
    ensures with_a_value { text_of (Value (0x0b ∷ [])) ≡ codes "val 0b" ++ 10 ∷ [] }
    ensures with_a_number { map (λ reply. text_of reply) (Counted 0 ∷ About 12 ∷ LongValue 65537 ∷ [])
        ≡ map (λ text. text ++ 10 ∷ []) (codes "count 0" ∷ codes "about 12" ∷ codes "limit value 65537" ∷ []) }
    ensures of_a_broken_rule { text_of (Damaged (Shape Index 7 4)) ≡ codes "damaged index 7 rule 4" ++ 10 ∷ [] }
    ensures words_of_parts { map (λ part. part_word part) (Manifest ∷ Log ∷ Index ∷ Filter ∷ Block ∷ [])
        ≡ codes "manifest" ∷ codes "log" ∷ codes "index" ∷ codes "filter" ∷ codes "block" ∷ [] }
{}
