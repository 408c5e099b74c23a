//! The definitions, shown by examples. Each computes.
ghost use Rattle.std.specs.Prelude.{◌≡◌, ◌++◌, ◌<◌, ◌∷◌, ℕ, [], List, codes, length, map, replicate, Err, None, Ok, Some};
ghost use Rattle.byte_fields.specs.Faults.{fault};
ghost use Rattle.line_model.specs.Replies.{text_of};
ghost use Rattle.line_model.specs.Requests.{Bad, Count, Get, Quit, Range, Seek};
ghost use Rattle.map_file_model.specs.ExampleBodies.{a_and_ab, a_and_ab_body};
ghost use Rattle.map_file_model.specs.Reading.{body_fault};
ghost use Rattle.map_model.specs.SortedMap.{Bytes};
ghost use Rattle.map_run_model.specs.Building.{IsUnbuiltText, RefusesLine};
ghost use Rattle.map_run_model.specs.ExampleImages.{a_and_ab_image, image_of, long_image, replies_of_two};
ghost use Rattle.map_run_model.specs.Files.{HasMap, built_body, bytes_read};
ghost use Rattle.map_run_model.specs.LastLines.{damaged_map_text, refusal_text, too_large_text};
ghost use Rattle.map_run_model.specs.MapLines.{map_request_of};
ghost use Rattle.map_run_model.specs.PairLines.{BadAt, pair_in, pairs_of};

use map_file_model::examples::a_body_of_two_keys;

/// What lines ask of a map: another verb is refused before its words are counted.
pub fn lines_of_a_map()
    ensures requests { map (λ line. map_request_of line) (codes "get 6162" ∷ codes "seek - 62" ∷ codes "count 61 61" ∷ codes "range - ff 9" ∷ codes "quit" ∷ [])
        ≡ Get (0x61 ∷ 0x62 ∷ []) ∷ Seek [] (Some (0x62 ∷ [])) ∷ Count (0x61 ∷ []) (0x61 ∷ []) ∷ Range [] (0xff ∷ []) 9 ∷ Quit ∷ [] }
    ensures other_verbs { map (λ line. map_request_of line) (codes "put 6 6" ∷ codes "del" ∷ codes "compact" ∷ codes "flush now" ∷ codes "" ∷ codes "gets 61" ∷ [])
        ≡ Bad 2 ∷ Bad 2 ∷ Bad 2 ∷ Bad 2 ∷ Bad 2 ∷ Bad 2 ∷ [] }
    ensures bad_words { map (λ line. map_request_of line) (codes "get" ∷ codes "get 6" ∷ codes "get  61" ∷ codes "range - ff 09" ∷ codes "quit now" ∷ [])
        ≡ Bad 3 ∷ Bad 4 ∷ Bad 3 ∷ Bad 5 ∷ Bad 3 ∷ [] }
{}

/// The map of 61 01 and 6162 02, asked.
pub fn replies_of_a_map()
    ensures gets { replies_of_two (codes "get 61" ∷ codes "get 6162" ∷ codes "get 616263" ∷ codes "get 6163" ∷ codes "get -" ∷ [])
        ≡ (codes "val 01" ∷ codes "val 02" ∷ codes "none" ∷ codes "none" ∷ codes "limit key 0" ∷ []) }
    ensures counts { replies_of_two (codes "count 6161 62" ∷ codes "count 61 61" ∷ codes "count 6162ff 62" ∷ codes "count - ff" ∷ codes "count 62 61" ∷ [])
        ≡ (codes "count 1" ∷ codes "count 1" ∷ codes "count 0" ∷ codes "count 2" ∷ codes "count 0" ∷ []) }
    ensures seeks { replies_of_two (codes "seek 6161" ∷ codes "seek 6162ff" ∷ codes "seek - 60" ∷ codes "seek 61 61" ∷ [])
        ≡ (codes "at 6162 02" ∷ codes "none" ∷ codes "none" ∷ codes "at 61 01" ∷ []) }
    ensures ranges { replies_of_two (codes "range - ff 9" ∷ codes "range - ff 1" ∷ codes "range 62 61 9" ∷ codes "range - ff 0" ∷ [])
        ≡ ((codes "at 61 01" ++ 10 ∷ codes "at 6162 02" ++ 10 ∷ codes "end 2") ∷ (codes "at 61 01" ++ 10 ∷ codes "end 1") ∷ codes "end 0" ∷ codes "end 0" ∷ []) }
    ensures others { replies_of_two (codes "put 6 6" ∷ codes "put 61 01" ∷ codes "quit" ∷ []) ≡ (codes "bad 2" ∷ codes "bad 2" ∷ codes "bye" ∷ []) }
{}

/// Lines of a key and a value, and the first that breaks a rule.
#[tactic(auto, unfolding(hex::specs::Hex::decode_pairs))]
pub fn lines_of_pairs()
    ensures codes_of_lines { map (λ line. pair_in line) (codes "61 01" ∷ codes "61 -" ∷ codes "61" ∷ codes "61  01" ∷ codes "6 01" ∷ codes "61 0g" ∷ codes "- 01" ∷ codes "- 0" ∷ codes "" ∷ [])
        ≡ Ok (0x61 ∷ [], 0x01 ∷ []) ∷ Ok (0x61 ∷ [], []) ∷ Err 3 ∷ Err 3 ∷ Err 4 ∷ Err 4 ∷ Err 7 ∷ Err 4 ∷ Err 3 ∷ [] }
    ensures a_long_line { (line : Bytes) → 2100000 < length line → pair_in line ≡ Err 1 }
    ensures pairs { pairs_of (codes "61 01" ∷ codes "6162 02" ∷ []) ≡ Ok a_and_ab }
    ensures no_pair { pairs_of [] ≡ Ok [] }
    ensures a_lesser_key { pairs_of (codes "62 01" ∷ codes "61 01" ∷ []) ≡ Err (BadAt 2 6) }
    ensures the_same_key { pairs_of (codes "61 01" ∷ codes "61 02" ∷ []) ≡ Err (BadAt 2 6) }
    ensures the_first_is_named { pairs_of (codes "61 01" ∷ codes "62" ∷ codes "61 01" ∷ []) ≡ Err (BadAt 2 3) }
    ensures hex_comes_before_order { pairs_of (codes "62 01" ∷ codes "61 1" ∷ []) ≡ Err (BadAt 2 4) }
{}

/// The last lines.
pub fn last_lines()
    ensures a_bad_line { refusal_text (BadAt 2 6) ≡ codes "bad line 2 code 6" ++ 10 ∷ [] }
    ensures too_large { too_large_text 2156397792 ≡ codes "too large 2156397792" ++ 10 ∷ [] }
    ensures a_damaged_map { damaged_map_text (fault 4 2) ≡ codes "damaged map 4 2" ++ 10 ∷ [] }
{}

/// Of nothing that was taken no line is refused, and it is not 2^40 bytes.
pub fn refusals()
    ensures no_line { (text : Bytes) → RefusesLine (Unit {0}) [] text → ⊥ }
    ensures no_limit { (text : Bytes) → IsUnbuiltText (image_of []) (Unit {0}) [] 9 text → ⊥ }
{}

/// A device with the map of 61 01 and 6162 02, and what is read of it; and one whose head asks for more bytes than a body may have.
pub fn maps_on_devices()
    ensures built { built_body a_and_ab ≡ a_and_ab_body }
    ensures there { HasMap a_and_ab a_and_ab_image }
    ensures read { bytes_read a_and_ab_image ≡ a_and_ab_body }
    ensures too_long { length (bytes_read long_image) ≡ 24 }
    ensures too_long_is_rule_1 { body_fault (bytes_read long_image) ≡ Some (fault 24 1) }
{
    a_body_of_two_keys();
}
