//! The definitions, shown by examples. Each computes.
ghost use Rattle.std.specs.Prelude.{◌≡◌, ◌==◌, [], ◌∷◌, ◌++◌, true, false, map, length, take, codes, Some, None};
ghost use Rattle.filter_model.specs.Answers.{begins, first, first_difference, keys_below, point, ranged, tally, true_count};
ghost use Rattle.filter_model.specs.Image.{image};
ghost use Rattle.filter_model.specs.Leaves.{base_leaves, leaves_of, hash_bits_of};
ghost use Rattle.filter_model.specs.Examples.{a_ab, a_ab_dense, a_ab_root_dense, a_ab_sparse, a_and_a_ff, aa1_ab1, far_to_toy, far_to_toy_sparse, real_leaves};
ghost use Rattle.filter_model.specs.Trie.{cutoff_of, level_labels, level_nodes, nodes};

/// The stubs of far, fast, s, top and toy, of which none ends.
pub fn far_to_toy_leaves()
    ensures stubs { map (λ l. l.stub) (base_leaves far_to_toy) ≡ codes "far" ∷ codes "fas" ∷ codes "s" ∷ codes "top" ∷ codes "toy" ∷ [] }
    ensures none_ends { map (λ l. l.ends) (base_leaves far_to_toy) ≡ false ∷ false ∷ false ∷ false ∷ false ∷ [] }
    ensures real_bits { map (λ l. l.real) (real_leaves far_to_toy) ≡ 0 ∷ 0x74 ∷ 0 ∷ 0 ∷ 0 ∷ [] }
{}

/// What they answer.
pub fn far_to_toy_answers()
    ensures fasten_may_be_held { point 0 0 (base_leaves far_to_toy) (codes "fasten") ≡ true }
    ensures fa_is_not { point 0 0 (base_leaves far_to_toy) (codes "fa") ≡ false }
    ensures none_from_fat_to_r { ranged 0 (base_leaves far_to_toy) (codes "fat") (codes "r") ≡ false }
    ensures some_from_fat_to_s { ranged 0 (base_leaves far_to_toy) (codes "fat") (codes "s") ≡ true }
    ensures seek_fat { first 0 (base_leaves far_to_toy) (codes "fat") ≡ Some 2 }
    ensures seek_u { first 0 (base_leaves far_to_toy) (codes "u") ≡ None }
    ensures seek_fasten { first 0 (base_leaves far_to_toy) (codes "fasten") ≡ Some 1 }
    ensures two_keys_are_below_fasten { keys_below far_to_toy (codes "fasten") ≡ 2 }
    ensures fast_is_not_below_itself { keys_below far_to_toy (codes "fast") ≡ 1 }
    ensures least_without_real_bits { map (begins 0) (base_leaves far_to_toy) ≡ codes "far" ∷ codes "fas" ∷ codes "s" ∷ codes "top" ∷ codes "toy" ∷ [] }
    ensures least_with_real_bits { map (begins 8) (real_leaves far_to_toy) ≡ codes "far" ∷ codes "fast" ∷ codes "s" ∷ codes "top" ∷ codes "toy" ∷ [] }
    ensures real_bits_keep_out { ranged 8 (real_leaves far_to_toy) (codes "fasa") (codes "fass") ≡ false }
    ensures without_them_it_comes_in { ranged 0 (base_leaves far_to_toy) (codes "fasa") (codes "fass") ≡ true }
{}

/// Their trie.
pub fn far_to_toy_trie()
    ensures by_length_then_bytes { nodes (base_leaves far_to_toy) ≡ [] ∷ codes "f" ∷ codes "t" ∷ codes "fa" ∷ codes "to" ∷ [] }
    ensures nodes_of_levels { level_nodes (base_leaves far_to_toy) ≡ 1 ∷ 2 ∷ 2 ∷ [] }
    ensures labels_of_levels { level_labels (base_leaves far_to_toy) ≡ 3 ∷ 2 ∷ 4 ∷ [] }
    ensures no_level_is_dense { cutoff_of 64 (1 ∷ 2 ∷ 2 ∷ []) (3 ∷ 2 ∷ 4 ∷ []) ≡ 0 }
    ensures all_levels_are_dense { cutoff_of 0 (1 ∷ 2 ∷ 2 ∷ []) (3 ∷ 2 ∷ 4 ∷ []) ≡ 3 }
{}

/// Others: a key that is a prefix of another, two keys between which a range lies, one key alone.
pub fn other_examples()
    ensures a_is_held { point 0 0 (base_leaves a_and_a_ff) (0x61 ∷ []) ≡ true }
    ensures a_ff_may_go_on { point 0 0 (base_leaves a_and_a_ff) (0x61 ∷ 0xFF ∷ 0 ∷ []) ≡ true }
    ensures a_may_not { point 0 0 (base_leaves a_and_a_ff) (0x61 ∷ 0 ∷ []) ≡ false }
    ensures two_are_counted { tally 0 (base_leaves aa1_ab1) (codes "aa5") (codes "ab0") ≡ 2 }
    ensures none_is_there { true_count aa1_ab1 (codes "aa5") (codes "ab0") ≡ 0 }
    ensures hash_of_a { hash_bits_of 8 (codes "a") ≡ 0x8C }
    ensures leaf_of_a { leaves_of 8 0 (codes "a" ∷ []) ≡ record { stub = codes "a"; ends = false; hash = 0x8C; real = 0 } ∷ [] }
    ensures a_alone_is_held { point 8 0 (leaves_of 8 0 (codes "a" ∷ [])) (codes "a") ≡ true }
    ensures b_differs_by_the_stub { point 8 0 (leaves_of 8 0 (codes "a" ∷ [])) (codes "b") ≡ false }
    ensures aa_differs_by_the_hash_alone { point 8 0 (leaves_of 8 0 (codes "a" ∷ [])) (codes "aa") ≡ false }
    ensures without_hash_bits_aa_may_be_held { point 0 0 (base_leaves (codes "a" ∷ [])) (codes "aa") ≡ true }
    ensures hash_of_aa { hash_bits_of 8 (codes "aa") ≡ 0xB7 }
    ensures zoo_may_be_held { point 0 0 (base_leaves (codes "zebra" ∷ [])) (codes "zoo") ≡ true }
    ensures y_is_not { point 0 0 (base_leaves (codes "zebra" ∷ [])) (codes "y") ≡ false }
    ensures two_bytes_of_all { cutoff_of 64 (1 ∷ 256 ∷ []) (256 ∷ 65536 ∷ []) ≡ 1 }
    ensures one_byte_of_all { cutoff_of 64 (1 ∷ []) (256 ∷ []) ≡ 0 }
    ensures one_byte_of_all_dense { cutoff_of 0 (1 ∷ []) (256 ∷ []) ≡ 1 }
    ensures a_dense_node_has_513_bits { cutoff_of 64 (1 ∷ 256 ∷ []) (256 ∷ 3280 ∷ []) ≡ 0 }
{}

/// The images of the keys a and ab, none, one and both of their levels dense: 45, 109 and 169 bytes. The node of a has
/// the branches END and b.
pub fn images_of_a_and_ab()
    ensures sparse { image 0 0 0 (base_leaves a_ab) ≡ a_ab_sparse }
    ensures root_dense { image 0 0 1 (base_leaves a_ab) ≡ a_ab_root_dense }
    ensures dense { image 0 0 2 (base_leaves a_ab) ≡ a_ab_dense }
    ensures lengths { length a_ab_sparse ∷ length a_ab_root_dense ∷ length a_ab_dense ∷ [] ≡ 45 ∷ 109 ∷ 169 ∷ [] }
{}

/// The image of far, fast, s, top and toy with 8 real bits, all sparse: 58 bytes. Suffixes stand in the order of the
/// branches, so that of s comes first.
pub fn image_of_far_to_toy()
    ensures sparse { image 0 8 0 (real_leaves far_to_toy) ≡ far_to_toy_sparse }
    ensures length_is { length far_to_toy_sparse ≡ 58 }
{}

/// Two lists differ first where they go apart, where one has no leaf more, or not at all. Of one leaf's stub, end, hash
/// bits and real bits each counts.
pub fn first_differences()
    ensures none_of_one_list { first_difference (base_leaves far_to_toy) (base_leaves far_to_toy) ≡ None }
    ensures of_empty_lists { first_difference [] [] ≡ None }
    ensures where_one_ends { first_difference (base_leaves aa1_ab1) [] ≡ Some 0 }
    ensures by_the_stub { first_difference (base_leaves (codes "a" ∷ [])) (base_leaves (codes "b" ∷ [])) ≡ Some 0 }
    ensures by_the_end { first_difference (base_leaves a_ab) (base_leaves (codes "a" ∷ [])) ≡ Some 0 }
    ensures by_the_hash { first_difference (leaves_of 8 0 (codes "a" ∷ [])) (leaves_of 8 0 (codes "aa" ∷ [])) ≡ Some 0 }
    ensures by_the_real_bits { first_difference (real_leaves far_to_toy) (base_leaves far_to_toy) ≡ Some 1 }
    ensures a_longer_list { first_difference (base_leaves far_to_toy) (take 3 (base_leaves far_to_toy)) ≡ Some 3 }
{}
