// A worked case: its digests were worked out apart from the definitions.
ghost use Rattle.std.specs.Prelude.{◌≡◌, ◌∷◌, [], codes};
ghost use Rattle.store_move.specs.First.{first};
ghost use Rattle.store_move.specs.Moves.{begun, moved_from, present};
ghost use Rattle.record_move.specs.Worked.{moved, names, needed, old_book, old_names, rounds_from, unihashes};

/// Three records of two tasks, the third behind a comment in the first one's function, with the same output: each has its new name; the third has the
/// first one's for its unihash, and so has what the second needs; the second and the third are put behind the first. Moved again nothing is added.
pub fn example_of_a_move()
    ensures old_names { old_names ≡ codes "a903ef32a986d3dbaa728f290e7cca61bf07d55e072e5d99c17369d681b79f36"
        ∷ (codes "f09bd09b384126149a601633fd973eb29fe8c7601461f85cf4e4d7af472509ca"
        ∷ (codes "672887c91a752d228c68e6e16b5c17e4a373efbad12a2e73924afb79850266f2" ∷ [])) }
    ensures names { names moved.book ≡ codes "e616128af7c21269a206b287d12b75a604b0e7006b3bab89a7451b7330072ecb"
        ∷ (codes "a0495de74d64a24db5cbdd31f80dbee402281a1c996316585290a0fe08e059ac"
        ∷ (codes "0beaf524700c11e9aa64f7eecb28686f0252a51d901964155951e949cc66f8d8" ∷ [])) }
    ensures unihashes { unihashes moved.book ≡ codes "e616128af7c21269a206b287d12b75a604b0e7006b3bab89a7451b7330072ecb"
        ∷ (codes "a0495de74d64a24db5cbdd31f80dbee402281a1c996316585290a0fe08e059ac"
        ∷ (codes "e616128af7c21269a206b287d12b75a604b0e7006b3bab89a7451b7330072ecb" ∷ [])) }
    ensures needed { needed moved.book ≡ codes "e616128af7c21269a206b287d12b75a604b0e7006b3bab89a7451b7330072ecb" ∷ [] }
    ensures rounds { rounds_from [] moved.book ≡ 0 ∷ (1 ∷ (1 ∷ [])) }
    ensures again { names (moved_from first present (begun moved.book) old_book).book ≡ names moved.book }
{}
