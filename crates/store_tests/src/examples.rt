// Worked rows of definitions of the crates that are tested here: names that are found by the bytes of a signature.
ghost use Rattle.std.specs.Prelude.{[], ◌∷◌, codes};
ghost use Rattle.store_model.specs.Hello.{hello_hash, hello_name, hello_signature};
ghost use Rattle.store_model.specs.Spelling.{signature_bytes};
ghost use Rattle.sig_gen.specs.Sound.{IsNameBy};
ghost use Rattle.hash_equiv.specs.Index.{IsNameIn};
ghost use Rattle.store_tests.specs.Worked.{one_row};

/// Names in an index of one row.
pub fn example_of_names_in_an_index()
    ensures held { IsNameIn (one_row ∷ []) (codes "sig") hello_name }
    ensures other_name { IsNameIn (one_row ∷ []) (codes "sig") hello_hash → ⊥ }
    ensures other_bytes { IsNameIn (one_row ∷ []) (codes "other") hello_name → ⊥ }
    ensures no_row { IsNameIn [] (codes "sig") hello_name → ⊥ }
{}

/// The name of the worked signature, by its bytes.
pub fn example_of_names_by_bytes()
    ensures name { IsNameBy (signature_bytes hello_signature) hello_name }
    ensures other { IsNameBy (signature_bytes hello_signature) hello_hash → ⊥ }
{}
