// A worked case.
ghost use Rattle.std.specs.Prelude.{◌∷◌, [], true, false};
ghost use Rattle.store_keep.specs.Keep.{IsClosure};
ghost use Rattle.store_keep.specs.Tries.{AreKept};
ghost use Rattle.store_keep.specs.Worked.{edges, order, roots};

/// Of five records the second names the first, the third the second, and the last the fourth; the second is the root. It leads to the first. At
/// most three: the last would make four with the fourth and is passed over, the third is kept, and the fourth isn't tried any more. With the limit
/// 0 the root's part stays, with 5 all are kept.
pub fn example_of_five_records()
    ensures closure { IsClosure edges roots (true ∷ (true ∷ (false ∷ (false ∷ (false ∷ []))))) }
    ensures three { AreKept edges roots order 3 (true ∷ (true ∷ (true ∷ (false ∷ (false ∷ []))))) }
    ensures none { AreKept edges roots order 0 (true ∷ (true ∷ (false ∷ (false ∷ (false ∷ []))))) }
    ensures all { AreKept edges roots order 5 (true ∷ (true ∷ (true ∷ (true ∷ (true ∷ []))))) }
{}
