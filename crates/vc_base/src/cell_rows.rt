ghost use Rattle.std.specs.Prelude.{◌≡◌, ℕ, [], ◌∷◌, ◌++◌, replicate, Some, None, false, true};
ghost use Rattle.vc_base.specs.Cells.{body_of, put, with_word, word};
ghost use Rattle.vc_base.specs.Holders.{contains, first_in, inserted_after, inserted_before, last_in, next_in, previous_in, without};

/// A word is 8 bytes with the lowest first, from 8 times its number on, and the bytes behind four words are the body.
#[tactic(auto, unfolding(crate::specs::Cells::word, crate::specs::Cells::with_word))]
pub fn word_rows()
    ensures low { word 0 (1 ∷ 2 ∷ 0 ∷ 0 ∷ 0 ∷ 0 ∷ 0 ∷ 0 ∷ 7 ∷ []) ≡ 513 }
    ensures high { word 1 (replicate 15 0 ++ 1 ∷ []) ≡ 72057594037927936 }
    ensures greatest { word 0 (replicate 8 255) ≡ 18446744073709551615 }
    ensures written { with_word 1 258 (replicate 17 9)
        ≡ replicate 8 9 ++ (2 ∷ 1 ∷ 0 ∷ 0 ∷ 0 ∷ 0 ∷ 0 ∷ 0 ∷ 9 ∷ []) }
    ensures body { body_of (replicate 32 0 ++ 97 ∷ 98 ∷ []) ≡ 97 ∷ 98 ∷ [] }
{}

/// Addresses put before and behind others and taken out, and the neighbours of one.
pub fn holder_rows()
    ensures before { inserted_before 7 9 (5 ∷ 7 ∷ 8 ∷ []) ≡ 5 ∷ 9 ∷ 7 ∷ 8 ∷ [] }
    ensures after { inserted_after 7 9 (5 ∷ 7 ∷ 8 ∷ []) ≡ 5 ∷ 7 ∷ 9 ∷ 8 ∷ [] }
    ensures without { without 7 (5 ∷ 7 ∷ 8 ∷ []) ≡ 5 ∷ 8 ∷ [] }
    ensures first { first_in (5 ∷ 7 ∷ 8 ∷ []) ≡ Some 5 }
    ensures last { last_in (5 ∷ 7 ∷ 8 ∷ []) ≡ Some 8 }
    ensures last_of_none { last_in [] ≡ None }
    ensures next { next_in 7 (5 ∷ 7 ∷ 8 ∷ []) ≡ Some 8 }
    ensures behind_the_last { next_in 8 (5 ∷ 7 ∷ 8 ∷ []) ≡ None }
    ensures previous { previous_in None 7 (5 ∷ 7 ∷ 8 ∷ []) ≡ Some 5 }
    ensures before_the_first { previous_in None 5 (5 ∷ 7 ∷ 8 ∷ []) ≡ None }
    ensures in_it { contains (5 ∷ 7 ∷ 8 ∷ []) 8 ≡ true }
    ensures not_in_it { contains (5 ∷ 7 ∷ 8 ∷ []) 6 ≡ false }
{}
