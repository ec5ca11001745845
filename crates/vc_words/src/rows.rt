ghost use Rattle.std.specs.Prelude.{◌≡◌, ◌≤◌, ℕ, List, [], ◌∷◌, Some, None, true, false, codes, IfSome};
ghost use Rattle.vc_words.specs.Words.{words_of};

/// Words that are taken: in any order, and a text behind `=` or as the next word.
#[tactic(auto, unfolding(clap::proofs::OnLiterals::clap_on_literals))]
pub fn taken_words()
    ensures none { words_of []
        ≡ Some (record { quiet = false; stat = false; generate = None; seed = 0 }) }
    ensures quiet { words_of (codes "--quiet" ∷ [])
        ≡ Some (record { quiet = true; stat = false; generate = None; seed = 0 }) }
    ensures generate { words_of (codes "--gen" ∷ codes "5" ∷ [])
        ≡ Some (record { quiet = false; stat = false; generate = Some 5; seed = 0 }) }
    ensures seed { words_of (codes "--gen=5" ∷ codes "--seed" ∷ codes "7" ∷ [])
        ≡ Some (record { quiet = false; stat = false; generate = Some 5; seed = 7 }) }
    ensures order { words_of (codes "--seed=4294967295" ∷ codes "--stat" ∷ codes "--quiet" ∷ [])
        ≡ Some (record { quiet = true; stat = true; generate = None; seed = 4294967295 }) }
    ensures most { words_of (codes "--gen=1000000" ∷ [])
        ≡ Some (record { quiet = false; stat = false; generate = Some 1000000; seed = 0 }) }
    ensures ended { words_of (codes "--stat" ∷ codes "--" ∷ [])
        ≡ Some (record { quiet = false; stat = true; generate = None; seed = 0 }) }
{}

/// Texts that are no numbers, or out of range.
#[tactic(auto, unfolding(clap::proofs::OnLiterals::clap_on_literals))]
pub fn refused_numbers()
    ensures none { words_of (codes "--gen" ∷ codes "0" ∷ []) ≡ None }
    ensures too_many { words_of (codes "--gen" ∷ codes "1000001" ∷ []) ≡ None }
    ensures letter { words_of (codes "--gen" ∷ codes "x" ∷ []) ≡ None }
    ensures empty { words_of (codes "--gen=" ∷ []) ≡ None }
    ensures sign { words_of (codes "--gen=+5" ∷ []) ≡ None }
    ensures seed_too_large { words_of (codes "--seed=4294967296" ∷ []) ≡ None }
    ensures seed_letter { words_of (codes "--gen=5" ∷ codes "--seed=7s" ∷ []) ≡ None }
{}

/// Words that the command doesn't take.
#[tactic(auto, unfolding(clap::proofs::OnLiterals::clap_on_literals))]
pub fn refused_words()
    ensures repeated { words_of (codes "--quiet" ∷ codes "--quiet" ∷ []) ≡ None }
    ensures repeated_seed { words_of (codes "--seed=1" ∷ codes "--seed=1" ∷ []) ≡ None }
    ensures operand { words_of (codes "operand" ∷ []) ≡ None }
    ensures operand_after { words_of (codes "--" ∷ codes "--quiet" ∷ []) ≡ None }
    ensures help { words_of (codes "--help" ∷ []) ≡ None }
    ensures short_help { words_of (codes "-h" ∷ []) ≡ None }
    ensures no_text { words_of (codes "--seed" ∷ []) ≡ None }
    ensures flag_for_text { words_of (codes "--gen" ∷ codes "--quiet" ∷ []) ≡ None }
    ensures flag_with_text { words_of (codes "--quiet=true" ∷ []) ≡ None }
    ensures front { words_of (codes "--qui" ∷ []) ≡ None }
    ensures empty { words_of ([] ∷ []) ≡ None }
{}

/// A count of commands that is asked for is a number from 1 to 1,000,000.
pub fn counts_in_range()
    ensures { (words : List (List ℕ)) → IfSome (words_of words)
        (λ w. IfSome w.generate (λ n. (1 ≤ n) × (n ≤ 1000000))) }
{}
