ghost use Rattle.std.specs.Prelude.{◌≡◌, ◌∷◌, [], None, Some};
ghost use Rattle.vc_paths.specs.Rows.{apple, pear};
ghost use Rattle.vc_algebra.specs.Rows.{fig, fruit_between, fruit_by, letter, letters_by, path_between};

use crate::Op;

/// Apple, fig and pear with banana, fig and plum: the fig that is answered is the first one's.
pub fn fruit_rows()
    ensures union { fruit_by Op.Union ≡ (0, 1) ∷ (1, 1) ∷ (0, 2) ∷ (0, 3) ∷ (1, 3) ∷ [] }
    ensures meet { fruit_by Op.Meet ≡ (0, 2) ∷ [] }
    ensures minus { fruit_by Op.Minus ≡ (0, 1) ∷ (0, 3) ∷ [] }
{}

/// A, a and b with a and C, by keys without regard to capital letters: those that match keep their order.
pub fn letter_rows()
    ensures union { letters_by Op.Union ≡ (0, 1) ∷ (0, 2) ∷ (0, 3) ∷ (1, 2) ∷ [] }
    ensures meet { letters_by Op.Meet ≡ (0, 1) ∷ (0, 2) ∷ [] }
    ensures minus { letters_by Op.Minus ≡ (0, 3) ∷ [] }
{}

/// Ranges of apple, fig and pear, and of a pear over an apple, a pear and a zebra: both bounds belong to a range.
pub fn range_rows()
    ensures path { path_between (Some (letter 98)) (Some (letter 121)) ≡ (0, 1) ∷ [] }
    ensures crossed { fruit_between (Some (letter 113)) (Some (letter 98)) ≡ [] }
    ensures low_alone { fruit_between (Some fig) None ≡ (0, 2) ∷ (0, 3) ∷ [] }
    ensures high_alone { fruit_between None (Some fig) ≡ (0, 1) ∷ (0, 2) ∷ [] }
    ensures one { fruit_between (Some fig) (Some fig) ≡ (0, 2) ∷ [] }
    ensures all { fruit_between None None ≡ (0, 1) ∷ (0, 2) ∷ (0, 3) ∷ [] }
    ensures ends { fruit_between (Some apple) (Some pear) ≡ (0, 1) ∷ (0, 2) ∷ (0, 3) ∷ [] }
    ensures above_all { fruit_between (Some (letter 122)) None ≡ [] }
    ensures below_all { fruit_between None (Some []) ≡ [] }
{}
