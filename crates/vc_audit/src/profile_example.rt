ghost use Rattle.std.specs.Prelude.{◌≡◌, ℕ, [], ◌∷◌, Some, None, false, true};
ghost use Rattle.vc_model.specs.Outcome.{NoSegment, Refused};
ghost use Rattle.vc_audit.specs.Profile.{empty_profile, profile_alloc, profile_clear, profile_free, profile_resize, profile_rows, row_at};
ghost use Rattle.vc_audit.specs.ProfileExample.{dash, m, first_freed, place_in_profile, profile_put, r, example_row, page_terms, three_put, with_one, with_size};

/// Rows stand in order of first use, and stay at zero.
pub fn profile_sites()
    ensures none { profile_rows (empty_profile {L = ℕ}) ≡ [] }
    ensures three { profile_rows three_put ≡ example_row m 2 40 40 ∷ example_row r 1 20 20 ∷ [] }
    ensures freed { profile_rows first_freed
        ≡ example_row m 1 30 40 ∷ example_row r 1 20 20 ∷ example_row dash 1 5 5 ∷ [] }
    ensures cleared { profile_rows (profile_clear first_freed)
        ≡ example_row m 0 0 40 ∷ example_row r 0 0 20 ∷ example_row dash 0 0 5 ∷ [] }
    ensures again { profile_rows (with_one r 7 (profile_clear first_freed))
        ≡ example_row m 0 0 40 ∷ example_row r 1 7 20 ∷ example_row dash 0 0 5 ∷ [] }
    ensures second { row_at first_freed 1 ≡ Some (example_row r 1 20 20) }
    ensures past { row_at first_freed 3 ≡ None }
{}

/// A block that is resized counts for the site that it has, where it stays and where it moves. While it moves there are
/// two copies, of which the peak knows nothing.
pub fn profile_resizes()
    ensures grown { profile_rows (with_size (1, 128) 40 three_put)
        ≡ example_row m 2 50 50 ∷ example_row r 1 20 20 ∷ [] }
    ensures shrunk { profile_rows (with_size (1, 128) 3 three_put)
        ≡ example_row m 2 13 40 ∷ example_row r 1 20 20 ∷ [] }
    ensures moves { place_in_profile (profile_resize page_terms three_put (1, 32) 100 true false)
        ≡ Some (1, 192) }
    ensures moved { profile_rows (with_size (1, 32) 100 three_put)
        ≡ example_row m 2 130 130 ∷ example_row r 1 20 20 ∷ [] }
{}

/// An alloc that is refused leaves no row.
pub fn profile_refusals()
    ensures refused { profile_alloc page_terms (empty_profile {L = ℕ}) 1 m 10 32 true
        ≡ Refused NoSegment }
    ensures no_row { profile_rows (profile_put three_put
        (profile_alloc page_terms three_put 1 dash 5000 32 true))
        ≡ example_row m 2 40 40 ∷ example_row r 1 20 20 ∷ [] }
{}
