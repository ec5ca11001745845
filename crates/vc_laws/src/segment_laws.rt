ghost use Rattle.std.specs.Prelude.{◌≡◌, ℕ, ◌+◌, ◌≤◌, ◌<◌, Bool, List, Some, None, false, length, ◌↔◌};
ghost use Rattle.vc_model.specs.Best.{best_alloc, best_need, place_in};
ghost use Rattle.vc_model.specs.Discipline.{Terms};
ghost use Rattle.vc_model.specs.Layout.{Layout};
ghost use Rattle.vc_model.specs.Outcome.{Refused, TooManySegments};
ghost use Rattle.vc_model.specs.Segments.{TooMany, ask, growing, segment_limit, size_limit};

/// A best region has too many segments for a block exactly where no gap holds it and too many are there to ask, whether
/// or not the discipline would refuse.
pub fn too_many_where_none_is_left<L>()
    ensures exactly { (terms : Terms) → (r : Layout L) → (label : L) → (size : ℕ) → (align : ℕ)
        → (refused : Bool)
        → (best_alloc terms r label size align refused ≡ Refused TooManySegments)
        ↔ ((place_in r size align ≡ None)
        × (ask terms (best_need terms size align) r.segments false ≡ TooMany)) }
{}

/// Where a segment may be made longer, too many are there exactly where its size would be above 33,554,432 bytes; else
/// exactly where there are 1,023.
pub fn too_many_is_the_limit()
    ensures segments { (terms : Terms) → (bytes : ℕ) → (segments : List (ℕ × ℕ))
        → growing terms segments ≡ None
        → (ask terms bytes segments false ≡ TooMany) ↔ (segment_limit ≤ length segments) }
    ensures bytes { (terms : Terms) → (bytes : ℕ) → (segments : List (ℕ × ℕ)) → (s : ℕ × ℕ)
        → growing terms segments ≡ Some s
        → (ask terms bytes segments false ≡ TooMany) ↔ (size_limit < s.1 + bytes) }
{}
