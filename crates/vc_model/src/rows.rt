ghost use Rattle.std.specs.Prelude.{◌≡◌, ℕ, [], ◌∷◌, Some, None, false, true, map};
ghost use Rattle.vc_model.specs.Gap.{Run, bytes_of, gaps};
ghost use Rattle.vc_model.specs.Place.{place};
ghost use Rattle.vc_model.specs.Layout.{footprints};
ghost use Rattle.vc_model.specs.Best.{best_alloc, place_in};
ghost use Rattle.vc_model.specs.Outcome.{Done, Fixed, NoSegment, Refused};
ghost use Rattle.vc_model.specs.Resize.{best_resize, fitted_bytes};
ghost use Rattle.vc_model.specs.Segments.{new_segment};
ghost use Rattle.vc_model.specs.Rows.{asked_place, first_moved, first_resized, one_put, rounds_to, second_freed, three_freed, two_gaps};

/// Two gaps of 128 bytes tie, and the one at the lower offset is taken; then the other.
pub fn tie()
    ensures first { place ((1, 4096) ∷ []) (record { seg = 1; from = 144; to = 176 }
        ∷ record { seg = 1; from = 304; to = 336 } ∷ []) 100 32 ≡ Some (1, 32) }
    ensures second { place ((1, 4096) ∷ []) (record { seg = 1; from = 16; to = 144 }
        ∷ record { seg = 1; from = 144; to = 176 } ∷ record { seg = 1; from = 304; to = 336 }
        ∷ []) 100 32 ≡ Some (1, 192) }
{}

/// Where three blocks side by side are free, they are one gap of 96 bytes, and a block of 80 goes there.
pub fn merging()
    ensures gaps { gaps ((1, 4096) ∷ []) (record { seg = 1; from = 112; to = 144 } ∷ [])
        ≡ record { seg = 1; from = 16; to = 112 } ∷ record { seg = 1; from = 144; to = 4080 } ∷ [] }
    ensures place { place ((1, 4096) ∷ []) (record { seg = 1; from = 112; to = 144 } ∷ []) 80 32
        ≡ Some (1, 32) }
{}

/// The gaps are the same in whatever order the footprints stand.
pub fn gaps_in_any_order()
    ensures { gaps ((1, 4096) ∷ []) (record { seg = 1; from = 304; to = 336 }
        ∷ record { seg = 1; from = 16; to = 144 } ∷ [])
        ≡ record { seg = 1; from = 144; to = 304 } ∷ record { seg = 1; from = 336; to = 4080 }
        ∷ [] }
{}

/// With an alignment of 1,024 a gap of 1,984 bytes holds the span of 1,056 but not at such an offset; an alignment of
/// 64 and one of 256 take the lowest offset that they divide.
pub fn aligned_places()
    ensures too_small { place ((2, 4096) ∷ []) (record { seg = 2; from = 16; to = 2096 }
        ∷ []) 1024 1024 ≡ None }
    ensures by_64 { place ((1, 4096) ∷ []) (record { seg = 1; from = 16; to = 80 } ∷ []) 10 64
        ≡ Some (1, 128) }
    ensures by_256 { place ((1, 4096) ∷ (2, 8192) ∷ []) (record { seg = 1; from = 16; to = 304 }
        ∷ []) 100 256 ≡ Some (1, 512) }
{}

/// Three blocks side by side are freed, the middle one last: their gaps are one of 96 bytes, beside the one of 3,936
/// bytes behind the block that stays, and a block of 80 goes there.
pub fn merging_by_free()
    ensures gaps { gaps three_freed.segments (footprints three_freed.blocks)
        ≡ record { seg = 1; from = 16; to = 112 } ∷ record { seg = 1; from = 144; to = 4080 } ∷ [] }
    ensures bytes { map bytes_of (gaps three_freed.segments (footprints three_freed.blocks))
        ≡ 96 ∷ 3936 ∷ [] }
    ensures place { place_in three_freed 80 32 ≡ Some (1, 32) }
{}

/// Two blocks of 100 bytes are freed, and their gaps tie: the next block of 100 goes to the lower offset, and the one
/// after it to the other.
pub fn tie_by_free()
    ensures first { best_alloc (rounds_to 32) two_gaps 5 100 32 false
        ≡ Done (record { at = (1, 32); region = one_put; granted = None }) }
    ensures second { place_in one_put 100 32 ≡ Some (1, 192) }
{}

/// The block beside a gap of 128 bytes grows to 240 bytes where it is, and not to 241: that is refused, or it moves.
pub fn resizing()
    ensures stays { best_resize (rounds_to 4096) second_freed (1, 32) 240 false false
        ≡ Done (record { at = (1, 32); region = first_resized 240; granted = None }) }
    ensures fixed { best_resize (rounds_to 4096) (first_resized 240) (1, 32) 241 false false
        ≡ Refused Fixed }
    ensures moves { best_resize (rounds_to 4096) (first_resized 240) (1, 32) 241 true false
        ≡ Done (record { at = (1, 320); region = first_moved 241; granted = None }) }
{}

/// A block of 4,000 bytes has no place in what is left of a segment: one of 8,192 bytes is granted for it, under the
/// least number that isn't used; or it is refused.
pub fn asking()
    ensures granted { asked_place (best_alloc (rounds_to 8192) second_freed 7 4000 32 false)
        ≡ Some ((2, 32), Some (new_segment 2 8192)) }
    ensures not_lent { best_alloc (rounds_to 8192) second_freed 7 4000 32 true ≡ Refused NoSegment }
{}

/// A block that shrinks and grows again has zeros behind the bytes that were kept.
pub fn kept_bytes()
    ensures shorter { fitted_bytes 2 (7 ∷ 8 ∷ 9 ∷ []) ≡ 7 ∷ 8 ∷ [] }
    ensures longer { fitted_bytes 4 (7 ∷ 8 ∷ []) ≡ 7 ∷ 8 ∷ 0 ∷ 0 ∷ [] }
{}
