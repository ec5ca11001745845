ghost use Rattle.std.specs.Prelude.{◌≡◌, [], ◌∷◌, Some, None, false, true, map, option_map};
ghost use Rattle.vc_model.specs.Outcome.{Done, Fixed, NoSegment, NotLast, Refused};
ghost use Rattle.vc_model.specs.Best.{without_block_at, zeros};
ghost use Rattle.vc_model.specs.Compact.{compact_count, compacted_layout};
ghost use Rattle.vc_model.specs.Last.{last_alloc, last_free, last_need, last_resize, latest, newest};
ghost use Rattle.vc_model.specs.Numbers.{gap_sizes};
ghost use Rattle.vc_model.specs.Segments.{new_segment};
ghost use Rattle.vc_model.specs.Rows.{asked_place, rounds_to};
ghost use Rattle.vc_model.specs.PoolRows.{last_emptied, last_of_none, last_of_one, last_of_two, last_resized, last_with, place_put};

/// Blocks stand one behind another from offset 32 on. Only the latest is freed, and then the one before it.
pub fn last_blocks()
    ensures first { asked_place (last_alloc (rounds_to 4096) last_of_none 1 10 false)
        ≡ Some ((1, 32), Some (new_segment 1 4096)) }
    ensures second { asked_place (last_alloc (rounds_to 4096) last_of_one 2 100 false)
        ≡ Some ((1, 64), None) }
    ensures not_last { last_free last_of_two (1, 32) ≡ Refused NotLast }
    ensures last { last_free last_of_two (1, 64) ≡ Done last_of_one }
    ensures before_it { last_free last_of_one (1, 32)
        ≡ Done (without_block_at last_of_one (1, 32)) }
    ensures none { last_free (without_block_at last_of_one (1, 32)) (1, 32) ≡ Refused NotLast }
    ensures not_lent { last_alloc (rounds_to 4096) last_of_none 1 10 true ≡ Refused NoSegment }
{}

/// A block that doesn't fit in the newest segment gets a new one, also where an older one has room.
pub fn last_segments()
    ensures asks { asked_place (last_alloc (rounds_to 4096) last_of_two 3 5000 false)
        ≡ Some ((2, 32), Some (new_segment 2 8192)) }
    ensures newest { newest (last_with last_of_two 3 5000) ≡ Some (2, 8192) }
    ensures behind { place_put
        (last_alloc (rounds_to 4096) (last_with last_of_two 3 5000) 4 1 false)
        ≡ Some (2, 5056) }
    ensures need { last_need (rounds_to 4096) 4048 ≡ 4096 }
    ensures more { last_need (rounds_to 4096) 4049 ≡ 8192 }
{}

/// The latest block grows where it is while its footprint lies in the usable part, and else moves, if it may; it is the
/// latest still. Any other block is refused.
pub fn last_resizing()
    ensures not_last { last_resize (rounds_to 4096) last_of_two (1, 32) 20 true false
        ≡ Refused NotLast }
    ensures stays { place_put (last_resize (rounds_to 4096) last_of_one (1, 32) 20 false false)
        ≡ Some (1, 32) }
    ensures to_the_end { place_put
        (last_resize (rounds_to 4096) last_of_two (1, 64) 4016 false false)
        ≡ Some (1, 64) }
    ensures fixed { last_resize (rounds_to 4096) last_of_two (1, 64) 4017 false false
        ≡ Refused Fixed }
    ensures moves { asked_place (last_resize (rounds_to 4096) last_of_two (1, 64) 5000 true false)
        ≡ Some ((2, 32), Some (new_segment 2 8192)) }
    ensures latest { option_map (λ b. b.label) (latest (last_resized 5000)) ≡ Some 2 }
    ensures hole { gap_sizes (last_resized 5000) ≡ 4032 ∷ 3136 ∷ [] }
    ensures not_lent { last_resize (rounds_to 4096) last_of_two (1, 64) 5000 true true
        ≡ Refused NoSegment }
{}

/// The newest segment has no block, and the next one goes there; when that segment is given back, the one lent before
/// it is the newest.
pub fn last_compacting()
    ensures before { place_put (last_alloc (rounds_to 4096) last_emptied 3 10 false)
        ≡ Some (1, 32) }
    ensures count { compact_count last_emptied ≡ 1 }
    ensures newest { newest (compacted_layout last_emptied) ≡ Some (2, 4096) }
    ensures after { place_put (last_alloc (rounds_to 4096) (compacted_layout last_emptied) 3 10 false)
        ≡ Some (2, 192) }
{}
