ghost use Rattle.std.specs.Prelude.{◌≡◌, [], ◌∷◌, Some, None, false, true};
ghost use Rattle.vc_model.specs.Best.{best_alloc};
ghost use Rattle.vc_model.specs.Discipline.{CanExtend, ExtendedAtOnce, extend_last, without_last};
ghost use Rattle.vc_model.specs.GrowthRows.{best_of_one, grows_to, last_of_long, more_bytes, pool_of_long};
ghost use Rattle.vc_model.specs.Last.{last_alloc, last_resize};
ghost use Rattle.vc_model.specs.Pool.{pool_alloc};
ghost use Rattle.vc_model.specs.PoolRows.{place_put};
ghost use Rattle.vc_model.specs.Resize.{best_resize};
ghost use Rattle.vc_model.specs.Rows.{asked_place, growing_disc};
ghost use Rattle.vc_model.specs.Segments.{Granted, NotLent, TooMany, ask, new_segment};

/// Of two equal pairs the last gets the bytes, wherever it stands; where none is equal, nothing changes.
pub fn extending()
    ensures last { extend_last (1, 4096) 8192
        ((1, 4096) ∷ (2, 4096) ∷ (1, 4096) ∷ (1, 8192) ∷ [])
        ≡ (1, 4096) ∷ (2, 4096) ∷ (1, 12288) ∷ (1, 8192) ∷ [] }
    ensures none { extend_last (2, 8192) 4096 ((1, 8192) ∷ (2, 4096) ∷ [])
        ≡ (1, 8192) ∷ (2, 4096) ∷ [] }
    ensures twice { extend_last (1, 8192) 4096 (extend_last (1, 4096) 4096 ((1, 4096) ∷ []))
        ≡ (1, 12288) ∷ [] }
    ensures back { without_last (1, 8192) (extend_last (1, 4096) 4096
        ((1, 4096) ∷ (1, 4096) ∷ []))
        ≡ (1, 4096) ∷ [] }
{}

/// A segment that is out may get a multiple of the round, of which the room is told less; up to 33,554,432 bytes in all.
pub fn growing()
    ensures may { CanExtend (growing_disc ((1, 4096) ∷ []) 8192) (1, 4096) 8192 }
    ensures edge { CanExtend (growing_disc ((1, 33550336) ∷ []) 0) (1, 33550336) 4096 }
    ensures above { ¬ CanExtend (growing_disc ((1, 33550336) ∷ []) 0) (1, 33550336) 8192 }
    ensures part { ¬ CanExtend (growing_disc ((1, 4096) ∷ []) 8192) (1, 4096) 32 }
    ensures nothing { ¬ CanExtend (growing_disc ((1, 4096) ∷ []) 8192) (1, 4096) 0 }
    ensures extended { ExtendedAtOnce (growing_disc ((1, 4096) ∷ []) 8192)
        (growing_disc ((1, 12288) ∷ []) 0) (1, 4096) 8192 }
    ensures unpaid { ¬ ExtendedAtOnce (growing_disc ((1, 4096) ∷ []) 8192)
        (growing_disc ((1, 12288) ∷ []) 8192) (1, 4096) 8192 }
{}

/// A region without a segment is lent one; one that has some gets more bytes in the one lent latest, up to 33,554,432 in
/// all, however many it has.
pub fn asking_to_grow()
    ensures first { ask (grows_to 4096) 4096 [] false ≡ Granted (new_segment 1 4096) }
    ensures more { ask (grows_to 4096) 4096 ((2, 8192) ∷ (1, 4096) ∷ []) false
        ≡ Granted (more_bytes 1 4096) }
    ensures refused { ask (grows_to 4096) 4096 ((1, 4096) ∷ []) true ≡ NotLent }
    ensures edge { ask (grows_to 4096) 4096 ((1, 33550336) ∷ []) false
        ≡ Granted (more_bytes 1 4096) }
    ensures above { ask (grows_to 4096) 8192 ((1, 33550336) ∷ []) false ≡ TooMany }
{}

/// A second block of 4,000 bytes goes behind the first one in the segment that is longer then: in a best region and in a
/// last one behind its footprint, in a pool behind its cell. A block that grows moves there.
pub fn blocks_where_it_grows()
    ensures best { asked_place (best_alloc (grows_to 4096) best_of_one 2 4000 32 false)
        ≡ Some ((1, 4064), Some (more_bytes 1 4096)) }
    ensures pool { place_put (pool_alloc (grows_to 4096) pool_of_long 2 4000 false)
        ≡ Some (1, 4032) }
    ensures last { asked_place (last_alloc (grows_to 4096) last_of_long 2 4000 false)
        ≡ Some ((1, 4064), Some (more_bytes 1 4096)) }
    ensures moved { place_put (best_resize (grows_to 4096) best_of_one (1, 32) 5000 true false)
        ≡ Some (1, 4064) }
    ensures latest_moved { place_put (last_resize (grows_to 4096) last_of_long (1, 32) 5000 true false)
        ≡ Some (1, 4064) }
{}
