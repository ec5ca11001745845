ghost use Rattle.std.specs.Prelude.{◌≡◌, [], ◌∷◌, Some, None, false, true, map};
ghost use Rattle.vc_model.specs.Outcome.{NoSegment, PoolSize, Refused};
ghost use Rattle.vc_model.specs.Best.{zeros};
ghost use Rattle.vc_model.specs.Layout.{address_of};
ghost use Rattle.vc_model.specs.Pool.{free_cell_bytes, free_cells, greatest_free_cell, pool_alloc, pool_clear, pool_compact, pool_need, pool_resize, uncarved};
ghost use Rattle.vc_model.specs.PoolRows.{place_put, pool_of_four, pool_of_none, pool_of_one, pool_of_segments, pool_of_three, pool_of_three_again, pool_of_two, pool_of_two_again, pool_with};
ghost use Rattle.vc_model.specs.Rows.{rounds_to};

/// Cells of 32 bytes are carved one behind another from offset 32 on. A smaller block gets a whole cell, a greater one
/// none.
pub fn pool_cells()
    ensures first { place_put (pool_alloc (rounds_to 4096) pool_of_none 1 24 false) ≡ Some (1, 32) }
    ensures second { place_put
        (pool_alloc (rounds_to 4096) (pool_with pool_of_none 1 24) 2 24 false)
        ≡ Some (1, 64) }
    ensures greater { pool_alloc (rounds_to 4096) pool_of_two 3 25 false ≡ Refused PoolSize }
    ensures smaller { place_put (pool_alloc (rounds_to 4096) pool_of_two 3 8 false) ≡ Some (1, 96) }
    ensures need { pool_need (rounds_to 4096) pool_of_none 4064 ≡ 4096 }
    ensures more { pool_need (rounds_to 4096) pool_of_none 4065 ≡ 8192 }
{}

/// The cell that was freed last is taken first, then the one freed before it, and only then an uncarved one.
pub fn pool_freed()
    ensures last { place_put (pool_alloc (rounds_to 4096) pool_of_one 4 24 false) ≡ Some (1, 96) }
    ensures first { place_put (pool_alloc (rounds_to 4096) pool_of_two_again 5 24 false)
        ≡ Some (1, 32) }
    ensures uncarved { place_put (pool_alloc (rounds_to 4096) pool_of_three_again 6 24 false)
        ≡ Some (1, 128) }
    ensures by_address { map address_of pool_of_four.layout.blocks
        ≡ 1048577 ∷ 1048578 ∷ 1048579 ∷ 1048580 ∷ [] }
    ensures resize { pool_resize pool_of_four (1, 128) 25 ≡ Refused PoolSize }
    ensures stays { place_put (pool_resize pool_of_four (1, 128) 3) ≡ Some (1, 128) }
{}

/// The first block that is granted sets the element size, and one that is refused sets none. It stays when all blocks
/// go.
pub fn pool_element()
    ensures refused { pool_alloc (rounds_to 4096) pool_of_none 1 100 true ≡ Refused NoSegment }
    ensures unset { pool_of_none.element ≡ None }
    ensures set { (pool_with pool_of_none 1 16).element ≡ Some 16 }
    ensures smaller { (pool_with (pool_with pool_of_none 1 16) 2 3).element ≡ Some 16 }
    ensures cleared { pool_alloc (rounds_to 4096)
        (pool_clear (pool_with pool_of_none 1 16)) 2 17 false
        ≡ Refused PoolSize }
    ensures carved_anew { place_put
        (pool_alloc (rounds_to 4096) (pool_clear pool_of_four) 7 24 false)
        ≡ Some (1, 32) }
{}

/// An uncarved cell is the lowest one of the first segment, in order of lending, that has one.
pub fn pool_uncarved()
    ensures first { uncarved 32 [] ((3, 96) ∷ (1, 96) ∷ []) ≡ Some (3, 32) }
    ensures second { uncarved 32 ((3, 1) ∷ (1, 1) ∷ []) ((3, 96) ∷ (1, 96) ∷ []) ≡ Some (3, 64) }
    ensures third { uncarved 32 ((3, 2) ∷ []) ((3, 96) ∷ (1, 96) ∷ []) ≡ Some (1, 32) }
    ensures none { uncarved 32 ((3, 2) ∷ (1, 2) ∷ []) ((3, 96) ∷ (1, 127) ∷ []) ≡ None }
{}

/// The segments without a block go, and their freed cells with them; the others keep their order.
pub fn pool_compacting()
    ensures segments { (pool_compact pool_of_segments).layout.segments ≡ (1, 96) ∷ [] }
    ensures freed { (pool_compact pool_of_segments).freed ≡ (1, 64) ∷ [] }
    ensures carved { (pool_compact pool_of_segments).carved ≡ (1, 2) ∷ [] }
    ensures element { (pool_compact pool_of_segments).element ≡ Some 24 }
    ensures next { place_put (pool_alloc (rounds_to 32) (pool_compact pool_of_segments) 2 24 false)
        ≡ Some (1, 64) }
{}

/// A segment of 4,096 bytes has 127 cells of 32 bytes. Freed cells and uncarved ones count alike.
pub fn pool_numbers()
    ensures free { free_cells (pool_with pool_of_none 1 16) ≡ 126 }
    ensures bytes { free_cell_bytes (pool_with pool_of_none 1 16) ≡ 4032 }
    ensures greatest { greatest_free_cell (pool_with pool_of_none 1 16) ≡ 32 }
    ensures freed { free_cells pool_of_one ≡ 126 }
    ensures carved { free_cells pool_of_segments ≡ 5 }
    ensures none { free_cells pool_of_none ≡ 0 }
    ensures none_greatest { greatest_free_cell pool_of_none ≡ 0 }
{}
