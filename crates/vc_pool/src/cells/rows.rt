ghost use Rattle.std.specs.Prelude.{◌≡◌, [], ◌∷◌};
ghost use Rattle.vc_base.specs.Prelude.{zeros};
ghost use Rattle.vc_pool.specs.Cells.Blocks.{carved_by, layout_by};
ghost use Rattle.vc_pool.specs.Cells.Freed.{freed_cells};
ghost use Rattle.vc_pool.specs.Cells.Rows.{one_cell_freed, two_cells_freed};

/// The cell freed last comes first, and a block whose tag is 0 is one.
#[tactic(auto, unfolding(crate::specs::Cells::Blocks::layout_by, crate::specs::Cells::Freed::freed_cells, crate::specs::Cells::Freed::freed_from))]
pub fn cells_are_freed()
    ensures freed { freed_cells two_cells_freed 1048579 ≡ (1, 96) ∷ (1, 32) ∷ [] }
    ensures blocks { (layout_by 32 two_cells_freed).blocks
        ≡ record { label = 0; seg = 1; off = 64; size = 2; bytes = 5 ∷ 6 ∷ [] } ∷ [] }
    ensures carved { carved_by two_cells_freed ≡ (1, 3) ∷ [] }
{}

/// A block of zeros is in the cell that was freed last, and the one freed before it is the last then.
#[tactic(auto, unfolding(crate::specs::Cells::Blocks::layout_by, crate::specs::Cells::Freed::freed_cells, crate::specs::Cells::Freed::freed_from))]
pub fn a_cell_is_reused()
    ensures freed { freed_cells one_cell_freed 1048577 ≡ (1, 32) ∷ [] }
    ensures blocks { (layout_by 32 one_cell_freed).blocks
        ≡ record { label = 0; seg = 1; off = 64; size = 2; bytes = 5 ∷ 6 ∷ [] }
        ∷ zeros 4 2 (1, 96) ∷ [] }
{}
