ghost use Rattle.std.specs.Prelude.{◌≡◌, [], ◌∷◌, None, Some, map};
ghost use Rattle.vc_best.specs.CellRows.{cell_and_labelled};
ghost use Rattle.vc_best.specs.Cells.{cells_of, block_shown, without_cell};

/// An unlabelled block is a cell at its address, and a labelled one is none.
pub fn one_cell()
    ensures unlabelled { cells_of cell_and_labelled 1048577 ≡ Some (5 ∷ 6 ∷ []) }
    ensures labelled { cells_of cell_and_labelled 1048579 ≡ None }
    ensures between { cells_of cell_and_labelled 1048578 ≡ None }
    ensures no_address { cells_of cell_and_labelled 0 ≡ None }
    ensures gone { without_cell 1048577 (cells_of cell_and_labelled) 1048577 ≡ None }
    ensures rest { map (λ b. b.bytes) (map block_shown cell_and_labelled)
        ≡ (0 ∷ 0 ∷ []) ∷ (9 ∷ []) ∷ [] }
{}
