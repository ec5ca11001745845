ghost use Rattle.std.specs.Prelude.{◌≡◌, [], ◌∷◌};
ghost use Rattle.vc_model.specs.Numbers.{block_bytes, block_count, block_sizes, gap_bytes, gap_count, gap_sizes, greatest, greatest_block, greatest_gap, segment_bytes, segment_count};
ghost use Rattle.vc_model.specs.Best.{zeros};
ghost use Rattle.vc_model.specs.Compact.{cleared_layout};
ghost use Rattle.vc_model.specs.Rows.{nine_blocks, over_one_segment};

/// A block of 1 byte behind the place of a freed one of 100.
pub fn numbers_of_one_block()
    ensures block_count { block_count (over_one_segment (zeros 2 1 (1, 160) ∷ [])) ≡ 1 }
    ensures gap_count { gap_count (over_one_segment (zeros 2 1 (1, 160) ∷ [])) ≡ 2 }
    ensures block_bytes { block_bytes (over_one_segment (zeros 2 1 (1, 160) ∷ [])) ≡ 1 }
    ensures gap_bytes { gap_bytes (over_one_segment (zeros 2 1 (1, 160) ∷ [])) ≡ 4032 }
    ensures greatest_block { greatest_block (over_one_segment (zeros 2 1 (1, 160) ∷ [])) ≡ 1 }
    ensures greatest_gap { greatest_gap (over_one_segment (zeros 2 1 (1, 160) ∷ [])) ≡ 3904 }
    ensures segment_count { segment_count (over_one_segment (zeros 2 1 (1, 160) ∷ [])) ≡ 1 }
    ensures segment_bytes { segment_bytes (over_one_segment (zeros 2 1 (1, 160) ∷ [])) ≡ 4096 }
{}

/// Nine blocks over four segments, of which the last is one gap.
pub fn numbers_of_nine_blocks()
    ensures block_count { block_count nine_blocks ≡ 9 }
    ensures gap_count { gap_count nine_blocks ≡ 6 }
    ensures block_bytes { block_bytes nine_blocks ≡ 3076 }
    ensures gap_bytes { gap_bytes nine_blocks ≡ 17024 }
    ensures greatest_block { greatest_block nine_blocks ≡ 1024 }
    ensures greatest_gap { greatest_gap nine_blocks ≡ 8160 }
    ensures segment_count { segment_count nine_blocks ≡ 4 }
    ensures segment_bytes { segment_bytes nine_blocks ≡ 20480 }
{}

/// With no block, and with no block and no segment.
pub fn numbers_of_nothing()
    ensures blocks { block_sizes (cleared_layout nine_blocks) ≡ [] }
    ensures gaps { gap_sizes (cleared_layout nine_blocks) ≡ 4064 ∷ 4064 ∷ 4064 ∷ 8160 ∷ [] }
    ensures greatest { greatest [] ≡ 0 }
{}
