ghost use Rattle.std.specs.Prelude.{◌≡◌, ℕ, [], ◌∷◌, Some, None, map, option_map};
ghost use Rattle.vc_model.specs.Addr.{address};
ghost use Rattle.vc_model.specs.Best.{zeros};
ghost use Rattle.vc_model.specs.Compact.{compact_count, compacted_layout};
ghost use Rattle.vc_model.specs.Walk.{block_at, by_address, next_block, next_segment, segment_at};
ghost use Rattle.vc_model.specs.Rows.{eight_blocks, nine_blocks};

/// The segment without a block goes; and once the one block of another is freed, that one too.
pub fn compacting()
    ensures first { (compacted_layout nine_blocks).segments ≡ (1, 4096) ∷ (2, 4096) ∷ (3, 4096) ∷ [] }
    ensures first_count { compact_count nine_blocks ≡ 1 }
    ensures second { (compacted_layout eight_blocks).segments ≡ (1, 4096) ∷ (2, 4096) ∷ [] }
    ensures second_count { compact_count eight_blocks ≡ 1 }
    ensures third_count { compact_count (compacted_layout eight_blocks) ≡ 0 }
    ensures blocks { (compacted_layout eight_blocks).blocks ≡ eight_blocks.blocks }
{}

/// A block holds its first byte and its last, and no byte before or behind them.
pub fn bytes_of_blocks()
    ensures within { option_map {U = ℕ × ℕ} (λ f. (f.0.label, f.1))
        (block_at (3, 1100) nine_blocks.blocks) ≡ Some (9, 76) }
    ensures first { option_map {U = ℕ × ℕ} (λ f. (f.0.label, f.1))
        (block_at (3, 1024) nine_blocks.blocks) ≡ Some (9, 0) }
    ensures last { option_map {U = ℕ × ℕ} (λ f. (f.0.label, f.1))
        (block_at (3, 2047) nine_blocks.blocks) ≡ Some (9, 1023) }
    ensures before { block_at (3, 1023) nine_blocks.blocks ≡ None }
    ensures behind { block_at (3, 2048) nine_blocks.blocks ≡ None }
    ensures elsewhere { block_at (2, 1100) nine_blocks.blocks ≡ None }
{}

/// A segment has the offsets below its size.
pub fn bytes_of_segments()
    ensures first { segment_at (2, 0) nine_blocks.segments ≡ Some 4096 }
    ensures last { segment_at (4, 8191) nine_blocks.segments ≡ Some 8192 }
    ensures behind { segment_at (4, 8192) nine_blocks.segments ≡ None }
    ensures elsewhere { segment_at (5, 0) nine_blocks.segments ≡ None }
{}

/// Segments in order of lending are walked in order of number.
pub fn walk_of_segments()
    ensures first { next_segment 0 ((3, 64) ∷ (1, 96) ∷ (7, 128) ∷ []) ≡ Some (1, 96) }
    ensures second { next_segment 1 ((3, 64) ∷ (1, 96) ∷ (7, 128) ∷ []) ≡ Some (3, 64) }
    ensures third { next_segment 3 ((3, 64) ∷ (1, 96) ∷ (7, 128) ∷ []) ≡ Some (7, 128) }
    ensures last { next_segment 7 ((3, 64) ∷ (1, 96) ∷ (7, 128) ∷ []) ≡ None }
    ensures absent { next_segment 5 ((3, 64) ∷ (1, 96) ∷ (7, 128) ∷ []) ≡ Some (7, 128) }
{}

/// Blocks are walked by address, from no address on, whatever their order in the list.
pub fn walk_of_blocks()
    ensures first { option_map (λ b. b.label) (next_block 0 nine_blocks.blocks) ≡ Some 1 }
    ensures second { option_map (λ b. b.label) (next_block (address (1, 32)) nine_blocks.blocks)
        ≡ Some 2 }
    ensures across { option_map (λ b. b.label) (next_block (address (1, 1888)) nine_blocks.blocks)
        ≡ Some 7 }
    ensures last { next_block (address (3, 1024)) nine_blocks.blocks ≡ None }
    ensures by_address { map {B = ℕ} (λ b. b.label) (by_address
        (zeros 1 8 (2, 32) ∷ zeros 2 8 (1, 64) ∷ zeros 3 8 (1, 32) ∷ [])) ≡ 3 ∷ 2 ∷ 1 ∷ [] }
{}
