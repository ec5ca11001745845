ghost use Rattle.std.specs.Prelude.{◌≡◌, ℕ, ◌++◌, [], ◌∷◌, None, Some, false, true, negsuc, option_map, pos, replicate};
ghost use Rattle.vc_base.specs.Prelude.{zeros, find_block};
ghost use Rattle.vc_model.specs.Layout.{place_of_block};
ghost use Rattle.vc_model.specs.Outcome.{Fixed, Refused};
ghost use Rattle.vc_model.specs.Rows.{rounds_to};
ghost use Rattle.vc_model.specs.Walk.{block_at};
ghost use Rattle.vc_audit.specs.Debug.{debug_clear, debug_free, debug_resize, debug_write, with_poke, user_blocks, watched_at, with_watch};
ghost use Rattle.vc_audit.specs.DebugRows.{damages, two_put, with_resize};

/// Blocks of 100 and of 8 bytes stand 32 bytes behind their guards, and no user's block holds a byte of a guard.
pub fn debug_places()
    ensures blocks { user_blocks two_put ≡ zeros 1 100 (1, 64) ∷ zeros 2 8 (1, 256) ∷ [] }
    ensures front { block_at (1, 63) (user_blocks two_put) ≡ None }
    ensures first { option_map {U = (ℕ × ℕ) × ℕ} (λ f. (place_of_block f.0, f.1))
        (block_at (1, 64) (user_blocks two_put))
        ≡ Some ((1, 64), 0) }
    ensures back { block_at (1, 164) (user_blocks two_put) ≡ None }
{}

/// New guards are whole. Bytes that are poked into them are found by block, at the least offset, and 165 repairs one.
pub fn debug_damage()
    ensures whole { damages two_put ≡ [] }
    ensures back { damages (with_poke two_put (1, 64) (pos 100) 7) ≡ ((1, 64), pos 100) ∷ [] }
    ensures front { damages (with_poke (with_poke two_put (1, 64) (pos 100) 7) (1, 64) (negsuc 0) 0)
        ≡ ((1, 64), negsuc 0) ∷ [] }
    ensures both { damages (with_poke (with_poke two_put (1, 256) (pos 8) 0) (1, 64) (negsuc 31) 1)
        ≡ ((1, 64), negsuc 31) ∷ ((1, 256), pos 8) ∷ [] }
    ensures inside { damages (with_poke two_put (1, 256) (pos 7) 1) ≡ [] }
    ensures repaired { damages (with_poke (with_poke two_put (1, 256) (pos 8) 0) (1, 256) (pos 8) 165)
        ≡ [] }
{}

/// A resize, also to the same size, writes the back guard anew and leaves the front guard as it is, also where the block
/// moves. The bytes behind those that are kept are zero; a refused resize changes nothing.
pub fn debug_resizing()
    ensures same { damages (with_resize
        (with_poke (with_poke two_put (1, 256) (pos 8) 0) (1, 256) (negsuc 4) 0) (1, 256) 8 false)
        ≡ ((1, 256), negsuc 4) ∷ [] }
    ensures moved { damages (with_resize (with_poke two_put (1, 64) (negsuc 31) 1) (1, 64) 140 true)
        ≡ ((1, 352), negsuc 31) ∷ [] }
    ensures bytes { option_map (λ b. b.bytes) (find_block (1, 256) (user_blocks (with_resize
        (with_resize (debug_write two_put (1, 256) 5 (7 ∷ 8 ∷ 9 ∷ [])) (1, 256) 7 false)
        (1, 256) 10 false))) ≡ Some (replicate 5 0 ++ 7 ∷ 8 ∷ 0 ∷ 0 ∷ 0 ∷ []) }
    ensures refused { debug_resize (rounds_to 4096) two_put (1, 64) 140 false false
        ≡ Refused Fixed }
{}

/// A second watch takes the new line. A mark goes along where its block moves, and ends where the block is freed or all
/// are.
pub fn debug_marks()
    ensures none { watched_at two_put (1, 64) ≡ None }
    ensures second { watched_at (with_watch (with_watch two_put (1, 64) 3) (1, 64) 5) (1, 64)
        ≡ Some 5 }
    ensures moved { watched_at (with_resize (with_watch two_put (1, 64) 5) (1, 64) 140 true)
        (1, 352) ≡ Some 5 }
    ensures left { watched_at (with_resize (with_watch two_put (1, 64) 5) (1, 64) 140 true) (1, 64)
        ≡ None }
    ensures freed { watched_at (debug_free (with_watch two_put (1, 64) 5) (1, 64)) (1, 64) ≡ None }
    ensures cleared { watched_at (debug_clear (with_watch two_put (1, 64) 5)) (1, 64) ≡ None }
{}
