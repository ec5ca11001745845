ghost use Rattle.std.specs.Prelude.{◌≡◌, ℕ, [], ◌∷◌, false, replicate};
ghost use Rattle.vc_base.specs.Prelude.{empty_layout};
ghost use Rattle.vc_model.specs.Discipline.{Terms};
ghost use Rattle.vc_model.specs.Outcome.{Refused, TooManySegments};
ghost use Rattle.vc_cost.specs.BestCalls.{Live, after_bests, best_weight, bests_made, greatest_gaps};
ghost use Rattle.vc_cost.specs.declared.best_call.BestCall.TheVariants.{Alloc, Resize, Free, Clear, Compact};

/// A first block of 100 bytes takes a segment of 4,096 and leaves one gap.
pub fn best_rows()
    ensures none { greatest_gaps (record { round = 4096; grows = false }) [] (record { layout = empty_layout; blocks = [] }) ≡ 0 }
    ensures one { greatest_gaps (record { round = 4096; grows = false }) (Alloc 100 ∷ []) (record { layout = empty_layout; blocks = [] }) ≡ 1 }
    ensures live { (after_bests (record { round = 4096; grows = false }) (Alloc 100 ∷ Alloc 8 ∷ Free 0 ∷ []) (record { layout = empty_layout; blocks = [] })).blocks ≡ 1048581 ∷ [] }
    ensures gaps { greatest_gaps (record { round = 4096; grows = false }) (Alloc 100 ∷ Alloc 8 ∷ Free 0 ∷ Clear ∷ []) (record { layout = empty_layout; blocks = [] }) ≡ 2 }
    ensures moved { (after_bests (record { round = 4096; grows = false }) (Alloc 100 ∷ Alloc 8 ∷ Resize 0 200 ∷ []) (record { layout = empty_layout; blocks = [] })).blocks ≡ 1048582 ∷ 1048581 ∷ [] }
    ensures gone { (after_bests (record { round = 4096; grows = false }) (Alloc 100 ∷ Clear ∷ Compact ∷ []) (record { layout = empty_layout; blocks = [] })).layout.segments ≡ [] }
{}

/// A call that names no block counts as none, and one that goes over the segments as one at least.
pub fn best_call_rows()
    ensures none { best_weight (Free 0) (record { layout = empty_layout; blocks = [] }) ≡ 0 }
    ensures clear { best_weight Clear (record { layout = empty_layout; blocks = [] }) ≡ 1 }
    ensures sum { bests_made (record { round = 4096; grows = false }) (Alloc 4000 ∷ Alloc 4000 ∷ Resize 2 8 ∷ Clear ∷ Free 0 ∷ []) (record { layout = empty_layout; blocks = [] }) ≡ 4 }
{}
